//! The least windows of tasks, one after the other.
ghost use Rattle.std.specs.Prelude.{◌≡◌, ◌≤◌, ◌<◌, ◌-◌, true, Some, length};
ghost use Rattle.lists.specs.Limits.{greatest_number};
ghost use Rattle.lists.specs.Searches.{IsLeastTo};
ghost use Rattle.preemption.specs.CutLaws.{Serves};
ghost use Rattle.demand.specs.Meeting.{IsWindow};
ghost use Rattle.solver.specs.Windows.{AskSame};

use crate::ceilings::Ceiled;
use crate::searches::least_window;
use demand::window_need;
use policy::Policy;
use preemption::Preemption;
use task_sheet::Sheet;

/// Whether two tasks are seen to ask for the same in every window: who is in the class of one is
/// in that of the other, and both wait for the same delay.
fn ask_same<P: Policy, M: Preemption>(sheet: &Sheet, i: u32, j: u32) -> bool
    requires i { i < length sheet.now.tasks }
    requires j { j < length sheet.now.tasks }
    requires served { Serves M.cuts sheet.now }
    ensures { result ≡ true → AskSame P.meaning M.cuts sheet.now i j }
{
    for o in 0..sheet.len() {
        if P::class(sheet, i, o) != P::class(sheet, j, o) {
            return false;
        }
    }
    // The classes ask for the same, so what differs is the delay.
    window_need::<P, M>(sheet, i, 0) == window_need::<P, M>(sheet, j, 0)
}

/// The least window of task `i` up to the horizon, both in ticks, that meets `K3`; `before` is that
/// of the task before, where there is one.
pub fn next_window<P: Policy, M: Preemption, S: Ceiled>(
    sheet: &Sheet,
    supply: &S,
    i: u32,
    horizon: u64,
    before: u64,
) -> Option<u64>
    requires task { i < length sheet.now.tasks }
    requires horizon { horizon ≤ greatest_number }
    requires served { Serves M.cuts sheet.now }
    requires before { 0 < i → IsLeastTo
        (IsWindow P.meaning M.cuts (S.sbf supply.now) sheet.now (i - 1)) horizon (Some before) }
    ensures { IsLeastTo (IsWindow P.meaning M.cuts (S.sbf supply.now) sheet.now i) horizon result }
{
    let _tasks = sheet.len();
    if i > 0 && ask_same::<P, M>(sheet, i - 1, i) {
        return Some(before);
    }
    least_window::<P, M, S>(sheet, supply, i, horizon)
}
