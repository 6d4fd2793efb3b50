//! The least bound of one task, with no memory.
ghost use Rattle.std.specs.Prelude.{◌≤◌, ◌<◌, length, IfSome};
ghost use Rattle.lists.specs.Limits.{greatest_number};
ghost use Rattle.lists.specs.Searches.{IsLeast};
ghost use Rattle.preemption.specs.CutLaws.{Serves};
ghost use Rattle.demand.specs.Meeting.{IsWindow};
ghost use Rattle.solver.specs.Bounds.{IsBelowOrAbove, IsBoundWithin, IsServedBy, TasksHaveOneBound};

use crate::ceilings::Ceiled;
use crate::laws::laws;
use crate::searches::{least_bound, least_end, least_window};
use demand::{demand_grows, need_falls, need_fits};
use policy::Policy;
use preemption::Preemption;
use search_space::{across_gap, next_point};
use supply::Supply;
use task_sheet::Sheet;

/// The bound in the best entry of task `i`, whose least window in ticks is given; None only where it
/// is above the limit, which is seen at the first offset that asks for more.
#[tactic(auto, using(task_sheet::specs::Limits::jitter_high))]
fn bound_below<P: Policy, M: Preemption, S: Ceiled>(
    sheet: &Sheet,
    supply: &S,
    i: u32,
    window: u64,
    limit: u64,
) -> Option<u64>
    requires task { i < length sheet.now.tasks }
    requires window { window ≤ greatest_number }
    requires least { IsLeast (IsWindow P.meaning M.cuts (S.sbf supply.now) sheet.now i) window }
    requires served { Serves M.cuts sheet.now }
    ensures { IsBelowOrAbove P.meaning M.cuts (S.sbf supply.now) sheet.now i window limit result }
{
    laws::<P, M, S>(sheet, supply);
    let jitter = sheet.task(i).jitter;
    let top = window + jitter;
    let mut bound = jitter;
    let mut a = 0;
    loop {
        // At each offset below it the window is an end, and with the jitter a bound.
        let Some(end) = least_end::<P, M, S>(sheet, supply, i, a, window) else {
            unreachable!()
        };
        let Some(least) = least_bound::<P, M, S>(sheet, supply, i, a, end, top) else {
            unreachable!()
        };
        if least > limit {
            return None;
        }
        bound = least.max(bound);
        let Some(next) = next_point::<P>(sheet, i, a, window) else {
            return Some(bound);
        };
        a = next;
    }
}

/// The least bound of task `i`, where it is at most the limit, and it and the least window are up to
/// the horizon, all in ticks: that of its entry in the best certificate.
pub fn task_bound<P: Policy, M: Preemption, S: Ceiled>(
    sheet: &Sheet,
    supply: &S,
    i: u32,
    horizon: u64,
    limit: u64,
) -> Option<u64>
    requires task { i < length sheet.now.tasks }
    requires horizon { horizon ≤ greatest_number }
    requires served { Serves M.cuts sheet.now }
    ensures least { IsBoundWithin P.meaning M.cuts (S.sbf supply.now) sheet.now horizon limit i
        result }
    ensures serves { IfSome result
        (IsServedBy P.meaning M.cuts (S.sbf supply.now) sheet.now horizon i) }
{
    laws::<P, M, S>(sheet, supply);
    let Some(window) = least_window::<P, M, S>(sheet, supply, i, horizon) else {
        return None;
    };
    let Some(bound) = bound_below::<P, M, S>(sheet, supply, i, window, limit) else {
        return None;
    };
    if bound <= limit && bound <= horizon {
        return Some(bound);
    }
    None
}

/// A task has one least bound or none, and `bound_of` is it; an entry with it serves the task.
pub fn task_has_one_bound<P: Policy, M: Preemption, S: Supply>()
    ensures { (supply : S) → S.is_supply supply →
        TasksHaveOneBound P.meaning M.cuts (S.sbf supply) }
{
    need_fits::<P, M>();
    demand_grows::<P, M>();
    need_falls::<P, M>();
    across_gap::<P>();
}
