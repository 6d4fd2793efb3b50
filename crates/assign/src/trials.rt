//! One task at one level.
ghost use Rattle.std.specs.Prelude.{◌≡◌, ◌≤◌, ◌<◌, [], length, IfOk};
ghost use Rattle.lists.specs.Limits.{greatest_number};
ghost use Rattle.preemption.specs.CutLaws.{Serves};
ghost use Rattle.task_sheet.specs.Priorities.{with_priority};
ghost use Rattle.assign.specs.Sheets.{sheet_in};
ghost use Rattle.assign.specs.Trials.{IsGoodBoundOrNone, IsTried};

use policy::Fp;
use preemption::Tabled;
use solver::{Ceiled, task_bound};
use std::alloc::{AllocError, Global};
use task_sheet::Sheet;

/// The sheet under fixed priorities, with every task above all levels.
pub fn all_above(alloc: Global, sheet: &Sheet) -> Result<Sheet, AllocError>
    ensures { IfOk result (λ trial. trial ≡ sheet_in sheet.now []) }
{
    let mut trial = sheet.copy(alloc)?;
    trial.set_fp();
    let count = sheet.len();
    for i in 0..count {
        trial.set_priority(i, count as u64 + 1);
    }
    Ok(trial)
}

/// The least bound of task `i`, where it is at most the deadline.
fn good_bound<M: Tabled, S: Ceiled>(sheet: &Sheet, supply: &S, i: u32, horizon: u64) -> Option<u64>
    requires task { i < length sheet.now.tasks }
    requires horizon { horizon ≤ greatest_number }
    requires served { Serves M.cuts sheet.now }
    ensures { IsGoodBoundOrNone M.cuts (S.sbf supply.now) sheet.now horizon i result }
{
    let deadline = sheet.task(i).deadline;
    task_bound::<Fp, M, S>(sheet, supply, i, horizon, deadline)
}

/// The least bound of task `i` with this priority, where it is at most the deadline: the task keeps
/// the priority then, and else has the one from before.
pub fn try_priority<M: Tabled, S: Ceiled>(
    trial: &mut Sheet,
    supply: &S,
    i: u32,
    priority: u64,
    horizon: u64,
) -> Option<u64>
    requires task { i < length trial.old.tasks }
    requires priority { priority ≤ greatest_number }
    requires horizon { horizon ≤ greatest_number }
    requires served { Serves M.cuts (with_priority trial.old i priority) }
    ensures { IsTried M.cuts (S.sbf supply.now) trial.old trial.new i priority horizon result }
{
    let before = trial.task(i).priority;
    trial.set_priority(i, priority);
    let Some(bound) = good_bound::<M, S>(trial, supply, i, horizon) else {
        trial.set_priority(i, before);
        return None;
    };
    Some(bound)
}
