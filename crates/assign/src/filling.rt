//! One level after the other.
ghost use Rattle.std.specs.Prelude.{◌≤◌, ◌<◌, ℕ, List, length};
ghost use Rattle.lists.specs.Limits.{greatest_number};
ghost use Rattle.assign.specs.Sheets.{ServesAny};
ghost use Rattle.assign.specs.Trials.{IsSoFar, IsFilledTo};

use crate::assignment::Placed;
use crate::trials::try_priority;
use preemption::Tabled;
use solver::Ceiled;
use task_sheet::Sheet;

/// Gives the level to the first task that has none yet and is good there, and tells whether there is
/// one. In the trial sheet the tasks with a level have it, and all others stand above.
pub fn fill_level<M: Tabled, S: Ceiled>(
    sheet: &Sheet,
    supply: &S,
    horizon: u64,
    level: u32,
    trial: &mut Sheet,
    places: &mut [Placed],
) -> bool
    requires horizon { horizon ≤ greatest_number }
    requires level { level ≤ length sheet.now.tasks }
    requires served { ServesAny M.cuts sheet.now }
    requires so_far { (order : List ℕ) × IsSoFar M.cuts (S.sbf supply.now) sheet.now horizon level
        trial.old places.old order }
    ensures { IsFilledTo M.cuts (S.sbf supply.now) sheet.now horizon level trial.new
        places.new result }
{
    supply.known();
    for i in 0..sheet.len() {
        if trial.task(i).priority >= level as u64
            && let Some(bound) = try_priority::<M, S>(trial, supply, i, level as u64, horizon)
        {
            places[i as usize] = Placed {
                priority: level as u64,
                bound,
            };
            return true;
        }
    }
    false
}
