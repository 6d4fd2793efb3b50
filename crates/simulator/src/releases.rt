//! The jobs that are released at a tick.
ghost use Rattle.std.specs.Prelude.{◌≡◌, ◌≤◌, suc, OnOk, IfSome, IfNone};
ghost use Rattle.lists.specs.Limits.{most_ticks};
ghost use Rattle.simulator.specs.SimulationState.{IsKept, IsReady, NoneIsDue, IsTakenOut, moment_of};

use crate::simulation::{Due, Simulation};
use policy::Policy;
use preemption::Preemption;
use std::alloc::AllocError;
use std::collections::BTreeSet;
use task_sheet::Sheet;
use urgency::rank_of;

/// Takes out the first job to come, if it is released by `t`.
fn take_due(coming: &mut BTreeSet<Due>, t: u64) -> Option<Due>
    ensures none { IfNone result (NoneIsDue t coming.new) }
    ensures same { IfNone result (coming.new ≡ coming.old) }
    ensures some { IfSome result (IsTakenOut t coming.old coming.new) }
{
    let due = match coming.first() {
        Some(due) => *due,
        None => return None,
    };
    if due.release > t {
        return None;
    }
    coming.remove(&due);
    Some(due)
}

/// Lets the jobs that are released at `t` into the queue.
pub fn let_in<P: Policy, M: Preemption>(
    sheet: &Sheet,
    simulation: &mut Simulation,
    t: u64,
) -> Result<(), AllocError>
    requires time { t ≤ most_ticks }
    requires kept { IsKept P.meaning M.cuts sheet.now t simulation.old }
    ensures moment { OnOk result (moment_of simulation.new ≡ moment_of simulation.old) }
    ensures kept { OnOk result (IsReady P.meaning M.cuts sheet.now t simulation.new) }
{
    while let Some(due) = take_due(&mut simulation.coming, t) {
        let job = &simulation.jobs[due.number as usize];
        let rank = rank_of::<P>(sheet, job, due.number);
        simulation.queue.insert(rank, due.number)?;
    }
    Ok(())
}
