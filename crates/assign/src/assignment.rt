//! The assignment of priorities.
ghost use Rattle.std.specs.Prelude.{◌≡◌, ◌≤◌, ◌<◌, ℕ, List, map, length, Ok, IfOk, IfErr};
ghost use Rattle.lists.specs.Limits.{greatest_number};
ghost use Rattle.policy.specs.Policies.{fp_meaning};
ghost use Rattle.schedule_laws.specs.Bounded.{AreBounded};
ghost use Rattle.assign.specs.Sheets.{sheet_by, ServesAny, AreGood};
ghost use Rattle.assign.specs.Assignment.{IsAssignment, IsOrder, AreInTime, HasReason, priority_in};
ghost use Rattle.assign.specs.Outcome.{assignment_of, IsRefusal};

use crate::filling::fill_level;
use crate::trials::all_above;
use abstract_rta::points_bound;
use policy::Fp;
use preemption::Tabled;
use solver::{Ceiled, task_has_one_bound};
use std::alloc::Global;
use task_sheet::Sheet;

/// The place of a task in an order.
#[derive(Clone, Copy, Debug, PartialEq, Eq)]
pub struct Placed {
    /// Its level, counted from 1: a greater one is more urgent.
    pub priority: u64,
    /// Its least bound there, in ticks.
    pub bound: u64,
}

/// Why there is no order.
#[derive(Clone, Copy, Debug, PartialEq, Eq)]
pub enum AssignRefusal {
    /// The first level, counted from 1 and from below, at which no task is good.
    NoOrder { level: u32 },
    /// Want of memory.
    Memory,
}

/// Priorities 1 to n for the n tasks of a sheet, with which every task meets its deadline, and their
/// least bounds; windows and bounds are looked for up to the horizon, in ticks. The sheet's own policy
/// and priorities are not looked at.
///
/// The levels are filled from below, each by the first task that is good there, as in Audsley's
/// method. Where a level cannot be filled no priorities at all make every task good.
pub fn assign<M: Tabled, S: Ceiled>(
    alloc: Global,
    sheet: &Sheet,
    supply: &S,
    horizon: u64,
) -> Result<Vec<Placed>, AssignRefusal>
    requires horizon { horizon ≤ greatest_number }
    requires served { ServesAny M.cuts sheet.now }
    ensures assigned { IfOk result (λ places.
        IsAssignment M.cuts (S.sbf supply.now) sheet.now horizon places.items) }
    ensures order { IfOk result (λ places. IsOrder (length sheet.now.tasks) places.items) }
    ensures good { IfOk result (λ places.
        AreGood M.cuts (S.sbf supply.now) sheet.now horizon (priority_in places.items)) }
    ensures in_time { IfOk result (λ places. AreInTime sheet.now places.items) }
    ensures bounded { IfOk result (λ places. AreBounded fp_meaning M.cuts (S.sbf supply.now)
        (sheet_by sheet.now (priority_in places.items)) (map (λ p. p.bound) places.items)) }
    ensures exact { IfOk result (λ places.
        assignment_of M.cuts (S.sbf supply.now) sheet.now horizon ≡ Ok places.items) }
    ensures refusal { IfErr result (IsRefusal M.cuts (S.sbf supply.now) sheet.now horizon) }
    ensures cause { IfErr result (HasReason M.cuts (S.sbf supply.now) sheet.now horizon) }
{
    points_bound::<Fp, M, S>();
    task_has_one_bound::<Fp, M, S>();
    supply.known();
    let Ok(mut trial) = all_above(alloc, sheet) else {
        return Err(AssignRefusal::Memory);
    };
    let none = Placed {
        priority: 0,
        bound: 0,
    };
    let Ok(mut places) = vec![in alloc; none; sheet.len() as usize] else {
        return Err(AssignRefusal::Memory);
    };
    for below in 0..sheet.len() {
        let level = below + 1;
        if !fill_level::<M, S>(sheet, supply, horizon, level, &mut trial, &mut places) {
            return Err(AssignRefusal::NoOrder { level });
        }
    }
    Ok(places)
}
