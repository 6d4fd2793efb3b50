//! The analysis of a whole sheet.
ghost use Rattle.std.specs.Prelude.{◌≡◌, ◌≤◌, false, None, IfOk, IfErr};
ghost use Rattle.lists.specs.Limits.{greatest_number};
ghost use Rattle.preemption.specs.CutLaws.{Serves};
ghost use Rattle.certificate.specs.Text.{IsWithinGrammar};
ghost use Rattle.conditions.specs.Conditions.{failed_of};
ghost use Rattle.solver.specs.Best.{IsBest, HasCause, IsUpTo, NoneSmaller, NoneWhereNoBound};
ghost use Rattle.solver.specs.Outcome.{IsBestAnswer};

use crate::ceilings::Ceiled;
use crate::entries::best_entry;
use crate::laws::laws;
use crate::windows::next_window;
use certificate::{Cert, Version};
use lists::Items;
use lists::limits::MOST_POINTS;
use meter::Meter;
use policy::Policy;
use preemption::Preemption;
use std::alloc::Global;
use task_sheet::Sheet;

/// What of an entry is missing.
#[derive(Clone, Copy, Debug, PartialEq, Eq)]
pub enum Part {
    /// No window up to the horizon supplies what the task's class asks for.
    Window,
    /// The least bound that serves at every point is above the horizon.
    Bound,
}

/// Why there is no certificate. Tasks are named by their numbers, counted from 0.
#[derive(Clone, Copy, Debug, PartialEq, Eq)]
pub enum AnalyseRefusal {
    /// The first task that has no bound up to the horizon, for want of this part.
    NoBound { task: u32, part: Part },
    /// The first task with which there are more than 1,000,000 points.
    Points { task: u32 },
    /// Want of memory.
    Memory,
}

/// The best certificate up to the horizon, or why there is none.
fn best_cert<P: Policy, M: Preemption, S: Ceiled>(
    alloc: Global,
    sheet: &Sheet,
    supply: &S,
    horizon: u64,
) -> Result<Cert, AnalyseRefusal>
    requires horizon { horizon ≤ greatest_number }
    requires served { Serves M.cuts sheet.now }
    ensures best { IfOk result (IsBest P.meaning M.cuts (S.sbf supply.now) sheet.now horizon) }
    ensures cause { IfErr result (HasCause P.meaning M.cuts (S.sbf supply.now) sheet.now horizon) }
{
    laws::<P, M, S>(sheet, supply);
    let Ok(mut meter) = Meter::<P, M>::new(alloc, sheet) else {
        return Err(AnalyseRefusal::Memory);
    };
    let mut entries = Vec::new(alloc);
    let mut room = MOST_POINTS;
    let mut before = 0;
    for i in 0..sheet.len() {
        let Some(window) = next_window::<P, M, S>(sheet, supply, i, horizon, before) else {
            return Err(AnalyseRefusal::NoBound {
                task: i,
                part: Part::Window,
            });
        };
        let found = best_entry::<P, M, S>(alloc, sheet, supply, i, window, room, &mut meter);
        let Ok(within) = found else {
            return Err(AnalyseRefusal::Memory);
        };
        let Some(entry) = within else {
            return Err(AnalyseRefusal::Points { task: i });
        };
        let count = entry.points.len() as u64;
        if entry.bound > horizon {
            return Err(AnalyseRefusal::NoBound {
                task: i,
                part: Part::Bound,
            });
        }
        let Ok(()) = entries.push(entry) else {
            return Err(AnalyseRefusal::Memory);
        };
        room -= count;
        before = window;
    }
    Ok(Cert {
        version: Version::One,
        entries: Items::new(entries),
    })
}

/// The best certificate of a sheet: task by task the least window up to the horizon in ticks, the
/// points below it with their least ends, and the least bound that serves at every point, where it is
/// up to the horizon too.
///
/// It meets every condition but that on deadlines, and no certificate with a point in each entry
/// that meets these has a smaller window or bound.
pub fn analyse<P: Policy, M: Preemption, S: Ceiled>(
    alloc: Global,
    sheet: &Sheet,
    supply: &S,
    horizon: u64,
) -> Result<Cert, AnalyseRefusal>
    requires horizon { horizon ≤ greatest_number }
    requires served { Serves M.cuts sheet.now }
    ensures best { IfOk result (IsBest P.meaning M.cuts (S.sbf supply.now) sheet.now horizon) }
    ensures meets { IfOk result (λ cert.
        failed_of P.meaning M.cuts (S.sbf supply.now) sheet.now false cert ≡ None) }
    ensures within { IfOk result IsWithinGrammar }
    ensures up_to { IfOk result (IsUpTo horizon) }
    ensures least { IfOk result (NoneSmaller P.meaning M.cuts (S.sbf supply.now) sheet.now) }
    ensures cause { IfErr result (HasCause P.meaning M.cuts (S.sbf supply.now) sheet.now horizon) }
    ensures exact { IsBestAnswer P.meaning M.cuts (S.sbf supply.now) sheet.now horizon result }
    ensures none { IfErr result
        (NoneWhereNoBound P.meaning M.cuts (S.sbf supply.now) sheet.now horizon) }
{
    laws::<P, M, S>(sheet, supply);
    best_cert::<P, M, S>(alloc, sheet, supply, horizon)
}
