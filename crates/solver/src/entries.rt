//! The best entry of one task.
ghost use Rattle.std.specs.Prelude.{◌≡◌, ◌≤◌, ◌<◌, length, IfOk};
ghost use Rattle.lists.specs.Limits.{greatest_number};
ghost use Rattle.lists.specs.Searches.{IsLeast};
ghost use Rattle.preemption.specs.CutLaws.{Serves};
ghost use Rattle.demand.specs.Meeting.{IsWindow};
ghost use Rattle.solver.specs.Ends.{IsEntryWithin};

use crate::ceilings::Ceiled;
use crate::ends::{next_end, next_offset};
use crate::laws::laws;
use crate::searches::bound_for;
use certificate::{Entry, Point};
use demand::rest;
use lists::Items;
use meter::Meter;
use policy::Policy;
use preemption::Preemption;
use std::alloc::{AllocError, Global};
use task_sheet::Sheet;

/// The best entry of task `i`, whose least window in ticks is given; None where it has more points
/// than there is room for. The meter is one of the sheet, and goes once over the task's offsets.
#[tactic(auto, using(task_sheet::specs::Limits::jitter_high))]
pub fn best_entry<P: Policy, M: Preemption, S: Ceiled>(
    alloc: Global,
    sheet: &Sheet,
    supply: &S,
    i: u32,
    window: u64,
    room: u64,
    meter: &mut Meter<'_, P, M>,
) -> Result<Option<Entry>, AllocError>
    requires task { i < length sheet.now.tasks }
    requires window { window ≤ greatest_number }
    requires least { IsLeast (IsWindow P.meaning M.cuts (S.sbf supply.now) sheet.now i) window }
    requires served { Serves M.cuts sheet.now }
    requires meter { meter.old.sheet ≡ sheet.now }
    ensures best { IfOk result
        (IsEntryWithin P.meaning M.cuts (S.sbf supply.now) sheet.now i window room) }
    ensures meter { meter.new.sheet ≡ sheet.now }
{
    laws::<P, M, S>(sheet, supply);
    let jitter = sheet.task(i).jitter;
    let left = rest::<M>(sheet, i) as u128;
    let limit = window + jitter;
    let mut points = Vec::new(alloc);
    let mut bound = jitter;
    let mut a = 0;
    let mut begin = 0;
    meter.open(i);
    loop {
        if points.len() as u64 >= room {
            return Ok(None);
        }
        // At each offset below it the window is an end, and with the jitter a bound.
        let Some(end) = next_end::<P, M, S>(sheet, supply, i, a, begin, window, meter) else {
            unreachable!()
        };
        let wanted = meter.need() + left;
        let Some(least) = bound_for::<P, M, S>(sheet, supply, i, a, end, wanted, limit) else {
            unreachable!()
        };
        points.push(Point { offset: a, end })?;
        bound = least.max(bound);
        let Some(next) = meter.next_point(window) else {
            return Ok(Some(Entry {
                window,
                bound,
                points: Items::new(points),
                terms: Items::new(Vec::new(alloc)),
            }));
        };
        begin = next_offset::<P, M>(sheet, i, a, end, next, meter);
        a = next;
    }
}
