//! The least ends of a task, offset by offset, on a meter.
ghost use Rattle.std.specs.Prelude.{◌≡◌, ◌≤◌, ◌<◌, ℕ, length, IfSome};
ghost use Rattle.lists.specs.Limits.{greatest_number};
ghost use Rattle.lists.specs.Searches.{IsLeastTo};
ghost use Rattle.preemption.specs.CutLaws.{Serves};
ghost use Rattle.demand.specs.Demand.{need_of};
ghost use Rattle.demand.specs.Meeting.{MeetsEnd};
ghost use Rattle.meter.specs.Meters.{meter_at};
ghost use Rattle.solver.specs.Ends.{HasNoEndBefore};

use crate::caps::end_bound;
use crate::ceilings::Ceiled;
use crate::laws::{laws, need_rises};
use crate::pace::Pace;
use meter::Meter;
use policy::Policy;
use preemption::Preemption;
use task_sheet::Sheet;

/// The least end up to the limit that meets `K7` for task `i` at offset `a`, where none before
/// `begin` does. The meter stands at the offset and `begin`, and moves on to the end.
pub fn next_end<P: Policy, M: Preemption, S: Ceiled>(
    sheet: &Sheet,
    supply: &S,
    i: u32,
    a: u64,
    begin: u64,
    limit: u64,
    meter: &mut Meter<'_, P, M>,
) -> Option<u64>
    requires task { i < length sheet.now.tasks }
    requires offset { a < greatest_number }
    requires limit { limit ≤ greatest_number }
    requires served { Serves M.cuts sheet.now }
    requires at { meter.old ≡ meter_at sheet.now i a begin }
    requires before { HasNoEndBefore P.meaning M.cuts (S.sbf supply.now) sheet.now i a begin }
    ensures least { IsLeastTo (MeetsEnd P.meaning M.cuts (S.sbf supply.now) sheet.now i a) limit
        result }
    ensures at { IfSome result (λ x. meter.new ≡ meter_at sheet.now i a x) }
{
    laws::<P, M, S>(sheet, supply);
    let mut end = begin;
    let mut pace = Pace::new();
    while end <= limit {
        let wanted = meter.need();
        let Some(next) = supply.least(wanted, limit) else {
            return None;
        };
        if next <= end {
            return Some(end);
        }
        let load = end_bound::<P, M, S>(sheet, supply, i, a, end, wanted, limit, next, &mut pace);
        end = next.max(load);
        if end > limit {
            return None;
        }
        meter.move_to(a, end);
    }
    None
}

/// Moves the meter to a later offset of task `i`, and gives the end at which the search for the
/// least one begins there: at that of the offset before, where as much blocks, since demand has
/// not fallen then; else at 0.
pub fn next_offset<P: Policy, M: Preemption>(
    sheet: &Sheet,
    i: u32,
    a: u64,
    x: u64,
    next: u64,
    meter: &mut Meter<'_, P, M>,
) -> u64
    requires task { i < length sheet.now.tasks }
    requires later { a ≤ next }
    requires offset { next < greatest_number }
    requires end { x ≤ greatest_number }
    requires at { meter.old ≡ meter_at sheet.now i a x }
    ensures at { meter.new ≡ meter_at sheet.now i next result }
    ensures within { result ≤ x }
    ensures kept { (k : ℕ) → k < result →
        need_of P.meaning M.cuts sheet.now i a k ≤ need_of P.meaning M.cuts sheet.now i next k }
{
    need_rises::<P, M>();
    let _tasks = sheet.len();
    let blocking = meter.blocking();
    meter.move_to(next, x);
    if meter.blocking() == blocking {
        return x;
    }
    meter.move_to(next, 0);
    0
}
