//! The least numbers that meet the conditions.
//!
//! Each search jumps: what is asked for within a window is supplied at the soonest within the least
//! window that supplies it, and no window between the two is enough.
ghost use Rattle.std.specs.Prelude.{◌≡◌, ◌≤◌, ◌<◌, ◌+◌, length};
ghost use Rattle.lists.specs.Limits.{greatest_number};
ghost use Rattle.lists.specs.Searches.{IsLeastTo};
ghost use Rattle.preemption.specs.CutLaws.{Serves};
ghost use Rattle.demand.specs.Demand.{need_of, rest_of};
ghost use Rattle.demand.specs.Meeting.{IsWindow, MeetsEnd, BoundMeets};

use crate::caps::{end_bound, window_bound};
use crate::ceilings::Ceiled;
use crate::laws::laws;
use crate::pace::Pace;
use demand::{need, rest, window_need};
use policy::Policy;
use preemption::Preemption;
use supply::Supply;
use task_sheet::Sheet;

/// The least window of task `i` up to the horizon, both in ticks, that meets `K3`.
pub fn least_window<P: Policy, M: Preemption, S: Ceiled>(
    sheet: &Sheet,
    supply: &S,
    i: u32,
    horizon: u64,
) -> Option<u64>
    requires task { i < length sheet.now.tasks }
    requires horizon { horizon ≤ greatest_number }
    requires served { Serves M.cuts sheet.now }
    ensures { IsLeastTo (IsWindow P.meaning M.cuts (S.sbf supply.now) sheet.now i) horizon result }
{
    laws::<P, M, S>(sheet, supply);
    let mut window = 1;
    let mut pace = Pace::new();
    while window <= horizon {
        let wanted = window_need::<P, M>(sheet, i, window);
        let Some(next) = supply.least(wanted, horizon) else {
            return None;
        };
        if next <= window {
            return Some(window);
        }
        let load = window_bound::<P, M, S>(
            sheet, supply, i, window, wanted, horizon, next, &mut pace,
        );
        window = next.max(load);
    }
    None
}

/// The least end up to the limit that meets `K7` for task `i` at offset `a`, all in ticks from the
/// window's begin.
pub fn least_end<P: Policy, M: Preemption, S: Ceiled>(
    sheet: &Sheet,
    supply: &S,
    i: u32,
    a: u64,
    limit: u64,
) -> Option<u64>
    requires task { i < length sheet.now.tasks }
    requires offset { a ≤ greatest_number }
    requires limit { limit ≤ greatest_number }
    requires served { Serves M.cuts sheet.now }
    ensures { IsLeastTo (MeetsEnd P.meaning M.cuts (S.sbf supply.now) sheet.now i a) limit result }
{
    laws::<P, M, S>(sheet, supply);
    let mut end = 0;
    let mut pace = Pace::new();
    while end <= limit {
        let wanted = need::<P, M>(sheet, i, a, end);
        let Some(next) = supply.least(wanted, limit) else {
            return None;
        };
        if next <= end {
            return Some(end);
        }
        let load = end_bound::<P, M, S>(sheet, supply, i, a, end, wanted, limit, next, &mut pace);
        end = next.max(load);
    }
    None
}

/// The least bound in ticks up to the limit that meets `K2`, `K6` and `K8` for task `i` at offset
/// `a`, whose end is `x`, and where a whole job asks for so many ticks.
#[tactic(auto, using(task_sheet::specs::Limits::jitter_high))]
pub fn bound_for<P: Policy, M: Preemption, S: Supply>(
    sheet: &Sheet,
    supply: &S,
    i: u32,
    a: u64,
    x: u64,
    wanted: u128,
    limit: u64,
) -> Option<u64>
    requires task { i < length sheet.now.tasks }
    requires offset { a ≤ greatest_number }
    requires end { x ≤ greatest_number }
    requires wanted { wanted ≡ need_of P.meaning M.cuts sheet.now i a x + rest_of M.cuts sheet.now
        i }
    requires limit { limit ≤ 2000000000 }
    requires served { Serves M.cuts sheet.now }
    ensures { IsLeastTo (BoundMeets P.meaning M.cuts (S.sbf supply.now) sheet.now i a x) limit
        result }
{
    laws::<P, M, S>(sheet, supply);
    let Some(done) = supply.least(wanted, a + limit) else {
        return None;
    };
    let bound = done.max(x).saturating_sub(a) + sheet.task(i).jitter;
    if bound <= limit { Some(bound) } else { None }
}

/// The least bound in ticks up to the limit that meets `K2`, `K6` and `K8` for task `i` at offset
/// `a`, whose end is `x`.
pub fn least_bound<P: Policy, M: Preemption, S: Supply>(
    sheet: &Sheet,
    supply: &S,
    i: u32,
    a: u64,
    x: u64,
    limit: u64,
) -> Option<u64>
    requires task { i < length sheet.now.tasks }
    requires offset { a ≤ greatest_number }
    requires end { x ≤ greatest_number }
    requires limit { limit ≤ 2000000000 }
    requires served { Serves M.cuts sheet.now }
    ensures { IsLeastTo (BoundMeets P.meaning M.cuts (S.sbf supply.now) sheet.now i a x) limit
        result }
{
    let wanted = need::<P, M>(sheet, i, a, x) + rest::<M>(sheet, i) as u128;
    bound_for::<P, M, S>(sheet, supply, i, a, x, wanted, limit)
}
