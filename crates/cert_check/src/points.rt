//! The conditions of points, on a meter.
ghost use Rattle.std.specs.Prelude.{◌≡◌, ◌≤◌, ◌<◌, ◌+◌, ◌-◌, not, true, None, length, IfNone, IfSome};
ghost use Rattle.lists.specs.Limits.{greatest_number};
ghost use Rattle.preemption.specs.CutLaws.{Serves};
ghost use Rattle.search_space.specs.Points.{same_at};
ghost use Rattle.task_sheet.specs.Sheets.{task_at};
ghost use Rattle.meter.specs.Meters.{meter_at};
ghost use Rattle.conditions.specs.Conditions.{comes_next, gap_failed_of, point_failed_of};
ghost use Rattle.conditions.specs.PointTerms.{terms_of};
ghost use Rattle.cert_check.specs.JudgedLines.{closed, demand_failed_of};
ghost use Rattle.cert_check.specs.Standing.{IsReady, IsSeated};

use crate::judged::Judged;
use certificate::Terms;
use conditions::{Cond, Failed};
use demand::own;
use meter::Meter;
use policy::Policy;
use preemption::Preemption;
use search_space::across_gap;
use supply::Supply;
use task_sheet::Sheet;

/// Whether an offset is missing between the one of the meter and `q`, the next one or the window's
/// end in ticks: whether `K5` fails.
#[inline]
#[tactic(auto, using(crate::proofs::GapFacts::gap_none, crate::proofs::GapFacts::gap_some))]
fn gap_failed<P: Policy, M: Preemption>(sheet: &Sheet, meter: &Meter<'_, P, M>, q: u64) -> bool
    requires sheet { meter.now.sheet ≡ sheet.now }
    requires task { meter.now.task < length sheet.now.tasks }
    requires order { meter.now.offset < q }
    requires end { q ≤ greatest_number }
    ensures { result ≡
        not (same_at P.meaning sheet.now meter.now.task meter.now.offset (q - 1)) }
{
    across_gap::<P>();
    // for the proof: the sheet is valid
    let _valid = sheet.len();
    match meter.next_point(q) {
        Some(_) => true,
        None => false,
    }
}

/// `K5` for the gap from the last point of the last entry up to `q`, the next offset or the window's
/// end in ticks.
#[inline]
fn gap_before_failed<P: Policy, M: Preemption>(
    sheet: &Sheet,
    meter: &Meter<'_, P, M>,
    judged: &Judged,
    q: u64,
) -> Option<Failed>
    requires sheet { meter.now.sheet ≡ sheet.now }
    requires seated { IsSeated sheet.now meter.now judged.now }
    requires order { IfSome judged.now.before (λ b. b < q) }
    requires end { q ≤ greatest_number }
    ensures { result ≡ gap_failed_of P.meaning sheet.now judged.now.task judged.now.before q }
{
    if let Some(before) = judged.before
        && gap_failed::<P, M>(sheet, meter, q)
    {
        return Some(Failed::of_point(judged.task, before, Cond::K5));
    }
    None
}

/// The first condition that fails, with the gap from the last point to its window's end.
pub(crate) fn closed_failed<P: Policy, M: Preemption>(
    sheet: &Sheet,
    meter: &Meter<'_, P, M>,
    judged: &Judged,
) -> Option<Failed>
    requires { IsReady sheet.now meter.now judged.now }
    ensures { result ≡ closed P.meaning sheet.now judged.now }
{
    if judged.failed.is_some() {
        return judged.failed;
    }
    gap_before_failed::<P, M>(sheet, meter, judged, judged.window)
}

/// Whether an offset may follow the one before, or be the first.
#[inline]
fn is_next(before: Option<u64>, offset: u64) -> bool
    ensures test { result ≡ comes_next before offset }
    ensures later { result ≡ true → IfSome before (λ b. b < offset) }
{
    match before {
        None => offset == 0,
        Some(before) => before < offset,
    }
}

/// The terms of the meter's point, which is of this task and at this offset, in ticks.
#[inline(never)]
#[tactic(auto, unfolding(demand::specs::Demand::need_of))]
fn terms_there<P: Policy, M: Preemption>(
    sheet: &Sheet,
    meter: &Meter<'_, P, M>,
    task: u32,
    offset: u64,
) -> Terms
    requires task { task < length sheet.now.tasks }
    requires offset { offset ≤ greatest_number }
    requires served { Serves M.cuts sheet.now }
    requires at { meter.now ≡ meter_at sheet.now task offset meter.now.end }
    ensures { result ≡ terms_of P.meaning M.cuts sheet.now task offset meter.now.end }
{
    let blocking = meter.blocking() as u128;
    let own = own::<M>(sheet, task, offset);
    let need = meter.need();
    Terms {
        blocking,
        own,
        others: need - blocking - own,
        need,
    }
}

/// The first of `K7`, `K8` and `K10` that fails at the meter's point. The bound, the offset and the
/// end are in ticks.
#[inline]
#[tactic(auto, using(task_sheet::specs::Limits::jitter_high))]
fn demand_failed<P: Policy, M: Preemption, S: Supply>(
    sheet: &Sheet,
    supply: &S,
    meter: &Meter<'_, P, M>,
    task: u32,
    bound: u64,
    offset: u64,
    end: u64,
    told: &Option<Terms>,
) -> Option<Failed>
    requires task { task < length sheet.now.tasks }
    requires bound { bound ≤ greatest_number }
    requires offset { offset ≤ greatest_number }
    requires end { end ≤ greatest_number }
    requires served { Serves M.cuts sheet.now }
    requires at { meter.now ≡ meter_at sheet.now task offset end }
    requires within { end + (task_at sheet.now task).jitter ≤ offset + bound }
    ensures { result ≡ demand_failed_of P.meaning M.cuts (S.sbf supply.now) sheet.now task bound
        offset end told.now }
{
    let jitter = sheet.task(task).jitter;
    let need = meter.need();
    if (supply.sbf(end) as u128) < need {
        return Some(Failed::of_point(task, offset, Cond::K7));
    }
    if (supply.sbf(offset + bound - jitter) as u128) < need + meter.rest() as u128 {
        return Some(Failed::of_point(task, offset, Cond::K8));
    }
    if let Some(told) = told
        && *told != terms_there::<P, M>(sheet, meter, task, offset)
    {
        return Some(Failed::of_point(task, offset, Cond::K10));
    }
    None
}

/// The first of `K4` to `K8` and `K10` that fails at a point of the last entry, where nothing failed
/// before. Offset and end are in ticks. Where none fails the meter stands at the point then.
#[inline]
#[tactic(auto, using(task_sheet::specs::Limits::jitter_high))]
pub(crate) fn point_failed<P: Policy, M: Preemption, S: Supply>(
    sheet: &Sheet,
    supply: &S,
    meter: &mut Meter<'_, P, M>,
    judged: &Judged,
    offset: u64,
    end: u64,
    told: &Option<Terms>,
) -> Option<Failed>
    requires window { judged.now.window ≤ greatest_number }
    requires bound { judged.now.bound ≤ greatest_number }
    requires offset { offset ≤ greatest_number }
    requires end { end ≤ greatest_number }
    requires served { Serves M.cuts sheet.now }
    requires sheet { meter.old.sheet ≡ sheet.now }
    requires seated { IsSeated sheet.now meter.old judged.now }
    ensures first { result ≡ point_failed_of P.meaning M.cuts (S.sbf supply.now) sheet.now
        judged.now.task judged.now.window judged.now.bound judged.now.before offset end told.now }
    ensures sheet { meter.new.sheet ≡ sheet.now }
    ensures at { IfNone result (meter.new ≡ meter_at sheet.now judged.now.task offset end) }
    ensures below { IfNone result (offset < judged.now.window) }
{
    let task = judged.task;
    if !is_next(judged.before, offset) || offset >= judged.window {
        return Some(Failed::of_point(task, offset, Cond::K4));
    }
    if let Some(failed) = gap_before_failed::<P, M>(sheet, meter, judged, offset) {
        return Some(failed);
    }
    if end + sheet.task(task).jitter > offset + judged.bound {
        return Some(Failed::of_point(task, offset, Cond::K6));
    }
    meter.move_to(offset, end);
    demand_failed::<P, M, S>(sheet, supply, meter, task, judged.bound, offset, end, told)
}
