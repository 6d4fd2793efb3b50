//! The conditions of the points of an entry.
ghost use Rattle.std.specs.Prelude.{◌≡◌, ◌≤◌, ◌<◌, ◌-◌, not, None, length, slice_get, IfNone, IfSome, All};
ghost use Rattle.lists.specs.Limits.{greatest_number};
ghost use Rattle.preemption.specs.CutLaws.{Serves};
ghost use Rattle.search_space.specs.Points.{same_at};
ghost use Rattle.certificate.specs.Text.{IsPoint, lines_of};
ghost use Rattle.conditions.specs.Conditions.{gap_failed_of, point_failed_of, points_failed_of};

use crate::failed::{Cond, Failed};
use crate::terms::terms_at;
use certificate::{Point, Terms};
use demand::rest;
use policy::Policy;
use preemption::Preemption;
use search_space::is_same;
use supply::Supply;
use task_sheet::Sheet;

/// Whether an offset of task `i` is missing between the listed offset `p` and `q`, the next one or
/// the window's end, all in ticks: whether `K5` fails.
pub fn gap_failed<P: Policy>(sheet: &Sheet, i: u32, p: u64, q: u64) -> bool
    requires task { i < length sheet.now.tasks }
    requires order { p < q }
    requires end { q ≤ greatest_number }
    ensures { result ≡ not (same_at P.meaning sheet.now i p (q - 1)) }
{
    !is_same::<P>(sheet, i, p, q - 1)
}

/// The first of `K4` to `K8` and `K10` that fails of task `i` at the point with this offset and end,
/// which follows the offset `before`. Window, bound, offsets and end are in ticks. `K10` is judged
/// where the point's terms are told.
#[tactic(auto, using(task_sheet::specs::Limits::jitter_high))]
pub fn point_failed<P: Policy, M: Preemption, S: Supply>(
    sheet: &Sheet,
    supply: &S,
    i: u32,
    window: u64,
    bound: u64,
    before: Option<u64>,
    offset: u64,
    end: u64,
    told: Option<Terms>,
) -> Option<Failed>
    requires task { i < length sheet.now.tasks }
    requires window { window ≤ greatest_number }
    requires bound { bound ≤ greatest_number }
    requires offset { offset ≤ greatest_number }
    requires end { end ≤ greatest_number }
    requires served { Serves M.cuts sheet.now }
    ensures first { result ≡ point_failed_of P.meaning M.cuts (S.sbf supply.now) sheet.now i window
        bound before offset end told }
    ensures below { IfNone result (offset < window) }
{
    let is_next = match before {
        None => offset == 0,
        Some(p) => p < offset,
    };
    if !is_next || offset >= window {
        return Some(Failed::of_point(i, offset, Cond::K4));
    }
    if let Some(p) = before
        && gap_failed::<P>(sheet, i, p, offset)
    {
        return Some(Failed::of_point(i, p, Cond::K5));
    }
    let jitter = sheet.task(i).jitter;
    if end + jitter > offset + bound {
        return Some(Failed::of_point(i, offset, Cond::K6));
    }
    let terms = terms_at::<P, M>(sheet, i, offset, end);
    if (supply.sbf(end) as u128) < terms.need {
        return Some(Failed::of_point(i, offset, Cond::K7));
    }
    if (supply.sbf(offset + bound - jitter) as u128) < terms.need + rest::<M>(sheet, i) as u128 {
        return Some(Failed::of_point(i, offset, Cond::K8));
    }
    if let Some(told) = told
        && told != terms
    {
        return Some(Failed::of_point(i, offset, Cond::K10));
    }
    None
}

/// The terms at this place, where there are so many.
fn told_at(terms: &[Terms], at: usize) -> Option<Terms>
    ensures { result ≡ slice_get terms.now at }
{
    terms.get(at).copied()
}

/// Whether `K5` fails from the last offset up to the window's end.
fn last_gap_failed<P: Policy>(
    sheet: &Sheet,
    i: u32,
    last: Option<u64>,
    window: u64,
) -> Option<Failed>
    requires task { i < length sheet.now.tasks }
    requires window { window ≤ greatest_number }
    requires below { IfSome last (λ p. p < window) }
    ensures { result ≡ gap_failed_of P.meaning sheet.now i last window }
{
    if let Some(p) = last
        && gap_failed::<P>(sheet, i, p, window)
    {
        return Some(Failed::of_point(i, p, Cond::K5));
    }
    None
}

/// The first of `K4` to `K8` and `K10` that fails at the points of task `i`, or up to its window's
/// end. The first of `terms` are those of the first point, and so on.
pub fn points_failed<P: Policy, M: Preemption, S: Supply>(
    sheet: &Sheet,
    supply: &S,
    i: u32,
    window: u64,
    bound: u64,
    points: &[Point],
    terms: &[Terms],
) -> Option<Failed>
    requires task { i < length sheet.now.tasks }
    requires window { window ≤ greatest_number }
    requires bound { bound ≤ greatest_number }
    requires points { All IsPoint points.now }
    requires served { Serves M.cuts sheet.now }
    ensures { result ≡ points_failed_of P.meaning M.cuts (S.sbf supply.now) sheet.now i window bound
        None (lines_of points.now terms.now) }
{
    let mut before = None;
    for (at, point) in points.iter().enumerate() {
        if let Some(failed) = point_failed::<P, M, S>(
            sheet,
            supply,
            i,
            window,
            bound,
            before,
            point.offset,
            point.end,
            told_at(terms, at),
        ) {
            return Some(failed);
        }
        before = Some(point.offset);
    }
    last_gap_failed::<P>(sheet, i, before, window)
}
