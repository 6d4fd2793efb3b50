//! Numbers that tell offsets apart, and the offsets at which one of them changes.
ghost use Rattle.std.specs.Prelude.{◌≡◌, ◌≤◌, ◌<◌, ◌-◌, length};
ghost use Rattle.lists.specs.Limits.{greatest_number};
ghost use Rattle.lists.specs.Searches.{IsFirstBelow};
ghost use Rattle.policy.specs.Offsets.{cap_count, compared_of};
ghost use Rattle.search_space.specs.Points.{same_at, is_point as is_point_of, IsAround, IsPointAfter};

use crate::laws::across_gap;
use curve::Prefix;
use policy::{Cap, Policy};
use task_sheet::Sheet;

/// How many jobs a cap admits at all, where it is a number; else 0.
fn admitted(curve: &Prefix, cap: Cap) -> u128
    ensures { result ≡ cap_count curve.now cap }
{
    match cap {
        Cap::At(c) => curve.at(if c <= 0 { 0 } else { c as u64 }),
        Cap::Nothing | Cap::All => 0,
    }
}

/// The number of task `o` that tells the offsets of task `i` apart, at offset `a` in ticks: how
/// many jobs of `i` itself can be released up to then, and of another task how many its cap admits.
#[tactic(auto, using(task_sheet::specs::Limits::jitter_high))]
pub fn compared<P: Policy>(sheet: &Sheet, i: u32, a: u64, o: u32) -> u128
    requires i { i < length sheet.now.tasks }
    requires o { o < length sheet.now.tasks }
    requires offset { a ≤ greatest_number }
    ensures { result ≡ compared_of P.meaning sheet.now i a o }
{
    let task = sheet.task(o);
    if o == i {
        task.curve.at(a + 1 + task.jitter)
    } else {
        admitted(&task.curve, P::cap(sheet, i, o, a))
    }
}

/// Whether no task's number tells the offsets `a` and `b` apart.
pub fn is_same<P: Policy>(sheet: &Sheet, i: u32, a: u64, b: u64) -> bool
    requires task { i < length sheet.now.tasks }
    requires a { a ≤ greatest_number }
    requires b { b ≤ greatest_number }
    ensures { result ≡ same_at P.meaning sheet.now i a b }
{
    for o in 0..sheet.len() {
        if compared::<P>(sheet, i, a, o) != compared::<P>(sheet, i, b, o) {
            return false;
        }
    }
    true
}

/// Whether a bound of task `i` has to be judged at offset `a`: at 0, and where a number differs
/// from the one at the offset before.
#[tactic(auto, unfolding(crate::specs::Points::is_point))]
pub fn is_point<P: Policy>(sheet: &Sheet, i: u32, a: u64) -> bool
    requires task { i < length sheet.now.tasks }
    requires offset { a ≤ greatest_number }
    ensures { result ≡ is_point_of P.meaning sheet.now i a }
{
    a == 0 || !is_same::<P>(sheet, i, a - 1, a)
}

/// Offsets around the first one after `a` that some number tells apart from it, or around the end:
/// the first of the two is the same as `a`. Each jump is twice as long as the one before.
fn gallop<P: Policy>(sheet: &Sheet, i: u32, a: u64, below: u64) -> (u64, u64)
    requires task { i < length sheet.now.tasks }
    requires after { a < below }
    requires below { below ≤ greatest_number }
    ensures { IsAround P.meaning sheet.now i a below result.0 result.1 }
{
    let mut same = a;
    let mut jump = 1;
    loop {
        let next = same + jump;
        if next >= below {
            return (same, below);
        }
        if !is_same::<P>(sheet, i, a, next) {
            return (same, next);
        }
        same = next;
        jump *= 2;
    }
}

/// The first offset after `a` that some number tells apart from it, or the end, where it lies after
/// one of these offsets and at the other at the latest.
fn bisect<P: Policy>(sheet: &Sheet, i: u32, a: u64, below: u64, around: (u64, u64)) -> u64
    requires task { i < length sheet.now.tasks }
    requires below { below ≤ greatest_number }
    requires around { IsAround P.meaning sheet.now i a below around.0 around.1 }
    ensures { IsAround P.meaning sheet.now i a below (result - 1) result }
{
    let (mut same, mut other) = around;
    while other - same > 1 {
        let middle = same + (other - same) / 2;
        if is_same::<P>(sheet, i, a, middle) {
            same = middle;
        } else {
            other = middle;
        }
    }
    other
}

/// The least point of task `i` that is greater than `a` and smaller than `below`.
pub fn next_point<P: Policy>(sheet: &Sheet, i: u32, a: u64, below: u64) -> Option<u64>
    requires task { i < length sheet.now.tasks }
    requires after { a ≤ greatest_number }
    requires below { below ≤ greatest_number }
    ensures { IsFirstBelow (IsPointAfter P.meaning sheet.now i a) below result }
{
    if below <= a {
        return None;
    }
    // The numbers never fall, so those that are the same at two offsets are so between them.
    across_gap::<P>();
    // for the proof: the sheet is valid
    let _valid = sheet.len();
    let around = gallop::<P>(sheet, i, a, below);
    let next = bisect::<P>(sheet, i, a, below, around);
    if next < below { Some(next) } else { None }
}
