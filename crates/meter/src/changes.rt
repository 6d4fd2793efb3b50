//! When the numbers that tell offsets apart change.
ghost use Rattle.std.specs.Prelude.{◌≡◌, ◌≢◌, ◌≤◌, ◌<◌, length};
ghost use Rattle.lists.specs.Limits.{greatest_number};
ghost use Rattle.lists.specs.Searches.{IsLeast, IsLeastTo};
ghost use Rattle.meter.specs.CapNumbers.{reach_of, reach_at};
ghost use Rattle.meter.specs.Changes.{IsCounted};

use crate::soonest::NEVER;
use lists::limits::GREATEST_NUMBER;
use policy::{Cap, Policy};
use task_sheet::Sheet;

/// The last offset that is looked at, in ticks.
const LAST: u64 = GREATEST_NUMBER;

/// The number of a task at an offset, and since when it is another.
#[derive(Clone, Copy, Debug, PartialEq, Eq)]
pub struct Counted {
    /// The number of jobs that tells offsets apart.
    pub count: u128,
    /// The least later offset with another, in ticks; past 10^9 where there is none.
    pub change: u64,
}

/// The number of a cap that is positive, else 0.
fn reach(cap: Cap) -> u64
    ensures { result ≡ reach_of cap }
{
    match cap {
        Cap::At(c) => { if c <= 0 { 0 } else { c as u64 } }
        Cap::Nothing | Cap::All => 0,
    }
}

/// The cap's number of task `o` at offset `a` of task `i`.
fn cap_reach<P: Policy>(sheet: &Sheet, i: u32, o: u32, a: u64) -> u64
    requires i { i < length sheet.now.tasks }
    requires o { o < length sheet.now.tasks }
    requires other { i ≢ o }
    requires offset { a ≤ greatest_number }
    ensures { result ≡ reach_at P.meaning sheet.now i o a }
{
    reach(P::cap(sheet, i, o, a))
}

/// The least offset at which the cap's number is `e` or more, between one at which it is less and
/// one at which it is not.
fn least_between<P: Policy>(sheet: &Sheet, i: u32, o: u32, e: u64, from: u64, to: u64) -> u64
    requires i { i < length sheet.now.tasks }
    requires o { o < length sheet.now.tasks }
    requires other { i ≢ o }
    requires from { from ≤ greatest_number }
    requires to { to ≤ greatest_number }
    requires less { reach_at P.meaning sheet.now i o from < e }
    requires more { e ≤ reach_at P.meaning sheet.now i o to }
    ensures least { IsLeast (λ b. e ≤ reach_at P.meaning sheet.now i o b) result }
    ensures within { result ≤ to }
{
    // for the proof: the sheet is valid
    let _valid = sheet.len();
    let mut low = from;
    let mut high = to;
    while low + 1 < high {
        let middle = low + (high - low) / 2;
        if cap_reach::<P>(sheet, i, o, middle) < e {
            low = middle;
        } else {
            high = middle;
        }
    }
    high
}

/// The least offset at which the cap's number is `e` or more, where it is `reach` at `a`.
fn least_reach<P: Policy>(sheet: &Sheet, i: u32, o: u32, e: u64, a: u64, reach: u64) -> Option<u64>
    requires i { i < length sheet.now.tasks }
    requires o { o < length sheet.now.tasks }
    requires other { i ≢ o }
    requires offset { a ≤ greatest_number }
    requires reach { reach ≡ reach_at P.meaning sheet.now i o a }
    requires less { reach < e }
    ensures { IsLeastTo (λ b. e ≤ reach_at P.meaning sheet.now i o b) greatest_number result }
{
    // for the proof: the sheet is valid
    let _valid = sheet.len();
    // Caps that grow with the offset reach it here.
    let guess = a.saturating_add(e - reach);
    if guess <= LAST
        && cap_reach::<P>(sheet, i, o, guess) >= e
        && cap_reach::<P>(sheet, i, o, guess - 1) < e
    {
        return Some(guess);
    }
    if cap_reach::<P>(sheet, i, o, LAST) < e {
        return None;
    }
    Some(least_between::<P>(sheet, i, o, e, a, LAST))
}

/// The number of task `i` itself at an offset, and the next offset with another.
fn own_counting<P: Policy>(sheet: &Sheet, i: u32, a: u64) -> Counted
    requires i { i < length sheet.now.tasks }
    requires offset { a < greatest_number }
    ensures counted { IsCounted P.meaning sheet.now i a i result.count result.change }
    ensures high { result.change ≤ 2000000000 }
{
    let task = sheet.task(i);
    let stair = task.curve.stair(a + 1 + task.jitter);
    Counted {
        count: stair.value,
        change: (stair.until - 1 - task.jitter).min(NEVER),
    }
}

/// The same of another task.
fn other_counting<P: Policy>(sheet: &Sheet, i: u32, o: u32, a: u64) -> Counted
    requires i { i < length sheet.now.tasks }
    requires o { o < length sheet.now.tasks }
    requires other { i ≢ o }
    requires offset { a < greatest_number }
    ensures counted { IsCounted P.meaning sheet.now i a o result.count result.change }
    ensures high { result.change ≤ 2000000000 }
{
    let reach = cap_reach::<P>(sheet, i, o, a);
    let stair = sheet.task(o).curve.stair(reach);
    Counted {
        count: stair.value,
        change: least_reach::<P>(sheet, i, o, stair.until, a, reach).unwrap_or(NEVER),
    }
}

/// The number of task `o` that tells the offsets of task `i` apart, at offset `a` in ticks, and
/// the next offset with another.
pub fn counting<P: Policy>(sheet: &Sheet, i: u32, o: u32, a: u64) -> Counted
    requires i { i < length sheet.now.tasks }
    requires o { o < length sheet.now.tasks }
    requires offset { a < greatest_number }
    ensures counted { IsCounted P.meaning sheet.now i a o result.count result.change }
    ensures bound { result.count ≤ 5000000000000000 }
    ensures high { result.change ≤ 2000000000 }
{
    // for the proof: the sheet is valid
    let _valid = sheet.len();
    if o == i {
        own_counting::<P>(sheet, i, a)
    } else {
        other_counting::<P>(sheet, i, o, a)
    }
}
