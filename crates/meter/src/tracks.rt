//! What each task asks for, and what all ask for together.
ghost use Rattle.std.specs.Prelude.{◌≡◌, ◌≤◌, ◌<◌, ◌^◌, cond, length, set};
ghost use Rattle.lists.specs.Sums.{sum_below};
ghost use Rattle.meter.specs.Places.{kind_of, counted_of, stays_by, until_by, part_of, asked_of, IsSmall, AreNear};

use crate::soonest::{NEVER, Soonest};
use curve::Stair;
use policy::{Cap, Policy};
use task_sheet::Sheet;

/// Where one task stands.
#[derive(Clone, Copy, Debug, PartialEq, Eq)]
pub struct Place {
    /// The stair of its curve at the end, its jitter added; at an earlier one where what counts stays.
    pub end: Stair,
    /// Its number of jobs at the offset, which tells offsets apart.
    pub count: u128,
}

/// Where all tasks of a sheet stand, and which of them leaves its place first.
#[derive(Drop)]
pub struct Tracks {
    pub places: Vec<Place>,
    /// At which end each task leaves its place, in ticks.
    pub untils: Soonest,
    /// At which offset each task's number is another, in ticks.
    pub changes: Soonest,
    /// What all tasks ask for together, in ticks.
    pub sum: u128,
}

/// The kind of the cap of task `o` for task `i`, which is the same at every offset; `Nothing` for
/// task `i` itself, all of whose jobs count.
pub fn kind<P: Policy>(sheet: &Sheet, i: u32, o: u32) -> Cap
    requires i { i < length sheet.now.tasks }
    requires o { o < length sheet.now.tasks }
    ensures { result ≡ kind_of P.meaning sheet.now i o }
{
    if o == i {
        return Cap::Nothing;
    }
    P::cap(sheet, i, o, 0)
}

/// How many jobs of a task count at this place: of the task itself those at the offset, of another
/// those that the end and the cap admit.
fn counted(own: bool, kind: Cap, place: &Place) -> u128
    requires small { IsSmall place.now }
    ensures counted { result ≡ cond own place.now.count (counted_of kind place.now) }
    ensures bound { result ≤ 5000000000000000 }
{
    if own {
        return place.count;
    }
    match kind {
        Cap::Nothing => 0,
        Cap::At(_) => place.end.value.min(place.count),
        Cap::All => place.end.value,
    }
}

/// Whether no later end changes what counts at this place.
pub fn stays(kind: Cap, place: &Place) -> bool
    ensures { result ≡ stays_by kind place.now }
{
    match kind {
        Cap::Nothing => true,
        Cap::At(_) => place.count <= place.end.value,
        Cap::All => false,
    }
}

/// At which end a task with this jitter leaves its place, in ticks.
pub fn until(kind: Cap, place: &Place, jitter: u64) -> u64
    ensures exact { result ≡ until_by kind place.now jitter }
    ensures high { result ≤ 2000000000 }
{
    if stays(kind, place) {
        NEVER
    } else {
        place.end.until.saturating_sub(jitter).min(NEVER)
    }
}

/// What task `o` asks for at this place, in ticks, of what a job of task `i` waits for.
pub fn part<P: Policy>(sheet: &Sheet, i: u32, o: u32, kind: Cap, place: &Place) -> u128
    requires o { o < length sheet.now.tasks }
    requires kind { kind ≡ kind_of P.meaning sheet.now i o }
    requires small { IsSmall place.now }
    ensures exact { result ≡ part_of P.meaning sheet.now i o place.now }
    ensures bound { result ≤ 2 ^ 83 }
{
    sheet.task(o).cost as u128 * counted(o == i, kind, place)
}

/// Puts task `o` at another place, and gives what all ask for together, which was `sum` before.
pub fn put<P: Policy>(
    sheet: &Sheet,
    i: u32,
    o: u32,
    kind: Cap,
    place: Place,
    places: &mut [Place],
    sum: u128,
) -> u128
    requires o { o < length sheet.now.tasks }
    requires kind { kind ≡ kind_of P.meaning sheet.now i o }
    requires small { IsSmall place }
    requires near { AreNear sheet.now places.old }
    requires sum { sum ≡ sum_below (asked_of P.meaning sheet.now i places.old)
        (length sheet.now.tasks) }
    ensures places { places.new ≡ set places.old o place }
    ensures sum { result ≡ sum_below (asked_of P.meaning sheet.now i places.new)
        (length sheet.now.tasks) }
{
    // for the proof: the sheet is valid
    let _valid = sheet.len();
    let before = places[o as usize];
    let from = part::<P>(sheet, i, o, kind, &before);
    let to = part::<P>(sheet, i, o, kind, &place);
    let whole = sum + to - from;
    places[o as usize] = place;
    whole
}
