//! How places move with the offset and the end.
ghost use Rattle.std.specs.Prelude.{◌≡◌, ◌≤◌, ◌<◌, ◌+◌, ◌*◌, ◌^◌, ℕ, length};
ghost use Rattle.lists.specs.Limits.{greatest_number};
ghost use Rattle.task_sheet.specs.Sheets.{task_at};
ghost use Rattle.meter.specs.Soonests.{number_of};
ghost use Rattle.meter.specs.Places.{place_of, until_by, IsNear};
ghost use Rattle.meter.specs.Tracking.{IsTrackingAt, HasBegun, IsEnded, AreEnded, IsStood, IsEndMoved, IsRecounted, AreMoved, IsReady, IsSettled, AreSeated};

use crate::changes::counting;
use crate::tracks::{Place, Tracks, kind, part, put, stays, until};
use policy::{Cap, Policy};
use task_sheet::{Sheet, Task};

/// The place moved to the end `x`, but where what counts there stays up to this end.
fn ended(task: &Task, kind: Cap, place: Place, x: u64) -> Place
    requires end { x ≤ greatest_number }
    requires jitter { task.now.jitter ≤ greatest_number }
    requires near { IsNear task.now place }
    ensures near { IsNear task.now result }
    ensures count { result.count ≡ place.count }
    ensures ended { IsEnded task.now x result (until_by kind result task.now.jitter) }
{
    let length = x + task.jitter;
    if place.end.from <= length && stays(kind, &place) {
        return place;
    }
    Place {
        end: task.curve.stair_to(place.end, length),
        count: place.count,
    }
}

/// Puts task `o` where it stands at the end `x`, with another number.
fn stand<P: Policy>(sheet: &Sheet, i: u32, o: u32, x: u64, count: u128, tracks: &mut Tracks)
    requires i { i < length sheet.now.tasks }
    requires o { o < length sheet.now.tasks }
    requires end { x ≤ greatest_number }
    requires count { count ≤ 5000000000000000 }
    requires tracking { IsTrackingAt P.meaning sheet.now i tracks.old }
    ensures { IsStood P.meaning sheet.now i x o count tracks.old tracks.new }
{
    let task = sheet.task(o);
    let kind = kind::<P>(sheet, i, o);
    let before = tracks.places[o as usize];
    let place = ended(
        task,
        kind,
        Place {
            end: before.end,
            count,
        },
        x,
    );
    tracks.sum = put::<P>(sheet, i, o, kind, place, &mut tracks.places, tracks.sum);
    tracks
        .untils
        .set(o as usize, until(kind, &place, task.jitter));
}

/// Moves task `o` to the end `x`.
fn move_end<P: Policy>(sheet: &Sheet, i: u32, o: u32, x: u64, tracks: &mut Tracks)
    requires i { i < length sheet.now.tasks }
    requires o { o < length sheet.now.tasks }
    requires end { x ≤ greatest_number }
    requires tracking { IsTrackingAt P.meaning sheet.now i tracks.old }
    ensures { IsEndMoved P.meaning sheet.now i x o tracks.old tracks.new }
{
    let count = tracks.places[o as usize].count;
    stand::<P>(sheet, i, o, x, count, tracks);
}

/// Moves the tasks that leave their places by `x` to that end, where no stair begins later.
fn rise<P: Policy>(sheet: &Sheet, i: u32, x: u64, tracks: &mut Tracks)
    requires i { i < length sheet.now.tasks }
    requires end { x ≤ greatest_number }
    requires tracking { IsTrackingAt P.meaning sheet.now i tracks.old }
    requires begun { (k : ℕ) → k < length sheet.now.tasks → HasBegun (task_at
        sheet.now k) x (place_of tracks.old.places.items k) }
    ensures { AreMoved P.meaning sheet.now i x tracks.old tracks.new }
{
    while tracks.untils.least() <= x {
        let o = tracks.untils.first();
        move_end::<P>(sheet, i, o, x, tracks);
    }
}

/// Moves task `o` back to the end `x`, by which it does not leave its place.
fn move_back<P: Policy>(sheet: &Sheet, i: u32, o: u32, x: u64, tracks: &mut Tracks)
    requires i { i < length sheet.now.tasks }
    requires o { o < length sheet.now.tasks }
    requires end { x ≤ greatest_number }
    requires tracking { IsTrackingAt P.meaning sheet.now i tracks.old }
    requires still { x < number_of tracks.old.untils o }
    ensures { IsEndMoved P.meaning sheet.now i x o tracks.old tracks.new }
{
    let before = tracks.places[o as usize];
    if before.end.from <= x + sheet.task(o).jitter {
        return;
    }
    move_end::<P>(sheet, i, o, x, tracks);
}

/// Moves the tasks whose stairs begin after `x` back to that end, where none leaves its place by it.
fn fall<P: Policy>(sheet: &Sheet, i: u32, x: u64, tracks: &mut Tracks)
    requires i { i < length sheet.now.tasks }
    requires end { x ≤ greatest_number }
    requires tracking { IsTrackingAt P.meaning sheet.now i tracks.old }
    requires still { (k : ℕ) → k < length sheet.now.tasks → x < number_of tracks.old.untils k }
    ensures { AreMoved P.meaning sheet.now i x tracks.old tracks.new }
{
    for o in 0..sheet.len() {
        move_back::<P>(sheet, i, o, x, tracks);
    }
}

/// Renews the number of task `o` for offset `a`, at the end `x`.
fn recount<P: Policy>(sheet: &Sheet, i: u32, o: u32, a: u64, x: u64, tracks: &mut Tracks)
    requires i { i < length sheet.now.tasks }
    requires o { o < length sheet.now.tasks }
    requires offset { a < greatest_number }
    requires end { x ≤ greatest_number }
    requires changes { length tracks.old.changes ≡ length sheet.now.tasks }
    requires tracking { IsTrackingAt P.meaning sheet.now i tracks.old }
    ensures { IsRecounted P.meaning sheet.now i a x o tracks.old tracks.new }
{
    let counted = counting::<P>(sheet, i, o, a);
    stand::<P>(sheet, i, o, x, counted.count, tracks);
    tracks.changes.set(o as usize, counted.change);
}

/// Renews the numbers that change up to offset `b`, from those of an earlier offset `a`, at the
/// end `x`.
fn advance<P: Policy>(sheet: &Sheet, i: u32, a: u64, b: u64, x: u64, tracks: &mut Tracks)
    requires i { i < length sheet.now.tasks }
    requires order { a ≤ b }
    requires offset { b < greatest_number }
    requires end { x ≤ greatest_number }
    requires before { AreSeated P.meaning sheet.now i a x tracks.old }
    ensures { AreSeated P.meaning sheet.now i b x tracks.new }
{
    while tracks.changes.least() <= b {
        let o = tracks.changes.first();
        recount::<P>(sheet, i, o, b, x, tracks);
    }
}

/// Moves all from one end to another.
fn turn<P: Policy>(sheet: &Sheet, i: u32, from: u64, x: u64, tracks: &mut Tracks)
    requires i { i < length sheet.now.tasks }
    requires end { x ≤ greatest_number }
    requires tracking { IsTrackingAt P.meaning sheet.now i tracks.old }
    requires ended { AreEnded sheet.now from tracks.old }
    ensures { AreMoved P.meaning sheet.now i x tracks.old tracks.new }
{
    if x < from {
        fall::<P>(sheet, i, x, tracks);
    } else {
        rise::<P>(sheet, i, x, tracks);
    }
}

/// Moves all from an offset and end to a later offset and any end.
pub fn shift<P: Policy>(
    sheet: &Sheet,
    i: u32,
    from: (u64, u64),
    a: u64,
    x: u64,
    tracks: &mut Tracks,
)
    requires i { i < length sheet.now.tasks }
    requires order { from.0 ≤ a }
    requires offset { a < greatest_number }
    requires end { x ≤ greatest_number }
    requires before { AreSeated P.meaning sheet.now i from.0 from.1 tracks.old }
    ensures { AreSeated P.meaning sheet.now i a x tracks.new }
{
    turn::<P>(sheet, i, from.1, x, tracks);
    advance::<P>(sheet, i, from.0, a, x, tracks);
}

/// Seats task `o` at offset 0 and end 0, and adds what it asks for.
fn settle<P: Policy>(sheet: &Sheet, i: u32, o: u32, tracks: &mut Tracks)
    requires i { i < length sheet.now.tasks }
    requires o { o < length sheet.now.tasks }
    requires ready { IsReady sheet.now tracks.old }
    requires few { tracks.old.sum ≤ o * 2 ^ 83 }
    ensures settled { IsSettled P.meaning sheet.now i o tracks.old tracks.new }
    ensures few { tracks.new.sum ≤ (o + 1) * 2 ^ 83 }
{
    let task = sheet.task(o);
    let kind = kind::<P>(sheet, i, o);
    let before = tracks.places[o as usize];
    let counted = counting::<P>(sheet, i, o, 0);
    let place = ended(
        task,
        kind,
        Place {
            end: before.end,
            count: counted.count,
        },
        0,
    );
    tracks.places[o as usize] = place;
    tracks
        .untils
        .set(o as usize, until(kind, &place, task.jitter));
    tracks.changes.set(o as usize, counted.change);
    tracks.sum += part::<P>(sheet, i, o, kind, &place);
}

/// Seats all tasks for a job of task `i` at offset 0 and end 0.
pub fn seat<P: Policy>(sheet: &Sheet, i: u32, tracks: &mut Tracks)
    requires i { i < length sheet.now.tasks }
    requires ready { IsReady sheet.now tracks.old }
    ensures { AreSeated P.meaning sheet.now i 0 0 tracks.new }
{
    tracks.sum = 0;
    for o in 0..sheet.len() {
        settle::<P>(sheet, i, o, tracks);
    }
}
