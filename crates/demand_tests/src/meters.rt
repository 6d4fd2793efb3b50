//! Worked needs and points of a meter that is moved to and fro.
ghost use Rattle.std.specs.Prelude.{◌≡◌, ◌≤◌, ◌<◌};
ghost use Rattle.meter.specs.Meters.{meter_at};

use crate::assert_same;
use meter::Meter;
use policy::{Edf, Fp, Policy};
use preemption::{PerTask, Preemption};
use small_sheets::{TWO_DEADLINES, sheet_of};
use std::test::Fail;

/// The shorter task waits for one tick of the longer one, which is never preempted.
const NEVER_PREEMPTED: &str = "
policy = 'fp'
task = [
    { name = 'a', cost = 1, deadline = 4, priority = 2, period = 4 },
    { name = 'b', cost = 2, deadline = 6, priority = 1, period = 6, preemption = 'never' },
]";

/// A task that is never preempted blocks while its deadline is the later one.
const BLOCKED_EARLY: &str = "
policy = 'edf'
task = [
    { name = 'a', cost = 2, deadline = 4, period = 4 },
    { name = 'b', cost = 2, deadline = 6, period = 6, preemption = 'never' },
]";

/// Moves the meter there, and gives the need.
fn moved<P: Policy, M: Preemption>(meter: &mut Meter<'_, P, M>, a: u64, x: u64) -> u128
    requires order { meter.old.offset ≤ a }
    requires offset { a < 1000000000 }
    requires end { x ≤ 1000000000 }
    ensures { meter.new ≡ meter_at meter.old.sheet meter.old.task a x }
{
    meter.move_to(a, x);
    meter.need()
}

/// The first needs of `a`. From offset 2 on a job of `b` counts, from end 1 on.
fn early_needs(meter: &mut Meter<'_, Edf, PerTask>) -> [u128; 5]
    requires { meter.old.offset ≡ 0 }
    ensures { meter.new ≡ meter_at meter.old.sheet meter.old.task 2 1 }
{
    [
        meter.need(),
        moved(meter, 0, 2),
        moved(meter, 2, 4),
        moved(meter, 2, 0),
        moved(meter, 2, 1),
    ]
}

/// The later needs of `a`.
fn late_needs(meter: &mut Meter<'_, Edf, PerTask>) -> [u128; 3]
    requires { meter.old.offset ≤ 8 }
    ensures { meter.new ≡ meter_at meter.old.sheet meter.old.task 8 7 }
{
    [moved(meter, 8, 20), moved(meter, 8, 5), moved(meter, 8, 7)]
}

/// The needs of `b`.
fn other_needs(meter: &mut Meter<'_, Edf, PerTask>) -> [u128; 4]
    requires { meter.old.offset ≡ 0 }
{
    [
        meter.need(),
        moved(meter, 0, 4),
        moved(meter, 2, 4),
        moved(meter, 2, 5),
    ]
}

#[test]
fn two_deadlines(rt: HostRuntime) -> Result<(), Fail> {
    let sheet = sheet_of(rt.alloc(), TWO_DEADLINES)?;
    assert_eq!(rt; sheet.len(), 2);
    let mut meter = Meter::<Edf, PerTask>::new(rt.alloc(), &sheet)?;
    let first = meter.next_point(4);
    let needs = (early_needs(&mut meter), late_needs(&mut meter));
    let last = [meter.next_point(100), meter.next_point(12)];
    assert_same(&rt, &first, &Some(2));
    assert_same(&rt, &needs, &([2, 2, 4, 2, 4], [10, 8, 10]));
    assert_same(&rt, &last, &[Some(12), None]);

    meter.open(1);
    let found = (meter.next_point(4), other_needs(&mut meter));
    assert_same(&rt, &found, &(Some(2), [2, 4, 4, 6]));
    Ok(())
}

/// The needs of the task that is never preempted. Its own segments do not block it, and its last tick is
/// not demand.
fn blocking_needs(meter: &mut Meter<'_, Fp, PerTask>) -> [u128; 4]
    requires { meter.old.offset ≡ 0 }
{
    [
        meter.need(),
        moved(meter, 0, 2),
        moved(meter, 6, 5),
        moved(meter, 6, 4),
    ]
}

#[test]
fn never_preempted(rt: HostRuntime) -> Result<(), Fail> {
    let sheet = sheet_of(rt.alloc(), NEVER_PREEMPTED)?;
    assert_eq!(rt; sheet.len(), 2);
    let mut meter = Meter::<Fp, PerTask>::new(rt.alloc(), &sheet)?;
    let found = [meter.need(), moved(&mut meter, 4, 1)];
    assert_same(&rt, &found, &[2, 3]);

    meter.open(1);
    let found = (meter.next_point(100), blocking_needs(&mut meter));
    assert_same(&rt, &found, &(Some(6), [1, 2, 5, 4]));
    Ok(())
}

#[test]
fn blocked_early(rt: HostRuntime) -> Result<(), Fail> {
    let sheet = sheet_of(rt.alloc(), BLOCKED_EARLY)?;
    let mut meter = Meter::<Edf, PerTask>::new(rt.alloc(), &sheet)?;
    let found = [
        meter.need(),
        moved(&mut meter, 1, 4),
        moved(&mut meter, 2, 4),
    ];
    assert_same(&rt, &found, &[3, 3, 4]);
    Ok(())
}
