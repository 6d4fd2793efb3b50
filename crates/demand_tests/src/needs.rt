//! Worked numbers of demand: two of eight tasks, caps below 0, and jitters.
use crate::assert_same;
use demand::{blocking, need, others, own, rest, window_need};
use policy::{Edf, Fifo, Fp};
use preemption::PerTask;
use small_sheets::{EIGHT_TASKS, JITTER, JITTER_BLOCKING, JITTER_POINTS, sheet_of};
use std::test::Fail;

const SHORT_AND_LONG: &str = "
policy = 'edf'
task = [
    { name = 'a', cost = 1, deadline = 10, period = 10 },
    { name = 'b', cost = 3, deadline = 100, period = 100 },
]";

#[test]
fn eight_tasks(rt: HostRuntime) -> Result<(), Fail> {
    let sheet = sheet_of(rt.alloc(), EIGHT_TASKS)?;
    assert_eq!(rt; sheet.len(), 8);
    assert_same(&rt, &rest::<PerTask>(&sheet, 6), &499);
    let display = [
        own::<PerTask>(&sheet, 6, 0),
        others::<Fp>(&sheet, 6, 0, 9941),
        blocking::<Fp, PerTask>(&sheet, 6, 0),
        need::<Fp, PerTask>(&sheet, 6, 0, 9941),
        window_need::<Fp, PerTask>(&sheet, 6, 13140),
    ];
    assert_same(&rt, &display, &[3501, 6440, 0, 9941, 13140]);
    // The longest segment of a lower task, of 500, blocks the first task.
    let motor = [
        blocking::<Fp, PerTask>(&sheet, 0, 0),
        window_need::<Fp, PerTask>(&sheet, 0, 619),
    ];
    assert_same(&rt, &motor, &[499, 619]);
    Ok(())
}

#[test]
fn caps_below_zero(rt: HostRuntime) -> Result<(), Fail> {
    let sheet = sheet_of(rt.alloc(), SHORT_AND_LONG)?;
    assert_eq!(rt; sheet.len(), 2);
    let found = [
        // At offset 89 a job of `b` has to arrive before the window's begin, at 90 with it.
        others::<Edf>(&sheet, 0, 0, 1000),
        others::<Edf>(&sheet, 0, 89, 1000),
        others::<Edf>(&sheet, 0, 90, 1000),
        // At offset 0 of `b`, jobs of `a` count up to tick 90.
        others::<Edf>(&sheet, 1, 0, 1000),
        others::<Edf>(&sheet, 1, 0, 90),
    ];
    assert_same(&rt, &found, &[0, 0, 3, 10, 9]);
    Ok(())
}

#[test]
fn one_task_with_a_jitter(rt: HostRuntime) -> Result<(), Fail> {
    for (text, wanted) in [
        // Within 2 ticks one job can be released, within 3, so up to offset 2, it is two jobs.
        (JITTER, [2, 2, 2, 2, 4]),
        // Within 2 ticks, so up to offset 1, two jobs can be released.
        (JITTER_POINTS, [2, 4, 2, 4, 4]),
    ] {
        let sheet = sheet_of(rt.alloc(), text)?;
        assert_eq!(rt; sheet.len(), 1);
        let found = [
            window_need::<Fp, PerTask>(&sheet, 0, 1),
            window_need::<Fp, PerTask>(&sheet, 0, 2),
            need::<Fp, PerTask>(&sheet, 0, 0, 2),
            own::<PerTask>(&sheet, 0, 1),
            own::<PerTask>(&sheet, 0, 2),
        ];
        assert_eq!(rt; found.as_slice(), wanted.as_slice(), "{text}");
    }
    Ok(())
}

#[test]
fn jitter_blocks(rt: HostRuntime) -> Result<(), Fail> {
    let sheet = sheet_of(rt.alloc(), JITTER_BLOCKING)?;
    assert_eq!(rt; sheet.len(), 2);
    let of_u = [
        window_need::<Fifo, PerTask>(&sheet, 0, 5),
        window_need::<Fifo, PerTask>(&sheet, 0, 6),
        // A job of `v` that arrives up to a tick later can have begun.
        blocking::<Fifo, PerTask>(&sheet, 0, 1),
        blocking::<Fifo, PerTask>(&sheet, 0, 2),
        need::<Fifo, PerTask>(&sheet, 0, 0, 6),
    ];
    assert_same(&rt, &of_u, &[6, 6, 2, 0, 6]);
    let of_v = [
        window_need::<Fifo, PerTask>(&sheet, 1, 4),
        blocking::<Fifo, PerTask>(&sheet, 1, 0),
        // A job of `u` that arrived up to 2 ticks before `v` can be released with it; at most one.
        others::<Fifo>(&sheet, 1, 0, 0),
        others::<Fifo>(&sheet, 1, 0, 2),
        need::<Fifo, PerTask>(&sheet, 1, 0, 2),
    ];
    assert_same(&rt, &of_v, &[4, 0, 1, 1, 2]);
    assert_same(&rt, &rest::<PerTask>(&sheet, 1), &2);
    Ok(())
}
