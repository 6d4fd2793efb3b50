//! Stairs of a curve, and the curve of a period.
use curve::{Prefix, Stair, Step};
use std::test::Fail;

/// A stair's value, where it begins and where it ends.
type Ends = (u128, u64, u64);

/// Of the horizon 10 with the steps (1, 2), (4, 3), (9, 5), where each further horizon adds 5 jobs:
/// a length, and the stair that a search finds there.
const FOUND: [(u64, Ends); 8] = [
    (0, (0, 0, 1)),
    (1, (2, 1, 4)),
    (3, (2, 1, 4)),
    (4, (3, 4, 9)),
    (9, (5, 9, 11)),
    (10, (5, 10, 11)),
    (18, (8, 14, 19)),
    (4_000_000_000, (2_000_000_000, 4_000_000_000, 4_000_000_001)),
];

/// What `walk` meets on that curve.
const WALKED: [Ends; 8] = [
    (2, 1, 4),
    (2, 1, 4),
    (3, 4, 9),
    (5, 9, 11),
    (5, 9, 11),
    (7, 11, 14),
    (15, 29, 31),
    (3, 4, 9),
];

/// Of a job in seven ticks: a length and its jobs, a seventh of it rounded up.
const SEVENTHS: [(u64, u128); 5] = [(0, 0), (1, 1), (7, 1), (8, 2), (15, 3)];

fn ends(stair: Stair) -> Ends {
    (stair.value, stair.from, stair.until)
}

/// The stairs at 1, 3, 4, 9, 10, 11, 29 and 5, each from the one before: one step on, no step, over a
/// horizon, far on, and back.
fn walk(curve: &Prefix) -> [Ends; 8] {
    let first = curve.stair_to(curve.stair(0), 1);
    let stayed = curve.stair_to(first, 3);
    let second = curve.stair_to(stayed, 4);
    let third = curve.stair_to(second, 9);
    let at_horizon = curve.stair_to(third, 10);
    let past_horizon = curve.stair_to(at_horizon, 11);
    let far = curve.stair_to(past_horizon, 29);
    let back = curve.stair_to(far, 5);
    [
        ends(first),
        ends(stayed),
        ends(second),
        ends(third),
        ends(at_horizon),
        ends(past_horizon),
        ends(far),
        ends(back),
    ]
}

#[test]
fn stairs_of_three_steps(rt: HostRuntime) -> Result<(), Fail> {
    let steps = [(1, 2), (4, 3), (9, 5)];
    let mut all = Vec::new(rt.alloc());
    for (time, value) in steps {
        all.push(Step { time, value })?;
    }
    let curve = Prefix::check(10, all)?;
    for (d, want) in FOUND {
        assert_eq!(rt; ends(curve.stair(d)), want, "at {d}");
    }
    assert_eq!(rt; walk(&curve), WALKED);
    Ok(())
}

#[test]
fn one_job_in_seven_ticks(rt: HostRuntime) -> Result<(), Fail> {
    let curve = Prefix::periodic(rt.alloc(), 7)?;
    assert_eq!(rt; curve.horizon(), 7);
    assert_eq!(rt; curve.steps(), [Step { time: 1, value: 1 }].as_slice());
    for (d, want) in SEVENTHS {
        assert_eq!(rt; curve.at(d), want, "at {d}");
    }
    let first = curve.stair(5);
    assert_eq!(rt; ends(first), (1, 1, 8));
    assert_eq!(rt; ends(curve.stair_to(first, 8)), (2, 8, 15));
    Ok(())
}
