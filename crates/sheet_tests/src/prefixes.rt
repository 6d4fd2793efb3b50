//! Prefixes of curves.
use curve::{CurveRefusal, Prefix, Step};
use std::alloc::{AllocError, Global};
use std::test::Fail;

/// A horizon, the steps, and the first test that they fail.
const CHECKED: [(u64, &[(u64, u64)], Option<CurveRefusal>); 12] = [
    (0, &[], Some(CurveRefusal::Horizon)),
    (1_000_000_001, &[(1, 1)], Some(CurveRefusal::Horizon)),
    (1_000_000_000, &[(1, 1)], None),
    (5, &[], Some(CurveRefusal::Limit)),
    (5, &[(0, 1)], Some(CurveRefusal::Limit)),
    (5, &[(1, 1_000_001)], Some(CurveRefusal::Limit)),
    (5, &[(1, 1_000_000)], None),
    (5, &[(2, 1), (1, 1)], Some(CurveRefusal::First)),
    (5, &[(1, 1), (2, 1)], Some(CurveRefusal::Order)),
    (5, &[(1, 1), (1, 2)], Some(CurveRefusal::Order)),
    (5, &[(1, 1), (6, 2)], Some(CurveRefusal::Past)),
    (6, &[(1, 1), (6, 2)], None),
];

/// Of a burst of two every 2,500 ticks: a length, its jobs, and the next rise.
const BURSTS: [(u64, u128, Option<u64>); 8] = [
    (0, 0, Some(1)),
    (1, 2, Some(2500)),
    (2499, 2, Some(2500)),
    (2500, 4, Some(5001)),
    (5000, 4, Some(5001)),
    (5001, 6, Some(7500)),
    (12_345, 10, Some(12_500)),
    (3_999_999_999, 3_199_996 + 4, None),
];

fn check(
    alloc: Global,
    horizon: u64,
    steps: &[(u64, u64)],
) -> Result<Result<Prefix, CurveRefusal>, AllocError> {
    let mut all = Vec::new(alloc);
    for (time, value) in steps {
        all.push(Step {
            time: *time,
            value: *value,
        })?;
    }
    Ok(Prefix::check(horizon, all))
}

#[test]
fn names_the_first_failed_test(rt: HostRuntime) -> Result<(), Fail> {
    for (horizon, steps, want) in CHECKED {
        let found = check(rt.alloc(), horizon, steps)?.err();
        assert_eq!(rt; found, want, "horizon {horizon}");
    }
    Ok(())
}

#[test]
fn repeats_bursts_of_two(rt: HostRuntime) -> Result<(), Fail> {
    let burst = check(rt.alloc(), 5000, &[(1, 2), (2500, 4)])??;
    for (d, most, next) in BURSTS {
        assert_eq!(rt; (burst.at(d), burst.next_rise(d)), (most, next), "at {d}");
    }
    Ok(())
}
