//! Recorded arrivals, their text, and the least curve that they respect.
use curve::Step;
use curve_infer::{Trace, infer, read_trace, write_trace};
use poet_io::TextRefusal;
use std::alloc::{AllocError, Global};
use std::test::Fail;

/// Arrivals, a horizon, and the steps of the curve by time and value.
const INFERRED: [(&[u64], u64, &[(u64, u64)]); 5] = [
    (&[0, 0, 4, 5], 6, &[(1, 2), (5, 3), (6, 4)]),
    (&[0, 0, 4, 5], 4, &[(1, 2)]),
    (&[1_000_000_000], 1, &[(1, 1)]),
    (&[0, 9, 10, 30, 31, 32], 2, &[(1, 1), (2, 2)]),
    (&[7, 7, 7], 5, &[(1, 3)]),
];

/// Times, and whether they are a trace's.
const CHECKED: [(&[u64], bool); 5] = [
    (&[], false),
    (&[1_000_000_001], false),
    (&[1_000_000_000], true),
    (&[5, 4], false),
    (&[5, 5], true),
];

/// Bytes that are no trace's text, and the line in which they are refused.
const REFUSED: [(&str, u64); 12] = [
    ("", 1),
    ("poet-trace 2\narrivals 1\na 0\nend\n", 1),
    ("poet-trace 1\n", 2),
    ("poet-trace 1\narrivals 0\nend\n", 2),
    ("poet-trace 1\narrivals 10001\n", 2),
    ("poet-trace 1\narrivals 2\na 5\na 4\nend\n", 4),
    ("poet-trace 1\narrivals 1\na 1000000001\nend\n", 3),
    ("poet-trace 1\narrivals 1\na 05\nend\n", 3),
    ("poet-trace 1\narrivals 1\na 5\na 5\nend\n", 4),
    ("poet-trace 1\narrivals 1\na 5\nend", 4),
    ("poet-trace 1\narrivals 1\na 5\nend\n\n", 5),
    ("poet-trace 1\narrivals 2\na 5\nend\n", 4),
];

fn make_steps(alloc: Global, steps: &[(u64, u64)]) -> Result<Vec<Step>, AllocError> {
    let mut all = Vec::new(alloc);
    for (time, value) in steps {
        all.push(Step {
            time: *time,
            value: *value,
        })?;
    }
    Ok(all)
}

#[test]
fn takes_times_in_order(rt: HostRuntime) -> Result<(), Fail> {
    for (times, want) in CHECKED {
        let trace = Trace::check(times.to_vec(rt.alloc())?);
        assert_eq!(rt; trace.is_some(), want);
    }
    Ok(())
}

#[test]
fn infers_the_least_curve(rt: HostRuntime) -> Result<(), Fail> {
    for (times, horizon, want) in INFERRED {
        let Some(trace) = Trace::check(times.to_vec(rt.alloc())?) else {
            return Err("no trace").map_err(Fail::from);
        };
        let curve = infer(rt.alloc(), &trace, horizon)?;
        assert_eq!(rt; curve.horizon(), horizon);
        let steps = make_steps(rt.alloc(), want)?;
        assert_eq!(rt; curve.steps(), steps.as_slice(), "horizon {horizon}");
    }
    Ok(())
}

/// An arrival each 100,000 ticks: as many steps as arrivals.
#[test]
fn infers_from_ten_thousand_arrivals(rt: HostRuntime) -> Result<(), Fail> {
    let mut times = Vec::new(rt.alloc());
    for k in 0..10_000u64 {
        times.push(100_000 * k)?;
    }
    let Some(trace) = Trace::check(times) else {
        return Err("no trace").map_err(Fail::from);
    };
    let curve = infer(rt.alloc(), &trace, 1_000_000_000)?;
    assert_eq!(rt; curve.steps().len(), 10_000);
    for (k, step) in curve.steps().iter().enumerate() {
        assert_eq!(rt; step.time / 100_000, k as u64);
        assert_eq!(rt; step.time % 100_000, 1);
        assert_eq!(rt; step.value, k as u64 + 1);
    }
    Ok(())
}

#[test]
fn reads_what_it_writes(rt: HostRuntime) -> Result<(), Fail> {
    let text = "poet-trace 1\narrivals 4\na 0\na 0\na 4\na 5\nend\n";
    let trace = read_trace(rt.alloc(), text.as_bytes())?;
    assert_eq!(rt; trace.times(), [0, 0, 4, 5].as_slice());
    let written = write_trace(rt.alloc(), &trace)?;
    assert_eq!(rt; written.as_slice(), text.as_bytes());
    Ok(())
}

#[test]
fn names_the_refused_line(rt: HostRuntime) -> Result<(), Fail> {
    for (text, line) in REFUSED {
        let found = read_trace(rt.alloc(), text.as_bytes()).err();
        assert_eq!(rt; found, Some(TextRefusal::Line(line)), "{text}");
    }
    Ok(())
}
