//! Runs worked out by hand, and the verdict on each.
use crate::sheets::{NEVER_PREEMPTED, sheet_of};
use audit::{AuditVerdict, Rule, Seen, audit};
use policy::Fp;
use preemption::PerTask;
use run_text::read_run;
use std::alloc::Global;
use std::process::Abort;
use std::test::Fail;
use task_sheet::Sheet;

const ONE_TASK: &str = "
policy = 'fp'
task = [{ name = 't1', cost = 2, deadline = 5, priority = 1, period = 5 }]";

/// A task that arrives each 4 ticks at most, and one with a burst.
const CURVES: &str = "
policy = 'fp'
task = [
    { name = 'a', cost = 1, deadline = 1, priority = 0, period = 4 },
    { name = 'b', cost = 1, deadline = 1, priority = 0, curve = { horizon = 10, steps = [[1, 2], [5, 3]] } },
]";

/// The last two of each four ticks, at the latest.
const HALF_SUPPLIED: &str = "
policy = 'fp'
supply = { horizon = 4, times = [3, 4] }
task = [{ name = 'a', cost = 1, deadline = 1, priority = 0, period = 4 }]";

/// A task `a`, and a task `b` that is less urgent and preempted between its segments.
const FIXED: &str = "
policy = 'fp'
task = [
    { name = 'a', cost = 1, deadline = 8, priority = 2, period = 8 },
    { name = 'b', cost = 4, deadline = 8, priority = 1, period = 8, preemption = { fixed = [2, 1, 1] } },
]";

const FLOATING: &str = "
policy = 'fp'
task = [
    { name = 'a', cost = 1, deadline = 8, priority = 2, period = 8 },
    { name = 'b', cost = 4, deadline = 8, priority = 1, period = 8, preemption = { floating = 2 } },
]";

/// A run, and the rule that it breaks, with the job and the tick.
type Row = (&'static str, Option<(Rule, Option<u32>, Option<u64>)>);

const OF_NEVER_PREEMPTED: [Row; 8] = [
    (
        "poet-run 1\njobs 2 ticks 0\nj 0 0 1\nj 2 0 1\nend\n",
        Some((Rule::Fit, Some(1), None)),
    ),
    // The first job of a is not done where the second runs.
    (
        "poet-run 1\njobs 2 ticks 5\nj 0 0 1\nj 0 4 1\noff 4\nrun 1 1\nend\n",
        Some((Rule::Valid, Some(1), Some(4))),
    ),
    // From tick 0 on two jobs may arrive by tick 4, from tick 3 on only one.
    (
        "poet-run 1\njobs 2 ticks 1\nj 0 3 1\nj 0 4 1\nidle 1\nend\n",
        Some((Rule::Curve, Some(1), Some(4))),
    ),
    // Supply is judged before idling.
    (
        "poet-run 1\njobs 1 ticks 3\nj 0 0 1\nidle 1\nrun 0 1\noff 1\nend\n",
        Some((Rule::Supply, None, Some(2))),
    ),
    (
        "poet-run 1\njobs 2 ticks 3\nj 0 0 1\nj 1 0 2\nrun 0 1\nidle 1\nrun 1 1\nend\n",
        Some((Rule::Idle, Some(1), Some(1))),
    ),
    // The job of b has arrived, and that of a has not.
    (
        "poet-run 1\njobs 3 ticks 4\nj 0 1 1\nj 1 0 2\nj 1 6 2\nrun 1 2\nidle 1\nrun 0 1\nend\n",
        Some((Rule::Idle, Some(0), Some(2))),
    ),
    (
        "poet-run 1\njobs 2 ticks 3\nj 1 0 2\nj 0 1 1\nrun 0 1\nrun 1 1\nrun 0 1\nend\n",
        Some((Rule::Segment, Some(0), Some(1))),
    ),
    (
        "poet-run 1\njobs 2 ticks 3\nj 0 0 1\nj 1 0 2\nrun 1 2\nrun 0 1\nend\n",
        Some((Rule::Priority, Some(0), Some(0))),
    ),
];

const OF_ONE_TASK: [Row; 2] = [
    (
        "poet-run 1\njobs 2 ticks 5\nj 0 0 2\nj 0 3 2\nrun 0 2\nidle 1\nrun 1 2\nend\n",
        Some((Rule::Curve, Some(1), Some(3))),
    ),
    (
        "poet-run 1\njobs 0 ticks 2\nidle 1\noff 1\nend\n",
        Some((Rule::Supply, None, Some(1))),
    ),
];

const OF_CURVES: [Row; 6] = [
    ("poet-run 1\njobs 2 ticks 0\nj 0 0 1\nj 0 4 1\nend\n", None),
    (
        "poet-run 1\njobs 2 ticks 0\nj 0 0 1\nj 0 3 1\nend\n",
        Some((Rule::Curve, Some(1), Some(3))),
    ),
    (
        "poet-run 1\njobs 2 ticks 0\nj 0 3 1\nj 0 0 1\nend\n",
        Some((Rule::Curve, Some(0), Some(3))),
    ),
    (
        "poet-run 1\njobs 5 ticks 0\nj 0 0 1\nj 1 1 1\nj 1 1 1\nj 1 5 1\nj 1 11 1\nend\n",
        None,
    ),
    (
        "poet-run 1\njobs 4 ticks 0\nj 1 0 1\nj 1 20 1\nj 1 20 1\nj 1 23 1\nend\n",
        Some((Rule::Curve, Some(3), Some(23))),
    ),
    // The first crowded job by its arrival, then by its number.
    (
        "poet-run 1\njobs 5 ticks 0\nj 1 6 1\nj 0 5 1\nj 1 5 1\nj 1 5 1\nj 0 5 1\nend\n",
        Some((Rule::Curve, Some(1), Some(5))),
    ),
];

const OF_HALF_SUPPLIED: [Row; 3] = [
    (
        "poet-run 1\njobs 0 ticks 8\noff 2\nidle 2\noff 2\nidle 2\nend\n",
        None,
    ),
    (
        "poet-run 1\njobs 0 ticks 3\noff 3\nend\n",
        Some((Rule::Supply, None, Some(2))),
    ),
    (
        "poet-run 1\njobs 0 ticks 5\nidle 2\noff 3\nend\n",
        Some((Rule::Supply, None, Some(4))),
    ),
];

/// A job of b has segments of 2, 1 and 1 ticks, and a job of a arrives at tick 1.
const OF_SEGMENTS: [Row; 3] = [
    (
        "poet-run 1\njobs 2 ticks 5\nj 1 0 4 2 1 1\nj 0 1 1\nrun 0 2\nrun 1 1\nrun 0 2\nend\n",
        None,
    ),
    (
        "poet-run 1\njobs 2 ticks 5\nj 1 0 4 2 1 1\nj 0 1 1\nrun 0 1\nrun 1 1\nrun 0 3\nend\n",
        Some((Rule::Segment, Some(0), Some(1))),
    ),
    (
        "poet-run 1\njobs 2 ticks 5\nj 1 0 4 2 1 1\nj 0 1 1\nrun 0 3\nrun 1 1\nrun 0 1\nend\n",
        Some((Rule::Priority, Some(1), Some(2))),
    ),
];

/// A task whose jobs are released up to 3 ticks late, and of which two may arrive at once.
const LATE: &str = "
policy = 'fp'
task = [{ name = 'a', cost = 1, deadline = 9, priority = 0, jitter = 3, curve = { horizon = 10, steps = [[1, 2]] } }]";

const OF_LATE: [Row; 7] = [
    (
        "poet-run 2\njobs 2 ticks 4\nj 0 0 3 1\nj 0 0 0 1\nrun 1 1\nidle 2\nrun 0 1\nend\n",
        None,
    ),
    // The second job waits, though the first one has not been released.
    (
        "poet-run 2\njobs 2 ticks 1\nj 0 0 3 1\nj 0 0 0 1\nidle 1\nend\n",
        Some((Rule::Idle, Some(1), Some(0))),
    ),
    (
        "poet-run 2\njobs 2 ticks 0\nj 0 0 3 1\nj 0 0 4 1\nend\n",
        Some((Rule::Release, Some(1), None)),
    ),
    (
        "poet-run 2\njobs 1 ticks 0\nj 0 1 0 1\nend\n",
        Some((Rule::Release, Some(0), None)),
    ),
    // The second job arrives earlier, and is released later.
    (
        "poet-run 2\njobs 2 ticks 0\nj 0 1 2 1\nj 0 0 3 1\nend\n",
        Some((Rule::Release, Some(0), None)),
    ),
    // Releases are judged after what fits, and before what runs.
    (
        "poet-run 2\njobs 2 ticks 1\nj 0 0 4 1\nj 0 0 0 2\nrun 0 1\nend\n",
        Some((Rule::Fit, Some(1), None)),
    ),
    (
        "poet-run 2\njobs 1 ticks 1\nj 0 0 4 1\nrun 0 1\nend\n",
        Some((Rule::Release, Some(0), None)),
    ),
];

/// The verdict on the run of this text.
fn verdict_on(alloc: Global, sheet: &str, text: &str) -> Result<AuditVerdict, Fail> {
    let sheet = sheet_of(alloc, sheet)?;
    let run = read_run(alloc, text.as_bytes())?;
    Ok(audit::<Fp, PerTask, Sheet>(alloc, &sheet, &sheet, &run)?)
}

fn assert_rows(rt: &impl Abort, alloc: Global, sheet: &str, rows: &[Row]) -> Result<(), Fail> {
    for (text, wanted) in rows {
        let broken = match verdict_on(alloc, sheet, text)? {
            AuditVerdict::Compliant(_) => None,
            AuditVerdict::Broken { rule, job, tick } => Some((rule, job, tick)),
        };
        assert_eq!(rt; broken, *wanted, "{text}");
    }
    Ok(())
}

#[test]
fn first_rules_broken(rt: HostRuntime) -> Result<(), Fail> {
    let alloc = rt.alloc();
    assert_rows(&rt, alloc, NEVER_PREEMPTED, &OF_NEVER_PREEMPTED)?;
    assert_rows(&rt, alloc, ONE_TASK, &OF_ONE_TASK)?;
    assert_rows(&rt, alloc, CURVES, &OF_CURVES)?;
    assert_rows(&rt, alloc, HALF_SUPPLIED, &OF_HALF_SUPPLIED)?;
    assert_rows(&rt, alloc, FIXED, &OF_SEGMENTS)?;
    assert_rows(&rt, alloc, FLOATING, &OF_SEGMENTS)
}

#[test]
fn late_releases(rt: HostRuntime) -> Result<(), Fail> {
    assert_rows(&rt, rt.alloc(), LATE, &OF_LATE)
}

const SEEN_OF_A: Seen = Seen {
    jobs: 3,
    done: 3,
    worst: 1,
};

const SEEN_OF_B: Seen = Seen {
    jobs: 2,
    done: 2,
    worst: 3,
};

/// The second job is not done at the run's end.
const SEEN_OF_ONE_TASK: Seen = Seen {
    jobs: 2,
    done: 1,
    worst: 2,
};

/// A sheet, a run, and what is seen of each task.
const COMPLIANT: [(&str, &str, &[Seen]); 2] = [
    (
        NEVER_PREEMPTED,
        "poet-run 1\njobs 5 ticks 12\nj 0 0 1\nj 1 0 2\nj 0 4 1\nj 1 6 2\nj 0 8 1\nrun 0 1\nrun 1 2\nidle 1\nrun 2 1\nidle 1\nrun 3 2\nrun 4 1\nidle 3\nend\n",
        &[SEEN_OF_A, SEEN_OF_B],
    ),
    (
        ONE_TASK,
        "poet-run 1\njobs 2 ticks 5\nj 0 0 2\nj 0 5 2\nrun 0 2\nidle 3\nend\n",
        &[SEEN_OF_ONE_TASK],
    ),
];

#[test]
fn runs_that_comply(rt: HostRuntime) -> Result<(), Fail> {
    let alloc = rt.alloc();
    for (sheet, text, wanted) in COMPLIANT {
        let verdict = verdict_on(alloc, sheet, text)?;
        let AuditVerdict::Compliant(seen) = verdict else {
            return Err("a rule is broken").map_err(Fail::from);
        };
        assert_eq!(rt; seen.as_slice(), wanted, "{text}");
    }
    Ok(())
}
