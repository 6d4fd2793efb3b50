//! Simulated runs, as their texts, and the limits past which there is none.
use crate::sheets::{NEVER_PREEMPTED, sheet_of};
use policy::Fp;
use preemption::PerTask;
use run_text::write_run;
use simulator::{Mode, SimRefusal, simulate};
use std::alloc::Global;
use std::test::Fail;
use task_sheet::Sheet;

/// A sheet, a mode and a number of ticks, and the text of the simulated run.
const ROWS: [(&str, Mode, u64, &str); 8] = [
    (
        NEVER_PREEMPTED,
        Mode::Dense,
        12,
        "poet-run 2\njobs 5 ticks 12\nj 0 0 0 1\nj 1 0 0 2\nj 0 4 4 1\nj 1 6 6 2\nj 0 8 8 1\nrun 0 1\nrun 1 2\nidle 1\nrun 2 1\nidle 1\nrun 3 2\nrun 4 1\nidle 3\nend\n",
    ),
    (
        NEVER_PREEMPTED,
        Mode::Seed(7),
        20,
        "poet-run 2\njobs 8 ticks 20\nj 0 0 0 1\nj 1 1 1 1\nj 0 4 4 1\nj 0 8 8 1\nj 1 8 8 1\nj 0 15 15 1\nj 1 15 15 1\nj 0 19 19 1\nrun 0 1\nrun 1 1\nidle 2\nrun 2 1\nidle 3\nrun 3 1\nrun 4 1\nidle 5\nrun 5 1\nrun 6 1\nidle 2\nrun 7 1\nend\n",
    ),
    // Bursts: two jobs at once, three in 5 ticks, and so on each 10 ticks.
    (
        "policy = 'fp'
task = [{ name = 'a', cost = 1, deadline = 1, priority = 0, curve = { horizon = 10, steps = [[1, 2], [5, 3]] } }]",
        Mode::Dense,
        15,
        "poet-run 2\njobs 6 ticks 15\nj 0 0 0 1\nj 0 0 0 1\nj 0 4 4 1\nj 0 10 10 1\nj 0 10 10 1\nj 0 14 14 1\nrun 0 1\nrun 1 1\nidle 2\nrun 2 1\nidle 5\nrun 3 1\nrun 4 1\nidle 2\nrun 5 1\nend\n",
    ),
    // Of four ticks two are promised.
    (
        "policy = 'fp'
supply = { horizon = 4, times = [3, 4] }
task = [{ name = 'a', cost = 2, deadline = 10, priority = 1, period = 10 }]",
        Mode::Dense,
        8,
        "poet-run 2\njobs 1 ticks 8\nj 0 0 0 2\noff 2\nrun 0 2\noff 2\nidle 2\nend\n",
    ),
    (
        "policy = 'fp'
task = [{ name = 'a', cost = 5, deadline = 10, priority = 1, period = 10, preemption = { fixed = [2, 3] } }]",
        Mode::Dense,
        6,
        "poet-run 2\njobs 1 ticks 6\nj 0 0 0 5 2 3\nrun 0 5\nidle 1\nend\n",
    ),
    (
        "policy = 'fp'
task = [{ name = 'a', cost = 5, deadline = 10, priority = 1, period = 10, preemption = { floating = 2 } }]",
        Mode::Dense,
        6,
        "poet-run 2\njobs 1 ticks 6\nj 0 0 0 5 2 2 1\nrun 0 5\nidle 1\nend\n",
    ),
    // The jitter is later than the first arrival, and earlier than the second.
    (
        "policy = 'fp'
task = [{ name = 'a', cost = 2, deadline = 5, priority = 1, period = 5, jitter = 3 }]",
        Mode::Dense,
        8,
        "poet-run 2\njobs 2 ticks 8\nj 0 0 3 2\nj 0 5 5 2\nidle 3\nrun 0 2\nrun 1 2\nidle 1\nend\n",
    ),
    // The words would release the job of tick 9 at tick 10, before the job of tick 7.
    (
        "policy = 'fp'
task = [
    { name = 'a', cost = 1, deadline = 4, priority = 2, period = 4 },
    { name = 'b', cost = 2, deadline = 2, priority = 1, period = 2, jitter = 6 },
]",
        Mode::Seed(2),
        14,
        "poet-run 2\njobs 8 ticks 14\nj 0 1 1 1\nj 1 1 1 2\nj 1 3 4 2\nj 0 5 5 1\nj 1 5 11 1\nj 1 7 11 1\nj 1 9 11 2\nj 0 10 10 1\nidle 1\nrun 0 1\nrun 1 2\nrun 2 1\nrun 3 1\nrun 2 1\nidle 3\nrun 7 1\nrun 4 1\nrun 5 1\nrun 6 1\nend\n",
    ),
];

/// The text of the simulated run of `n` ticks, at most 100,000.
fn text_of_simulation(alloc: Global, sheet: &str, mode: Mode, n: u64) -> Result<Vec<u8>, Fail> {
    let sheet = sheet_of(alloc, sheet)?;
    let run = simulate::<Fp, PerTask, Sheet>(alloc, &sheet, &sheet, mode, n.min(100_000))?;
    Ok(write_run(alloc, &run)?)
}

#[test]
fn runs_are_these(rt: HostRuntime) -> Result<(), Fail> {
    for (sheet, mode, n, text) in ROWS {
        let run = text_of_simulation(rt.alloc(), sheet, mode, n)?;
        assert_eq!(rt; run.as_slice(), text.as_bytes(), "{text}");
    }
    Ok(())
}

const MANY_JOBS: &str = "
policy = 'fp'
task = [{ name = 'a', cost = 1, deadline = 1, priority = 1, curve = { horizon = 1, steps = [[1, 10000]] } }]";

const MANY_SEGMENTS: &str = "
policy = 'fp'
task = [{ name = 'a', cost = 1000001, deadline = 1, priority = 1, period = 10000000, preemption = { floating = 1 } }]";

/// A sheet and a number of ticks, and how many jobs the dense run has, or why there is none.
const LIMITS: [(&str, u64, Result<usize, SimRefusal>); 3] = [
    (MANY_JOBS, 2, Ok(20_000)),
    (MANY_JOBS, 3, Err(SimRefusal::Jobs)),
    (MANY_SEGMENTS, 1, Err(SimRefusal::Segments)),
];

/// How many jobs the dense run of `n` ticks, at most 100,000, has.
fn count_jobs(alloc: Global, sheet: &Sheet, n: u64) -> Result<usize, SimRefusal> {
    let n = n.min(100_000);
    let run = simulate::<Fp, PerTask, Sheet>(alloc, sheet, sheet, Mode::Dense, n)?;
    Ok(run.jobs.len())
}

#[test]
fn runs_are_refused_past_the_limits(rt: HostRuntime) -> Result<(), Fail> {
    for (text, n, wanted) in LIMITS {
        let sheet = sheet_of(rt.alloc(), text)?;
        assert_eq!(rt; count_jobs(rt.alloc(), &sheet, n), wanted, "{n} ticks");
    }
    Ok(())
}
