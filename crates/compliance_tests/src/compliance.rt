//! Runs worked out by hand, and what the tests of compliance say of them.
ghost use Rattle.std.specs.Prelude.{◌≡◌, ◌<◌, ◌^◌, length, true};
ghost use Rattle.schedule_laws.specs.Tests.{AreOf, AreEarly};

use lists::Items;
use policy::Fp;
use preemption::PerTask;
use run_model::{Run, Tick};
use run_text::read_run;
use schedule_laws::{
    crowded, fits, idle_broken, priority_broken, release_broken, segment_broken, short_at, valid_at,
};
use sheet_text::read_sheet;
use std::alloc::{AllocError, Global};
use std::test::Fail;
use task_sheet::{Job, Sheet};

/// A task `a` and a task `b` that is never preempted.
const TASKS: &str = "
policy = 'fp'
task = [
    { name = 'a', cost = 1, deadline = 4, priority = 2, period = 4 },
    { name = 'b', cost = 2, deadline = 6, priority = 1, period = 6, preemption = 'never' },
]";

/// A job of the one task is released up to 3 ticks after its arrival.
const JITTER: &str = "
policy = 'fp'
task = [{ name = 'a', cost = 2, deadline = 5, priority = 1, jitter = 3, period = 5 }]";

const PROMISED: &str = "
policy = 'fp'
supply = { horizon = 4, times = [3, 4] }
task = [{ name = 'a', cost = 1, deadline = 4, priority = 2, period = 4 }]";

const DENSE: &str = "poet-run 1
jobs 5 ticks 12
j 0 0 1
j 1 0 2
j 0 4 1
j 1 6 2
j 0 8 1
run 0 1
run 1 2
idle 1
run 2 1
idle 1
run 3 2
run 4 1
idle 3
end
";

/// A job of `b` at tick 0, and one of `a` at tick 1 that cuts it.
const CUT: &str = "poet-run 1\njobs 2 ticks 3\nj 1 0 2\nj 0 1 1\nrun 0 1\nrun 1 1\nrun 0 1\nend\n";

/// A job of `a` and one of `b`, which runs first.
const B_FIRST: &str = "poet-run 1\njobs 2 ticks 3\nj 0 0 1\nj 1 0 2\nrun 1 2\nrun 0 1\nend\n";

/// Two jobs of `a`. From tick 0 on two may arrive by tick 4, from tick 3 on only one.
const CROWD: &str = "poet-run 1\njobs 2 ticks 1\nj 0 3 1\nj 0 4 1\nidle 1\nend\n";

/// Whether a job is crowded, whether a window that ends with a tick is short, and the jobs that are
/// pending while the tick idles, that are inside a segment and do not run, and that are more urgent.
type Found = (bool, bool, Option<u32>, Option<u32>, Option<u32>);

const NOTHING: Found = (false, false, None, None, None);

/// A run, a job and a tick, and what the tests say there.
const ROWS: [(&str, u32, u64, Found); 10] = [
    (CUT, 0, 1, (false, false, None, Some(0), None)),
    (CUT, 0, 2, NOTHING),
    (
        "poet-run 1\njobs 2 ticks 3\nj 1 0 2\nj 0 1 1\nrun 0 1\nidle 1\nrun 0 1\nend\n",
        0,
        1,
        (false, false, Some(0), Some(0), None),
    ),
    (
        "poet-run 1\njobs 2 ticks 3\nj 1 0 2\nj 0 1 1\nrun 0 1\noff 1\nrun 0 1\nend\n",
        0,
        1,
        (false, true, None, None, None),
    ),
    (
        "poet-run 1\njobs 2 ticks 3\nj 0 0 1\nj 1 0 2\nidle 1\nrun 0 1\nrun 1 1\nend\n",
        0,
        0,
        (false, false, Some(0), None, None),
    ),
    (
        "poet-run 1\njobs 2 ticks 3\nj 0 0 1\nj 1 0 2\nrun 0 1\nidle 1\nrun 1 1\nend\n",
        0,
        1,
        (false, false, Some(1), None, None),
    ),
    (B_FIRST, 0, 0, (false, false, None, None, Some(0))),
    (B_FIRST, 0, 1, NOTHING),
    (CROWD, 1, 0, (true, false, None, None, None)),
    (CROWD, 0, 0, NOTHING),
];

const FOUR_JOBS: &str = "poet-run 1\njobs 4 ticks 0\nj 0 0 1\nj 2 0 1\nj 1 0 3\nj 1 0 2\nend\n";

const THREE_JOBS: &str = "poet-run 1\njobs 3 ticks 0\nj 0 0 1\nj 0 1 3\nj 1 0 2\nend\n";

const TICKS: [Tick; 8] = [
    Tick::Runs(1),
    Tick::Runs(1),
    Tick::Runs(2),
    Tick::Runs(0),
    Tick::Runs(0),
    Tick::Runs(3),
    Tick::Idle,
    Tick::Off,
];

const VALID: [bool; 8] = [false, false, true, true, false, false, true, true];

/// A sheet, the task, the arrival and the release of each of two jobs, and which of the two is released
/// as its task does not allow.
const RELEASES: [(&str, [(u32, u64, u64); 2], [bool; 2]); 9] = [
    (TASKS, [(0, 0, 0), (0, 4, 4)], [false, false]),
    (TASKS, [(0, 1, 0), (0, 4, 4)], [true, false]),
    (TASKS, [(0, 0, 1), (0, 4, 4)], [true, false]),
    // the later job is released before the earlier one
    (TASKS, [(0, 0, 5), (0, 4, 4)], [true, true]),
    (TASKS, [(0, 0, 5), (1, 4, 4)], [true, false]),
    (JITTER, [(0, 0, 3), (0, 5, 5)], [false, false]),
    (JITTER, [(0, 0, 4), (0, 5, 5)], [true, false]),
    (JITTER, [(0, 3, 6), (0, 5, 5)], [false, true]),
    (JITTER, [(0, 3, 6), (0, 5, 6)], [false, false]),
];

const OFTEN_OFF: &str = "poet-run 1\njobs 0 ticks 8\noff 2\nidle 2\noff 3\nidle 1\nend\n";

/// Whether every job fits and arrives by 10^9.
fn all_fit(sheet: &Sheet, run: &Run) -> bool
    requires few { length run.now.jobs < 2 ^ 32 }
    ensures of { result ≡ true → AreOf sheet.now run.now }
    ensures early { result ≡ true → AreEarly run.now }
{
    for k in 0..run.jobs.len() as u32 {
        let arrival = run.jobs.as_slice()[k as usize].arrival;
        if arrival > 1_000_000_000 || !fits::<PerTask>(sheet, run, k) {
            return false;
        }
    }
    true
}

fn all_valid(run: &Run) -> bool
    requires few { length run.now.jobs < 2 ^ 32 }
{
    for t in 0..run.ticks.len() as u64 {
        if !valid_at(run, t) {
            return false;
        }
    }
    true
}

/// What the tests say of job `k` and tick `t`, where every job fits and every tick is valid.
fn found_at(sheet: &Sheet, run: &Run, k: u32, t: u64) -> Option<Found> {
    let jobs = run.jobs.len();
    if jobs >= 1 << 32 || k as usize >= jobs || t >= run.ticks.len() as u64 {
        return None;
    }
    if !all_fit(sheet, run) || !all_valid(run) || !valid_at(run, t) {
        return None;
    }
    Some((
        crowded(sheet, run, k),
        short_at(sheet, run, t + 1),
        idle_broken(run, t),
        segment_broken::<PerTask>(sheet, run, t),
        priority_broken::<Fp, PerTask>(sheet, run, t),
    ))
}

fn sheet_of(alloc: Global, text: &str) -> Result<Sheet, Fail> {
    Ok(read_sheet(alloc, text.as_bytes())?)
}

fn run_of(alloc: Global, text: &str) -> Result<Run, Fail> {
    Ok(read_run(alloc, text.as_bytes())?)
}

/// The same, of texts.
fn found_in(alloc: Global, sheet: &str, run: &str, k: u32, t: u64) -> Result<Option<Found>, Fail> {
    let sheet = sheet_of(alloc, sheet)?;
    let run = read_run(alloc, run.as_bytes())?;
    Ok(found_at(&sheet, &run, k, t))
}

#[test]
fn runs_and_what_they_break(rt: HostRuntime) -> Result<(), Fail> {
    for (text, k, t, wanted) in ROWS {
        assert_eq!(rt;
            found_in(rt.alloc(), TASKS, text, k, t)?,
            Some(wanted),
            "{text}"
        );
    }
    for k in 0..5 {
        for t in 0..12 {
            let found = found_in(rt.alloc(), TASKS, DENSE, k, t)?;
            assert_eq!(rt; found, Some(NOTHING), "job {k} and tick {t}");
        }
    }
    Ok(())
}

/// Which of four jobs fit.
fn fitting(sheet: &Sheet, run: &Run) -> Option<[bool; 4]> {
    if run.jobs.len() != 4 {
        return None;
    }
    Some([
        fits::<PerTask>(sheet, run, 0),
        fits::<PerTask>(sheet, run, 1),
        fits::<PerTask>(sheet, run, 2),
        fits::<PerTask>(sheet, run, 3),
    ])
}

#[test]
fn jobs_that_fit(rt: HostRuntime) -> Result<(), Fail> {
    let sheet = sheet_of(rt.alloc(), TASKS)?;
    let run = run_of(rt.alloc(), FOUR_JOBS)?;
    assert_eq!(rt; fitting(&sheet, &run), Some([true, false, false, true]));
    Ok(())
}

/// A run of no tick with jobs of these tasks, arrivals and releases.
fn released_run(alloc: Global, jobs: [(u32, u64, u64); 2]) -> Result<Run, AllocError> {
    let mut list = Vec::new(alloc);
    for (task, arrival, release) in jobs {
        list.push(Job {
            task,
            arrival,
            release,
            cost: 1,
            segs: Items::new(Vec::new(alloc)),
        })?;
    }
    Ok(Run {
        jobs: Items::new(list),
        ticks: Items::new(Vec::new(alloc)),
    })
}

/// Which of two jobs that fit are released as their tasks do not allow.
fn broken_releases(sheet: &Sheet, run: &Run) -> Option<[bool; 2]> {
    if run.jobs.len() != 2 || !all_fit(sheet, run) {
        return None;
    }
    Some([release_broken(sheet, run, 0), release_broken(sheet, run, 1)])
}

#[test]
fn releases(rt: HostRuntime) -> Result<(), Fail> {
    for (sheet, jobs, wanted) in RELEASES {
        let sheet = sheet_of(rt.alloc(), sheet)?;
        let run = released_run(rt.alloc(), jobs)?;
        assert_eq!(rt; broken_releases(&sheet, &run), Some(wanted), "{jobs:?}");
    }
    Ok(())
}

#[test]
fn valid_ticks(rt: HostRuntime) -> Result<(), Fail> {
    let Run { jobs, ticks: _ } = run_of(rt.alloc(), THREE_JOBS)?;
    let ticks = Items::new(TICKS.to_vec(rt.alloc())?);
    let run = Run { jobs, ticks };
    assert_eq!(rt; run.jobs.len(), 3);
    for (t, wanted) in VALID.iter().enumerate() {
        assert!(rt; t < run.ticks.len());
        assert_eq!(rt; valid_at(&run, t as u64), *wanted, "tick {t}");
    }
    Ok(())
}

#[test]
fn promised_ticks(rt: HostRuntime) -> Result<(), Fail> {
    let sheet = sheet_of(rt.alloc(), PROMISED)?;
    let run = run_of(rt.alloc(), OFTEN_OFF)?;
    // Of ticks 4 to 6 one is promised, of ticks 0 to 7 four.
    for (u, wanted) in [(0, false), (4, false), (6, false), (7, true), (8, true)] {
        assert!(rt; u <= run.ticks.len());
        assert_eq!(rt; short_at(&sheet, &run, u as u64), wanted, "up to {u}");
    }
    Ok(())
}
