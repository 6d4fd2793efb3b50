//! Runs written by hand.
use lists::Items;
use poet_io::TextRefusal;
use run_model::{Run, Tick};
use run_text::{read_run, write_run};
use std::alloc::{AllocError, Global};
use std::test::Fail;
use task_sheet::Job;

/// A job's task, arrival, release, cost and segments.
type Row = (u32, u64, u64, u64, &'static [u64]);

/// A run's text, its jobs and its ticks.
type Written = (&'static [u8], &'static [Row], &'static [Tick]);

/// Texts of the first version, whose lines say no release.
const FIRST: [Written; 5] = [
    (b"poet-run 1\njobs 0 ticks 0\nend\n", &[], &[]),
    (
        b"poet-run 1\njobs 2 ticks 5\nj 1 0 2\nj 0 1 1\nrun 0 2\nrun 1 1\nidle 2\nend\n",
        &[(1, 0, 0, 2, &[]), (0, 1, 1, 1, &[])],
        &[
            Tick::Runs(0),
            Tick::Runs(0),
            Tick::Runs(1),
            Tick::Idle,
            Tick::Idle,
        ],
    ),
    (
        b"poet-run 1\njobs 1 ticks 1\nj 0 0 5 2 3\noff 1\nend\n",
        &[(0, 0, 0, 5, &[2, 3])],
        &[Tick::Off],
    ),
    (
        b"poet-run 1\njobs 5 ticks 12\nj 0 0 1\nj 1 0 2\nj 0 4 1\nj 1 6 2\nj 0 8 1\n\
        run 0 1\nrun 1 2\nidle 1\nrun 2 1\nidle 1\nrun 3 2\nrun 4 1\nidle 3\nend\n",
        &DENSE_JOBS,
        &DENSE_TICKS,
    ),
    // Numbers at the ends of their ranges.
    (
        b"poet-run 1\njobs 2 ticks 4\nj 1000000000 0 5 2 0 1000000000\n\
        j 0 1000000000 1000000000\noff 2\nrun 1 1\nrun 0 1\nend\n",
        &[
            (1_000_000_000, 0, 0, 5, &[2, 0, 1_000_000_000]),
            (0, 1_000_000_000, 1_000_000_000, 1_000_000_000, &[]),
        ],
        &[Tick::Off, Tick::Off, Tick::Runs(1), Tick::Runs(0)],
    ),
];

/// The jobs of the dense run of two tasks.
const DENSE_JOBS: [Row; 5] = [
    (0, 0, 0, 1, &[]),
    (1, 0, 0, 2, &[]),
    (0, 4, 4, 1, &[]),
    (1, 6, 6, 2, &[]),
    (0, 8, 8, 1, &[]),
];

/// Its ticks.
const DENSE_TICKS: [Tick; 12] = [
    Tick::Runs(0),
    Tick::Runs(1),
    Tick::Runs(1),
    Tick::Idle,
    Tick::Runs(2),
    Tick::Idle,
    Tick::Runs(3),
    Tick::Runs(3),
    Tick::Runs(4),
    Tick::Idle,
    Tick::Idle,
    Tick::Idle,
];

/// Texts of the second version.
const SECOND: [Written; 7] = [
    (b"poet-run 2\njobs 0 ticks 0\nend\n", &[], &[]),
    // A dense run, one with a stated supply, and one with segments.
    (
        b"poet-run 2\njobs 5 ticks 12\nj 0 0 0 1\nj 1 0 0 2\nj 0 4 4 1\nj 1 6 6 2\nj 0 8 8 1\n\
        run 0 1\nrun 1 2\nidle 1\nrun 2 1\nidle 1\nrun 3 2\nrun 4 1\nidle 3\nend\n",
        &DENSE_JOBS,
        &DENSE_TICKS,
    ),
    (
        b"poet-run 2\njobs 1 ticks 8\nj 0 0 0 2\noff 2\nrun 0 2\noff 2\nidle 2\nend\n",
        &[(0, 0, 0, 2, &[])],
        &[
            Tick::Off,
            Tick::Off,
            Tick::Runs(0),
            Tick::Runs(0),
            Tick::Off,
            Tick::Off,
            Tick::Idle,
            Tick::Idle,
        ],
    ),
    (
        b"poet-run 2\njobs 1 ticks 2\nj 0 0 0 5 2 3\nrun 0 1\nidle 1\nend\n",
        &[(0, 0, 0, 5, &[2, 3])],
        &[Tick::Runs(0), Tick::Idle],
    ),
    (
        b"poet-run 2\njobs 1 ticks 2\nj 0 0 0 5 2 2 1\nrun 0 1\nidle 1\nend\n",
        &[(0, 0, 0, 5, &[2, 2, 1])],
        &[Tick::Runs(0), Tick::Idle],
    ),
    // The first job is released late.
    (
        b"poet-run 2\njobs 2 ticks 8\nj 0 0 3 2\nj 0 5 5 2\nidle 3\nrun 0 2\nrun 1 2\nidle 1\nend\n",
        &[(0, 0, 3, 2, &[]), (0, 5, 5, 2, &[])],
        &[
            Tick::Idle,
            Tick::Idle,
            Tick::Idle,
            Tick::Runs(0),
            Tick::Runs(0),
            Tick::Runs(1),
            Tick::Runs(1),
            Tick::Idle,
        ],
    ),
    // Numbers at the ends of their ranges.
    (
        b"poet-run 2\njobs 2 ticks 0\nj 1000000000 0 2000000000 5 2 0 1000000000\n\
        j 0 1000000000 0 1000000000\nend\n",
        &[
            (1_000_000_000, 0, 2_000_000_000, 5, &[2, 0, 1_000_000_000]),
            (0, 1_000_000_000, 0, 1_000_000_000, &[]),
        ],
        &[],
    ),
];

/// Bytes that are no run's text, and the line of the first byte that is wrong or missing.
const REFUSED: [(&[u8], u64); 23] = [
    // Two neighbours of the same tick.
    (b"poet-run 1\njobs 0 ticks 2\nidle 1\nidle 1\nend\n", 4),
    (
        b"poet-run 1\njobs 1 ticks 2\nj 0 0 1\nrun 0 1\nrun 0 1\nend\n",
        5,
    ),
    // More ticks than announced.
    (b"poet-run 1\njobs 0 ticks 2\nidle 3\n", 3),
    // Fewer.
    (b"poet-run 1\njobs 0 ticks 2\nidle 1\nend\n", 4),
    (b"poet-run 1\njobs 0 ticks 2\noff 0\n", 3),
    // There is no such job.
    (b"poet-run 1\njobs 0 ticks 2\nrun 0 1\n", 3),
    // The line of a job is missing.
    (b"poet-run 1\njobs 1 ticks 1\nidle 1\n", 3),
    (b"poet-run 1\njobs 20001 ticks 1\n", 2),
    (b"poet-run 1\njobs 0 ticks 100001\n", 2),
    (b"", 1),
    // CR LF.
    (b"poet-run 1\r\njobs 0 ticks 0\r\nend\r\n", 1),
    // The newline of `end` is missing, or something follows it.
    (b"poet-run 1\njobs 0 ticks 0\nend", 3),
    (b"poet-run 1\njobs 0 ticks 0\nend\n\n", 4),
    (b"poet-run 1\njobs 0 ticks 0\nend\ne", 4),
    // A leading zero.
    (b"poet-run 1\njobs 1 ticks 0\nj 0 0 01\nend\n", 3),
    // Spaces at a line's end, and twice in a row.
    (b"poet-run 1\njobs 1 ticks 0\nj 0 0 1 \nend\n", 3),
    (b"poet-run 1\njobs 0  ticks 0\nend\n", 2),
    (b"poet-run 1\njobs 1 ticks 0\nj 0 0 1000000001\nend\n", 3),
    // The arrival is above its range, though a release could be so.
    (b"poet-run 1\njobs 1 ticks 0\nj 0 1000000001 1\nend\n", 3),
    (
        b"poet-run 2\njobs 1 ticks 0\nj 0 1000000001 1000000001 1\nend\n",
        3,
    ),
    // There is no such version.
    (b"poet-run 3\njobs 0 ticks 0\nend\n", 1),
    // A release above its range, and none.
    (b"poet-run 2\njobs 1 ticks 0\nj 0 0 2000000001 1\nend\n", 3),
    (b"poet-run 2\njobs 1 ticks 0\nj 0 0 1\nend\n", 3),
];

fn make_jobs(alloc: Global, rows: &[Row]) -> Result<Vec<Job>, AllocError> {
    let mut jobs = Vec::new(alloc);
    for (task, arrival, release, cost, segs) in rows {
        jobs.push(Job {
            task: *task,
            arrival: *arrival,
            release: *release,
            cost: *cost,
            segs: Items::new(segs.to_vec(alloc)?),
        })?;
    }
    Ok(jobs)
}

fn make_run(alloc: Global, jobs: &[Row], ticks: &[Tick]) -> Result<Run, AllocError> {
    Ok(Run {
        jobs: Items::new(make_jobs(alloc, jobs)?),
        ticks: Items::new(ticks.to_vec(alloc)?),
    })
}

#[test]
fn runs_are_read_and_written(rt: HostRuntime) -> Result<(), Fail> {
    let alloc = rt.alloc();
    for (text, jobs, ticks) in FIRST {
        let run = make_run(alloc, jobs, ticks)?;
        assert_eq!(rt; read_run(alloc, text)?, run);
    }
    for (text, jobs, ticks) in SECOND {
        let run = make_run(alloc, jobs, ticks)?;
        let found = read_run(alloc, text)?;
        assert_eq!(rt; found, run);
        assert_eq!(rt; write_run(alloc, &found)?.as_slice(), text);
    }
    Ok(())
}

#[test]
fn malformed_runs_are_refused_at_their_line(rt: HostRuntime) {
    for (bytes, line) in REFUSED {
        let answer = read_run(rt.alloc(), bytes);
        assert_eq!(rt; answer, Err(TextRefusal::Line(line)));
    }
}
