//! What the kinds of preemption mean, on tasks of cost 5 and small jobs.
use lists::Items;
use preemption::{FixedCut, FloatingCut, FullCut, NeverCut, PerTask, Preemption};
use small_tasks::{Draft, PLAIN, Pieces, make_tasks};
use std::alloc::Global;
use std::process::Abort;
use std::test::Fail;
use task_sheet::{Job, PolicyKind, Sheet, SupplySpec, Task};

const T: bool = true;

const F: bool = false;

/// A job's cost and segments, whether it can be cut at services 0 to 5, and whether it fits.
type Row = (u64, &'static [u64], [bool; 6], bool);

const FULL: [Row; 2] = [
    (5, &[], [T, T, T, T, T, T], T),
    (3, &[0, 3], [T, T, T, T, T, T], F),
];

const NEVER: [Row; 2] = [
    (5, &[], [T, F, F, F, F, T], T),
    (3, &[0, 3], [T, F, F, T, T, T], F),
];

const FIXED: [Row; 4] = [
    (5, &[2, 3], [T, F, T, F, F, T], T),
    (3, &[0, 3], [T, F, F, T, T, T], T),
    (5, &[2, 2, 1], [T, F, T, F, T, T], F),
    (4, &[u64::MAX, 5], [T, F, F, F, T, T], F),
];

const FLOATING: [Row; 4] = [
    (5, &[2, 3], [T, F, T, F, F, T], T),
    (5, &[2, 2, 1], [T, F, T, F, T, T], T),
    (3, &[0, 3], [T, F, F, T, T, T], F),
    (4, &[u64::MAX, 5], [T, F, F, F, T, T], F),
];

fn row_is<M: Preemption>(
    rt: &impl Abort,
    alloc: Global,
    task: &Task,
    (cost, segs, cuts, fits): Row,
) -> Result<(), Fail> {
    let segs = Items::new(segs.to_vec(alloc)?);
    let job = Job {
        task: 0,
        arrival: 0,
        release: 0,
        cost,
        segs,
    };
    for s in 0..6 {
        assert_eq!(rt; M::cuttable(task, &job, s), cuts[s as usize], "at {s}");
    }
    assert_eq!(rt; M::fits(task, &job), fits);
    Ok(())
}

/// Asserts the longest segment and the threshold of a task, and the rows of jobs, by the kind and
/// by the task.
fn kind_is<M: Preemption>(
    rt: &impl Abort,
    alloc: Global,
    pieces: Pieces<'_>,
    numbers: (u64, u64),
    rows: &[Row],
) -> Result<(), Fail> {
    let tasks = make_tasks(alloc, &[Draft { pieces, ..PLAIN }])?;
    let sheet = Sheet::check(PolicyKind::Fp, SupplySpec::Unit, tasks)?;
    assert!(rt; 0 < sheet.len());
    let task = sheet.task(0);
    assert_eq!(rt; (PerTask::longest(task), PerTask::threshold(task)), numbers);
    for row in rows {
        row_is::<M>(rt, alloc, task, *row)?;
        row_is::<PerTask>(rt, alloc, task, *row)?;
    }
    Ok(())
}

#[test]
fn the_table(rt: HostRuntime) -> Result<(), Fail> {
    let alloc = rt.alloc();
    let names = [
        FullCut::NAME,
        NeverCut::NAME,
        FixedCut::NAME,
        FloatingCut::NAME,
        PerTask::NAME,
    ];
    assert_eq!(rt; names, ["full", "never", "fixed", "floating", "per-task"]);
    kind_is::<FullCut>(&rt, alloc, Pieces::Full, (1, 5), &FULL)?;
    kind_is::<NeverCut>(&rt, alloc, Pieces::Never, (5, 1), &NEVER)?;
    kind_is::<FixedCut>(&rt, alloc, Pieces::Fixed(&[2, 3]), (3, 3), &FIXED)?;
    kind_is::<FloatingCut>(&rt, alloc, Pieces::Floating(3), (3, 5), &FLOATING)
}
