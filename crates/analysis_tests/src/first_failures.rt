//! Worked certificates, of one task, of two under their deadlines, and of tasks with jitters, and the
//! first condition that each fails.
use certificate::read_cert;
use conditions::{Cond, first_failed};
use policy::{Edf, Fifo, Fp, Policy};
use preemption::PerTask;
use small_sheets::{JITTER, JITTER_BLOCKING, JITTER_POINTS, TWO_DEADLINES, sheet_of};
use std::alloc::Global;
use std::process::Abort;
use std::test::Fail;
use supply::Unit;

const ONE_TASK: &str = "
policy = 'fp'
task = [{ name = 'a', cost = 2, deadline = 5, priority = 1, period = 5 }]";

const SHORT_DEADLINE: &str = "
policy = 'fp'
task = [{ name = 'a', cost = 2, deadline = 1, priority = 1, period = 5 }]";

/// A condition, a task and a point.
pub(crate) type Found = Option<(Cond, Option<u32>, Option<u64>)>;

/// A certificate, whether deadlines are judged, and what is found.
pub(crate) type Row = (&'static str, bool, Found);

const OF_ONE_TASK: [Row; 8] = [
    (
        "poet-cert 1\ntasks 1\ntask 0 2 2 1\np 0 2\nend\n",
        false,
        None,
    ),
    (
        "poet-cert 1\ntasks 1\ntask 0 7 2 2\np 0 2\np 5 7\nend\n",
        false,
        None,
    ),
    (
        "poet-cert 1\ntasks 2\ntask 0 1 1 1\np 0 1\ntask 1 3 3 1\np 0 3\nend\n",
        false,
        Some((Cond::K1, None, None)),
    ),
    (
        "poet-cert 1\ntasks 1\ntask 0 1 2 1\np 0 2\nend\n",
        false,
        Some((Cond::K3, Some(0), None)),
    ),
    (
        "poet-cert 1\ntasks 1\ntask 0 2 2 1\np 1 2\nend\n",
        false,
        Some((Cond::K4, Some(0), Some(1))),
    ),
    (
        "poet-cert 1\ntasks 1\ntask 0 7 2 1\np 0 2\nend\n",
        false,
        Some((Cond::K5, Some(0), Some(0))),
    ),
    (
        "poet-cert 1\ntasks 1\ntask 0 2 1 1\np 0 2\nend\n",
        false,
        Some((Cond::K6, Some(0), Some(0))),
    ),
    (
        "poet-cert 1\ntasks 1\ntask 0 2 2 1\np 0 1\nend\n",
        false,
        Some((Cond::K7, Some(0), Some(0))),
    ),
];

const OF_A_SHORT_DEADLINE: [Row; 2] = [
    (
        "poet-cert 1\ntasks 1\ntask 0 2 2 1\np 0 2\nend\n",
        false,
        None,
    ),
    (
        "poet-cert 1\ntasks 1\ntask 0 2 2 1\np 0 2\nend\n",
        true,
        Some((Cond::K9, Some(0), None)),
    ),
];

const OF_TWO_DEADLINES: [Row; 3] = [
    (
        "poet-cert 1\ntasks 2\ntask 0 4 2 2\np 0 2\np 2 4\ntask 1 4 4 2\np 0 4\np 2 4\nend\n",
        false,
        None,
    ),
    (
        "poet-cert 1\ntasks 2\ntask 0 4 2 1\np 0 2\ntask 1 4 4 2\np 0 4\np 2 4\nend\n",
        false,
        Some((Cond::K5, Some(0), Some(0))),
    ),
    (
        "poet-cert 1\ntasks 2\ntask 0 4 2 2\np 0 2\np 2 3\ntask 1 4 4 2\np 0 4\np 2 4\nend\n",
        false,
        Some((Cond::K7, Some(0), Some(2))),
    ),
];

const OF_JITTER: [Row; 3] = [
    (
        "poet-cert 1\ntasks 1\ntask 0 2 5 1\np 0 2\nend\n",
        true,
        None,
    ),
    (
        "poet-cert 1\ntasks 1\ntask 0 2 2 1\np 0 2\nend\n",
        false,
        Some((Cond::K2, Some(0), None)),
    ),
    (
        "poet-cert 1\ntasks 1\ntask 0 2 4 1\np 0 2\nend\n",
        false,
        Some((Cond::K6, Some(0), Some(0))),
    ),
];

const OF_JITTER_POINTS: [Row; 3] = [
    (
        "poet-cert 1\ntasks 1\ntask 0 4 7 2\np 0 2\np 1 4\nend\n",
        false,
        None,
    ),
    (
        "poet-cert 1\ntasks 1\ntask 0 4 7 1\np 0 2\nend\n",
        false,
        Some((Cond::K5, Some(0), Some(0))),
    ),
    (
        "poet-cert 1\ntasks 1\ntask 0 4 6 2\np 0 2\np 1 4\nend\n",
        false,
        Some((Cond::K6, Some(0), Some(1))),
    ),
];

const OF_JITTER_BLOCKING: [Row; 3] = [
    (
        "poet-cert 1\ntasks 2\ntask 0 6 8 1\np 0 6\ntask 1 4 4 1\np 0 2\nend\n",
        true,
        None,
    ),
    (
        "poet-cert 1\ntasks 2\ntask 0 5 8 1\np 0 6\ntask 1 4 4 1\np 0 2\nend\n",
        false,
        Some((Cond::K3, Some(0), None)),
    ),
    (
        "poet-cert 1\ntasks 2\ntask 0 6 8 1\np 0 6\ntask 1 4 3 1\np 0 2\nend\n",
        false,
        Some((Cond::K8, Some(1), Some(0))),
    ),
];

/// The first condition that fails of the certificate of this text.
fn judged<P: Policy>(
    alloc: Global,
    sheet: &str,
    text: &str,
    deadlines: bool,
) -> Result<Found, Fail> {
    let sheet = sheet_of(alloc, sheet)?;
    let cert = read_cert(alloc, text.as_bytes())?;
    let failed = first_failed::<P, PerTask, Unit>(&sheet, &Unit, &cert, deadlines);
    Ok(failed.map(|it| (it.cond, it.task, it.point)))
}

pub(crate) fn assert_rows<P: Policy>(
    rt: &impl Abort,
    alloc: Global,
    sheet: &str,
    rows: &[Row],
) -> Result<(), Fail> {
    for (text, deadlines, wanted) in rows {
        let found = judged::<P>(alloc, sheet, text, *deadlines)?;
        assert_eq!(rt; found, *wanted, "{text}");
    }
    Ok(())
}

#[test]
fn first_conditions_that_fail(rt: HostRuntime) -> Result<(), Fail> {
    let alloc = rt.alloc();
    assert_rows::<Fp>(&rt, alloc, ONE_TASK, &OF_ONE_TASK)?;
    assert_rows::<Fp>(&rt, alloc, SHORT_DEADLINE, &OF_A_SHORT_DEADLINE)?;
    assert_rows::<Edf>(&rt, alloc, TWO_DEADLINES, &OF_TWO_DEADLINES)?;
    assert_rows::<Fp>(&rt, alloc, JITTER, &OF_JITTER)?;
    assert_rows::<Fp>(&rt, alloc, JITTER_POINTS, &OF_JITTER_POINTS)?;
    assert_rows::<Fifo>(&rt, alloc, JITTER_BLOCKING, &OF_JITTER_BLOCKING)
}
