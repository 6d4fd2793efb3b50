//! Worked terms of points: each wrong once, judged after the other conditions of their point, and
//! written out.
use crate::first_failures::{Row, assert_rows};
use certificate::{read_cert, write_cert};
use conditions::{Cond, fill_terms, with_room};
use policy::{Edf, Fp};
use preemption::PerTask;
use small_sheets::{TWO_DEADLINES, sheet_of};
use std::alloc::Global;
use std::process::Abort;
use std::test::Fail;

/// A job of `a` waits for one tick of `b`.
const NEVER_PREEMPTED: &str = "
policy = 'fp'
task = [
    { name = 'a', cost = 1, deadline = 4, priority = 2, period = 4 },
    { name = 'b', cost = 2, deadline = 6, priority = 1, period = 6, preemption = 'never' },
]";

const WITHOUT_TERMS: &str = "poet-cert 1\ntasks 2\ntask 0 2 2 1\np 0 2\ntask 1 3 3 1\np 0 2\nend\n";

const WITH_TERMS: &str =
    "poet-cert 2\ntasks 2\ntask 0 2 2 1\np 0 2 1 1 0 2\ntask 1 3 3 1\np 0 2 0 1 1 2\nend\n";

const WITH_A_WRONG_NEED: &str =
    "poet-cert 2\ntasks 2\ntask 0 2 2 1\np 0 2 1 1 0 3\ntask 1 3 3 1\np 0 2 0 1 1 2\nend\n";

/// Each term of `a` is wrong once, two of `b` are exchanged; the bound of `b` is too small for K8.
const OF_TERMS: [Row; 9] = [
    (WITH_TERMS, true, None),
    (WITHOUT_TERMS, true, None),
    (
        "poet-cert 2\ntasks 2\ntask 0 2 2 1\np 0 2 0 1 0 2\ntask 1 3 3 1\np 0 2 0 1 1 2\nend\n",
        false,
        Some((Cond::K10, Some(0), Some(0))),
    ),
    (
        "poet-cert 2\ntasks 2\ntask 0 2 2 1\np 0 2 1 2 0 2\ntask 1 3 3 1\np 0 2 0 1 1 2\nend\n",
        false,
        Some((Cond::K10, Some(0), Some(0))),
    ),
    (
        "poet-cert 2\ntasks 2\ntask 0 2 2 1\np 0 2 1 1 1 2\ntask 1 3 3 1\np 0 2 0 1 1 2\nend\n",
        false,
        Some((Cond::K10, Some(0), Some(0))),
    ),
    (
        WITH_A_WRONG_NEED,
        false,
        Some((Cond::K10, Some(0), Some(0))),
    ),
    (
        "poet-cert 2\ntasks 2\ntask 0 2 2 1\np 0 2 1 1 0 2\ntask 1 3 3 1\np 0 2 1 0 1 2\nend\n",
        false,
        Some((Cond::K10, Some(1), Some(0))),
    ),
    (
        "poet-cert 2\ntasks 2\ntask 0 2 2 1\np 0 2 1 1 0 2\ntask 1 3 2 1\np 0 2 0 1 1 3\nend\n",
        false,
        Some((Cond::K8, Some(1), Some(0))),
    ),
    (
        "poet-cert 2\ntasks 2\ntask 0 2 2 1\np 0 2 1 1 0 3\ntask 1 3 2 1\np 0 2 0 1 1 2\nend\n",
        false,
        Some((Cond::K10, Some(0), Some(0))),
    ),
];

const OF_TERMS_AT_TWO_OFFSETS: [Row; 3] = [
    (
        "poet-cert 2\ntasks 2\ntask 0 4 2 2\np 0 2 0 2 0 2\np 2 4 0 2 2 4\n\
        task 1 4 4 2\np 0 4 0 2 2 4\np 2 4 0 2 2 4\nend\n",
        true,
        None,
    ),
    (
        "poet-cert 2\ntasks 2\ntask 0 4 2 2\np 0 2 0 2 0 2\np 2 4 0 2 0 2\n\
        task 1 4 4 2\np 0 4 0 2 2 4\np 2 4 0 2 2 4\nend\n",
        false,
        Some((Cond::K10, Some(0), Some(2))),
    ),
    (
        "poet-cert 2\ntasks 2\ntask 0 4 2 1\np 0 2 0 2 0 3\n\
        task 1 4 4 2\np 0 4 0 2 2 4\np 2 4 0 2 2 4\nend\n",
        false,
        Some((Cond::K10, Some(0), Some(0))),
    ),
];

#[test]
fn terms_that_are_wrong(rt: HostRuntime) -> Result<(), Fail> {
    let alloc = rt.alloc();
    assert_rows::<Fp>(&rt, alloc, NEVER_PREEMPTED, &OF_TERMS)?;
    assert_rows::<Edf>(&rt, alloc, TWO_DEADLINES, &OF_TERMS_AT_TWO_OFFSETS)
}

/// The text of this certificate with its terms written out.
fn filled(rt: &impl Abort, alloc: Global, text: &str) -> Result<Vec<u8>, Fail> {
    let sheet = sheet_of(alloc, NEVER_PREEMPTED)?;
    let mut cert = with_room(alloc, read_cert(alloc, text.as_bytes())?)?;
    assert_eq!(rt; cert.entries.len(), sheet.len() as usize);
    fill_terms::<Fp, PerTask>(&sheet, &mut cert);
    Ok(write_cert(alloc, &cert)?)
}

#[test]
fn terms_that_are_written_out(rt: HostRuntime) -> Result<(), Fail> {
    let alloc = rt.alloc();
    for text in [WITHOUT_TERMS, WITH_TERMS, WITH_A_WRONG_NEED] {
        let found = filled(&rt, alloc, text)?;
        assert_eq!(rt; found.as_slice(), WITH_TERMS.as_bytes(), "{text}");
    }
    Ok(())
}
