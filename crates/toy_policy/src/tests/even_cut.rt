//! The verdict by a kind of preemption of one's own, on a sheet of three tasks.
//!
//! By hand, for a, b and c of costs 1, 5 and 4, the more urgent first: a job of a is cut nowhere
//! inside, one of b at services 2 and 4, one of c at service 2. So the longest segments are 1, 2 and
//! 2, the thresholds 1, 5 and 3, and the rests 0, 0 and 4 - 3 = 1.
//!
//! - a: a segment of b or c blocks for 2 - 1 = 1 tick. The window needs 1 + 1 ticks, so L = 2. At
//!   offset 0 the need is 1 + 1, so x = 2, and with no rest R = 2.
//! - b: a segment of c blocks for 1 tick, and one job of a arrives in 7 ticks. The window needs
//!   1 + 1 + 5 = 7, so L = 7. The need is 1 + 5 + 1, so x = 7, and with no rest R = 7.
//! - c: no task blocks, and in 9 to 11 ticks 2 jobs of a and 1 of b arrive. The window needs
//!   2 + 5 + 4 = 11, so L = 11. The need is 3 + 2 + 5, so x = 10, and with the rest of 1 R = 11.
ghost use Rattle.preemption.specs.CutLaws.{Serves};

use super::{make_task, verdict_on};
use crate::{ByNumber, EvenCut};
use abstract_rta::{bound, points_bound};
use cert_check::Verdict;
use conditions::{Cond, Failed};
use lists::Items;
use preemption::{PerTask, Preemption};
use std::alloc::Global;
use std::process::Abort;
use std::test::Fail;
use supply::Unit;
use task_sheet::{Job, PolicyKind, Sheet, SupplySpec};

const T: bool = true;

const F: bool = false;

fn make_sheet(alloc: Global) -> Result<Sheet, Fail> {
    let mut tasks = Vec::new(alloc);
    tasks.push(make_task(alloc, "a", 1, 8, 3)?)?;
    tasks.push(make_task(alloc, "b", 5, 16, 2)?)?;
    tasks.push(make_task(alloc, "c", 4, 32, 1)?)?;
    Ok(Sheet::check(PolicyKind::Fp, SupplySpec::Unit, tasks)?)
}

/// The verdict on the certificate with these lines between its first and last.
fn verdict<M: Preemption>(alloc: Global, sheet: &Sheet, lines: &str) -> Result<Verdict, Fail>
    requires { Serves M.cuts sheet.now }
{
    let text = format!(in alloc; "poet-cert 1\ntasks 3\n{lines}end\n")?;
    Ok(verdict_on::<M>(alloc, sheet, text.as_bytes())?)
}

/// The longest segment and the threshold of task `i`.
fn task_row(sheet: &Sheet, i: u32) -> Option<(u64, u64)> {
    if i >= sheet.len() {
        return None;
    }
    let task = sheet.task(i);
    Some((EvenCut::longest(task), EvenCut::threshold(task)))
}

/// Asserts at which services up to 5 a job of this cost can be cut, and whether it fits a task of
/// cost 5.
fn assert_job(
    rt: &impl Abort,
    alloc: Global,
    cost: u64,
    cuts: [bool; 6],
    fits: bool,
) -> Result<(), Fail> {
    let task = make_task(alloc, "b", 5, 16, 2)?;
    let job = Job {
        task: 1,
        arrival: 0,
        release: 0,
        cost,
        segs: Items::new(Vec::new(alloc)),
    };
    for s in 0..6 {
        assert_eq!(rt;
            EvenCut::cuttable(&task, &job, s),
            cuts[s as usize],
            "at {s}"
        );
    }
    assert_eq!(rt; EvenCut::fits(&task, &job), fits);
    Ok(())
}

#[test]
fn meaning(rt: HostRuntime) -> Result<(), Fail> {
    let alloc = rt.alloc();
    let sheet = make_sheet(alloc)?;
    let rows = [
        task_row(&sheet, 0),
        task_row(&sheet, 1),
        task_row(&sheet, 2),
    ];
    assert_eq!(rt; rows, [Some((1, 1)), Some((2, 5)), Some((2, 3))]);
    assert_eq!(rt; EvenCut::NAME, "even");

    assert_job(&rt, alloc, 1, [T, T, T, T, T, T], T)?;
    assert_job(&rt, alloc, 3, [T, F, T, T, T, T], T)?;
    assert_job(&rt, alloc, 5, [T, F, T, F, T, T], T)?;
    assert_job(&rt, alloc, 6, [T, F, T, F, T, F], F)?;
    assert_job(&rt, alloc, 0, [T, T, T, T, T, T], F)?;
    Ok(())
}

#[test]
fn accepted(rt: HostRuntime) -> Result<(), Fail> {
    let alloc = rt.alloc();
    let sheet = make_sheet(alloc)?;
    let lines = "task 0 2 2 1\np 0 2\ntask 1 7 7 1\np 0 7\ntask 2 11 11 1\np 0 10\n";
    let bounds = Items::new(vec![in alloc; 2, 7, 11]?);
    let found = verdict::<EvenCut>(alloc, &sheet, lines)?;
    assert_eq!(rt; found, Verdict::Accepted(bounds));
    Ok(())
}

/// One less than the least is refused; and what holds where jobs are cut at every tick is too little.
#[test]
fn refused(rt: HostRuntime) -> Result<(), Fail> {
    let alloc = rt.alloc();
    let sheet = make_sheet(alloc)?;
    let at_every_tick = "task 0 1 1 1\np 0 1\ntask 1 6 6 1\np 0 6\ntask 2 11 11 1\np 0 11\n";
    let rows = [
        (at_every_tick, Failed::of_task(0, Cond::K3)),
        (
            "task 0 2 1 1\np 0 1\ntask 1 7 7 1\np 0 7\ntask 2 11 11 1\np 0 10\n",
            Failed::of_point(0, 0, Cond::K7),
        ),
        (
            "task 0 2 2 1\np 0 2\ntask 1 7 6 1\np 0 6\ntask 2 11 11 1\np 0 10\n",
            Failed::of_point(1, 0, Cond::K7),
        ),
        (
            "task 0 2 2 1\np 0 2\ntask 1 7 7 1\np 0 7\ntask 2 11 11 1\np 0 9\n",
            Failed::of_point(2, 0, Cond::K7),
        ),
        (
            "task 0 2 2 1\np 0 2\ntask 1 7 7 1\np 0 7\ntask 2 11 10 1\np 0 10\n",
            Failed::of_point(2, 0, Cond::K8),
        ),
    ];
    for (lines, failed) in rows {
        let found = verdict::<EvenCut>(alloc, &sheet, lines)?;
        assert_eq!(rt; found, Verdict::Refused(failed), "{lines}");
    }
    let bounds = Items::new(vec![in alloc; 1, 6, 11]?);
    let found = verdict::<PerTask>(alloc, &sheet, at_every_tick)?;
    assert_eq!(rt; found, Verdict::Accepted(bounds));
    Ok(())
}

#[test]
fn theorem() {
    bound::<ByNumber, EvenCut, Unit>();
    points_bound::<ByNumber, EvenCut, Unit>();
}
