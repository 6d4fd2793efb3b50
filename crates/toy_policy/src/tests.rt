//! The verdict by a policy of one's own, on a sheet of two tasks.
ghost use Rattle.std.specs.Prelude.{◌≡◌, ◌≤◌, true};
ghost use Rattle.preemption.specs.CutLaws.{Serves};
ghost use Rattle.preemption.specs.Kinds.{full_meaning};

use crate::ByNumber;
use cert_check::{Checker, Verdict};
use curve::Prefix;
use lists::{Items, Text};
use meter::Meter;
use policy::Policy;
use preemption::{FullCut, PerTask, Preemption};
use std::alloc::{AllocError, Global};
use std::test::Fail;
use supply::Unit;
use task_sheet::{Cut, PolicyKind, Sheet, SupplySpec, Task};

mod even_cut;

const CERT: &[u8] = b"poet-cert 1\ntasks 2\ntask 0 1 1 1\np 0 1\ntask 1 3 3 1\np 0 3\nend\n";

/// A task that arrives once in each period, whose deadline is the period.
fn make_task(alloc: Global, name: &str, cost: u64, period: u64, priority: u64) -> Result<Task, Fail>
    requires low { 1 ≤ period }
    requires high { period ≤ 1000000000 }
{
    Ok(Task {
        name: Text::new(format!(in alloc; "{name}")?),
        cost,
        deadline: period,
        priority,
        jitter: 0,
        point: 0,
        curve: Prefix::periodic(alloc, period)?,
        cut: Cut::Full,
    })
}

fn make_sheet(alloc: Global) -> Result<Sheet, Fail> {
    let mut tasks = Vec::new(alloc);
    tasks.push(make_task(alloc, "a", 1, 4, 2)?)?;
    tasks.push(make_task(alloc, "b", 2, 6, 1)?)?;
    Ok(Sheet::check(PolicyKind::Fp, SupplySpec::Unit, tasks)?)
}

/// Whether each task can be cut at every tick.
fn is_full(sheet: &Sheet) -> bool
    ensures { result ≡ true → Serves full_meaning sheet.now }
{
    for i in 0..sheet.len() {
        if !matches!(sheet.task(i).cut, Cut::Full) {
            return false;
        }
    }
    true
}

/// The verdict on a text, with deadlines.
fn verdict_on<M: Preemption>(
    alloc: Global,
    sheet: &Sheet,
    text: &[u8],
) -> Result<Verdict, AllocError>
    requires { Serves M.cuts sheet.now }
{
    let mut checker = Checker::<ByNumber, M, Unit>::new(alloc, sheet, &Unit, true)?;
    checker.feed(text);
    Ok(checker.finish())
}

#[test]
fn accepted(rt: HostRuntime) -> Result<(), Fail> {
    let alloc = rt.alloc();
    let sheet = make_sheet(alloc)?;
    let wanted = Verdict::Accepted(Items::new(vec![in alloc; 1, 3]?));
    assert_eq!(rt; ByNumber::NAME, "by-number");

    let by_task = verdict_on::<PerTask>(alloc, &sheet, CERT)?;
    assert_eq!(rt; by_task, wanted);

    assert!(rt; is_full(&sheet));
    if is_full(&sheet) {
        let full = verdict_on::<FullCut>(alloc, &sheet, CERT)?;
        assert_eq!(rt; full, wanted);
    }
    Ok(())
}

#[test]
fn metered(rt: HostRuntime) -> Result<(), Fail> {
    let alloc = rt.alloc();
    let sheet = make_sheet(alloc)?;
    assert_eq!(rt; sheet.len(), 2);
    if sheet.len() == 2 {
        let mut meter = Meter::<ByNumber, PerTask>::new(alloc, &sheet)?;
        assert_eq!(rt; meter.need(), 1);
        // Of `b` only its own jobs tell offsets apart, and all of `a` count.
        meter.open(1);
        assert_eq!(rt; meter.next_point(100), Some(6));
        meter.move_to(0, 3);
        assert_eq!(rt; meter.need(), 3);
        meter.move_to(6, 5);
        assert_eq!(rt; meter.need(), 6);
        meter.move_to(6, 4);
        assert_eq!(rt; meter.need(), 5);
    }
    Ok(())
}
