//! Many tasks: of equal ones each level goes to the first that is left.
ghost use Rattle.std.specs.Prelude.{◌≤◌, ◌<◌};

use assign::{AssignRefusal, Placed, assign};
use curve::Prefix;
use lists::Text;
use preemption::PerTask;
use std::alloc::{AllocError, Global};
use std::test::Fail;
use supply::Unit;
use task_sheet::{Cut, PolicyKind, Sheet, SheetRefusal, SupplySpec, Task};

const MANY: u32 = 256;

/// A task of cost 1, of which a job comes each 1000 ticks.
fn make_task(alloc: Global, i: u32, deadline: u64) -> Result<Task, AllocError> {
    Ok(Task {
        name: Text::new(format!(in alloc; "t{i}")?),
        cost: 1,
        deadline,
        priority: 0,
        jitter: 0,
        point: 0,
        curve: Prefix::periodic(alloc, 1000)?,
        cut: Cut::Full,
    })
}

/// The deadline of a task is its number, counted from 1, but no less than `least` and no more than
/// `most`.
fn make_sheet(alloc: Global, least: u64, most: u64) -> Result<Sheet, SheetRefusal> {
    let mut tasks = Vec::new(alloc);
    for i in 0..MANY {
        let deadline = (i as u64 + 1).max(least).min(most);
        tasks.push(make_task(alloc, i, deadline)?)?;
    }
    Sheet::check(PolicyKind::Edf, SupplySpec::Unit, tasks)
}

/// The lowest has to wait for all.
#[test]
fn many_equal_tasks(rt: HostRuntime) -> Result<(), Fail> {
    let alloc = rt.alloc();
    let sheet = make_sheet(alloc, MANY as u64, MANY as u64)?;
    let places = assign::<PerTask, Unit>(alloc, &sheet, &Unit, 1000)?;
    assert_eq!(rt; places.len(), MANY as usize);
    for (i, place) in places.iter().enumerate() {
        let placed = Placed {
            priority: i as u64 + 1,
            bound: MANY as u64 - i as u64,
        };
        assert_eq!(rt; *place, placed);
    }
    Ok(())
}

/// Each level goes to the last that is left, and all others are tried before.
#[test]
fn many_tasks_in_turn(rt: HostRuntime) -> Result<(), Fail> {
    let alloc = rt.alloc();
    let sheet = make_sheet(alloc, 1, MANY as u64)?;
    let places = assign::<PerTask, Unit>(alloc, &sheet, &Unit, 1000)?;
    assert_eq!(rt; places.len(), MANY as usize);
    for (i, place) in places.iter().enumerate() {
        let placed = Placed {
            priority: MANY as u64 - i as u64,
            bound: i as u64 + 1,
        };
        assert_eq!(rt; *place, placed);
    }
    Ok(())
}

#[test]
fn one_too_many(rt: HostRuntime) -> Result<(), Fail> {
    let alloc = rt.alloc();
    let sheet = make_sheet(alloc, MANY as u64 - 1, MANY as u64 - 1)?;
    let refused = assign::<PerTask, Unit>(alloc, &sheet, &Unit, 1000).err();
    assert_eq!(rt; refused, Some(AssignRefusal::NoOrder { level: 1 }));
    Ok(())
}
