//! Copies of what a sheet says.
ghost use Rattle.std.specs.Prelude.{◌≡◌, IfOk};

use crate::tasks::{Cut, SupplySpec, Task};
use lists::{Items, Text};
use std::alloc::{AllocError, Global};

fn copy_numbers(alloc: Global, numbers: &Items<u64>) -> Result<Items<u64>, AllocError>
    ensures { IfOk result (λ items. items ≡ numbers.now) }
{
    Ok(Items::new(Vec::from_slice(alloc, numbers.as_slice())?))
}

pub fn copy_supply(alloc: Global, supply: &SupplySpec) -> Result<SupplySpec, AllocError>
    ensures { IfOk result (λ spec. spec ≡ supply.now) }
{
    match supply {
        SupplySpec::Unit => Ok(SupplySpec::Unit),
        SupplySpec::Promised { horizon, times } => Ok(SupplySpec::Promised {
            horizon: *horizon,
            times: copy_numbers(alloc, times)?,
        }),
    }
}

fn copy_cut(alloc: Global, cut: &Cut) -> Result<Cut, AllocError>
    ensures { IfOk result (λ c. c ≡ cut.now) }
{
    match cut {
        Cut::Full => Ok(Cut::Full),
        Cut::Never => Ok(Cut::Never),
        Cut::Fixed(segments) => Ok(Cut::Fixed(copy_numbers(alloc, segments)?)),
        Cut::Floating(longest) => Ok(Cut::Floating(*longest)),
    }
}

fn copy_task(alloc: Global, task: &Task) -> Result<Task, AllocError>
    ensures { IfOk result (λ t. t ≡ task.now) }
{
    Ok(Task {
        name: Text::new(String::from_str(alloc, task.name.as_str())?),
        cost: task.cost,
        deadline: task.deadline,
        priority: task.priority,
        jitter: task.jitter,
        point: task.point,
        curve: task.curve.copy(alloc)?,
        cut: copy_cut(alloc, &task.cut)?,
    })
}

pub fn copy_tasks(alloc: Global, tasks: &[Task]) -> Result<Vec<Task>, AllocError>
    ensures { IfOk result (λ copies. copies.items ≡ tasks.now) }
{
    let mut copies = Vec::new(alloc);
    for task in tasks {
        copies.push(copy_task(alloc, task)?)?;
    }
    Ok(copies)
}
