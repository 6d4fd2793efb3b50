//! How `assign` ends.
ghost use Rattle.std.specs.Prelude.{◌≡◌, ◌≤◌, ◌++◌, length, OnOk, IfOk};
ghost use Rattle.lists.specs.Limits.{greatest_number};
ghost use Rattle.poet_cli.specs.AssignAnswers.{place_line, places_text, assigned_text};
ghost use Rattle.poet_cli.specs.Readings.{shelf_at};
ghost use Rattle.poet_cli.specs.Steps.{OneFile};
ghost use Rattle.poet_cli.specs.Works.{AssignDoes};

use crate::reading::sheet_at;
use assign::{AssignRefusal, Placed, assign};
use lists::Items;
use poet_io::Shelf;
use poet_text::{Ending, Printed, Refusal, no_order, push_task_line};
use preemption::PerTask;
use std::alloc::{AllocError, Global};
use task_sheet::{Sheet, Task};

/// Appends the line of a task and its place.
#[tactic(auto, unfolding(crate::specs::AssignAnswers::place_line, poet_text::specs::Printing::task_line))]
fn push_place(out: &mut Vec<u8>, task: &Task, place: Placed) -> Result<(), AllocError>
    ensures { OnOk result (out.new.items ≡ out.old.items ++ place_line task.now place) }
{
    push_task_line(
        out,
        task,
        " priority ",
        place.priority,
        " bound ",
        place.bound,
    )
}

/// Appends a line for each task.
fn push_places(out: &mut Vec<u8>, sheet: &Sheet, places: &[Placed]) -> Result<(), AllocError>
    requires { length places.now ≡ length sheet.now.tasks }
    ensures { OnOk result
        (out.new.items ≡ out.old.items ++ places_text sheet.now.tasks places.now) }
{
    for i in 0..sheet.len() {
        push_place(out, sheet.task(i), places[i as usize])?;
    }
    Ok(())
}

/// The places of the tasks.
#[tactic(auto, unfolding(crate::specs::AssignAnswers::assigned_text))]
fn assigned(alloc: Global, sheet: &Sheet, places: &[Placed]) -> Result<Items<u8>, AllocError>
    requires { length places.now ≡ length sheet.now.tasks }
    ensures { IfOk result (λ text. text ≡ assigned_text sheet.now places.now) }
{
    let mut text = Vec::from_slice(alloc, "assigned\n".as_bytes())?;
    push_places(&mut text, sheet, places)?;
    Ok(Items::new(text))
}

/// What the assignment of priorities comes to.
#[tactic(auto, using(crate::proofs::AssignFacts::places_told, crate::proofs::AssignFacts::no_order_told))]
fn assignment(alloc: Global, sheet: &Sheet, horizon: u64) -> Ending
    requires { horizon ≤ greatest_number }
    ensures { AssignDoes horizon sheet.now result }
{
    match assign::<PerTask, Sheet>(alloc, sheet, sheet, horizon) {
        Ok(places) => match assigned(alloc, sheet, places.as_slice()) {
            Ok(text) => Ok(Printed::Done(text)),
            Err(_) => Err(Refusal::Memory),
        },
        Err(AssignRefusal::NoOrder { level }) => match no_order(alloc, level) {
            Ok(text) => Ok(Printed::JudgedNo(text)),
            Err(_) => Err(Refusal::Memory),
        },
        Err(AssignRefusal::Memory) => Err(Refusal::Memory),
    }
}

/// How `assign` ends.
#[tactic(auto, using(crate::proofs::StepFacts::one_no_sheet, crate::proofs::StepFacts::one_read))]
pub fn assign_ending<H: Shelf>(alloc: Global, sheet: &str, horizon: u64, shelf: &mut H) -> Ending
    requires { horizon ≤ greatest_number }
    ensures { OneFile sheet.now (AssignDoes horizon)
        (shelf_at H.files H.faults H.is_open H.log shelf.old)
        (shelf_at H.files H.faults H.is_open H.log shelf.new) result }
{
    let sheet = sheet_at(alloc, shelf, sheet)?;
    assignment(alloc, &sheet, horizon)
}
