//! How `promise` ends.
ghost use Rattle.poet_cli.specs.Readings.{shelf_at};
ghost use Rattle.poet_cli.specs.Steps.{OneFile};
ghost use Rattle.poet_cli.specs.Works.{PromiseDoes};

use crate::reading::sheet_at;
use poet_io::Shelf;
use poet_text::{Ending, Printed, Refusal, promise_text};
use std::alloc::Global;
use task_sheet::Sheet;

/// What a sheet promises of the processor.
fn promised(alloc: Global, sheet: &Sheet) -> Ending
    ensures { PromiseDoes sheet.now result }
{
    match promise_text(alloc, sheet.supply()) {
        Ok(text) => Ok(Printed::Done(text)),
        Err(_) => Err(Refusal::Memory),
    }
}

/// How `promise` ends.
#[tactic(auto, using(crate::proofs::StepFacts::one_no_sheet, crate::proofs::StepFacts::one_read))]
pub fn promise_ending<H: Shelf>(alloc: Global, sheet: &str, shelf: &mut H) -> Ending
    ensures { OneFile sheet.now PromiseDoes
        (shelf_at H.files H.faults H.is_open H.log shelf.old)
        (shelf_at H.files H.faults H.is_open H.log shelf.new) result }
{
    let sheet = sheet_at(alloc, shelf, sheet)?;
    promised(alloc, &sheet)
}
