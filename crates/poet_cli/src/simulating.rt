//! How `simulate` ends.
ghost use Rattle.std.specs.Prelude.{◌≤◌};
ghost use Rattle.lists.specs.Limits.{most_ticks};
ghost use Rattle.poet_cli.specs.Readings.{shelf_at};
ghost use Rattle.poet_cli.specs.Steps.{OneFile};
ghost use Rattle.poet_cli.specs.Works.{SimulateDoes};

use crate::on_sheet::simulation;
use crate::reading::sheet_at;
use lists::Items;
use poet_io::Shelf;
use poet_text::{Ending, Printed, Refusal};
use run_text::write_run;
use simulated_run::Mode;
use simulator::SimRefusal;
use std::alloc::Global;
use task_sheet::Sheet;

/// What the simulation of a sheet comes to.
fn simulated(alloc: Global, sheet: &Sheet, mode: Mode, ticks: u64) -> Ending
    requires { ticks ≤ most_ticks }
    ensures { SimulateDoes mode ticks sheet.now result }
{
    match simulation(alloc, sheet, mode, ticks) {
        Ok(run) => match write_run(alloc, &run) {
            Ok(text) => Ok(Printed::Done(Items::new(text))),
            Err(_) => Err(Refusal::Memory),
        },
        Err(SimRefusal::Jobs) => Err(Refusal::Jobs),
        Err(SimRefusal::Segments) => Err(Refusal::Segments),
        Err(SimRefusal::Memory) => Err(Refusal::Memory),
    }
}

/// How `simulate` ends.
#[tactic(auto, using(crate::proofs::StepFacts::one_no_sheet, crate::proofs::StepFacts::one_read))]
pub fn simulate_ending<H: Shelf>(
    alloc: Global,
    sheet: &str,
    mode: Mode,
    ticks: u64,
    shelf: &mut H,
) -> Ending
    requires { ticks ≤ most_ticks }
    ensures { OneFile sheet.now (SimulateDoes mode ticks)
        (shelf_at H.files H.faults H.is_open H.log shelf.old)
        (shelf_at H.files H.faults H.is_open H.log shelf.new) result }
{
    let sheet = sheet_at(alloc, shelf, sheet)?;
    simulated(alloc, &sheet, mode, ticks)
}
