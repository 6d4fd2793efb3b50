//! How `analyse` ends.
ghost use Rattle.std.specs.Prelude.{◌≡◌, ◌≤◌, IfOk};
ghost use Rattle.lists.specs.Limits.{greatest_number};
ghost use Rattle.task_sheet.specs.Sheets.{task_at};
ghost use Rattle.poet_cli.specs.Readings.{shelf_at};
ghost use Rattle.poet_cli.specs.Steps.{OneFile};
ghost use Rattle.poet_cli.specs.Works.{AnalyseDoes};

use crate::on_sheet::best;
use crate::reading::sheet_at;
use certificate::write_cert;
use lists::{Items, Text};
use poet_io::Shelf;
use poet_text::{Ending, Printed, Refusal, name_at, no_bound};
use solver::AnalyseRefusal;
use std::alloc::{AllocError, Global};
use task_sheet::Sheet;

/// A copy of a task's name.
fn name_of(alloc: Global, sheet: &Sheet, task: u32) -> Result<Text, AllocError>
    ensures { IfOk result (λ name. name ≡ (task_at sheet.now task).name) }
{
    Ok(Text::new(String::from_str(alloc, name_at(sheet, task))?))
}

/// What the analysis of a sheet comes to.
fn analysis(alloc: Global, sheet: &Sheet, horizon: u64) -> Ending
    requires { horizon ≤ greatest_number }
    ensures { AnalyseDoes horizon sheet.now result }
{
    match best(alloc, sheet, horizon) {
        Ok(cert) => match write_cert(alloc, &cert) {
            Ok(text) => Ok(Printed::Done(Items::new(text))),
            Err(_) => Err(Refusal::Memory),
        },
        Err(AnalyseRefusal::NoBound { task, part }) => match no_bound(alloc, sheet, task, part) {
            Ok(text) => Ok(Printed::JudgedNo(text)),
            Err(_) => Err(Refusal::Memory),
        },
        Err(AnalyseRefusal::Points { task }) => match name_of(alloc, sheet, task) {
            Ok(name) => Err(Refusal::Points(name)),
            Err(_) => Err(Refusal::Memory),
        },
        Err(AnalyseRefusal::Memory) => Err(Refusal::Memory),
    }
}

/// How `analyse` ends.
#[tactic(auto, using(crate::proofs::StepFacts::one_no_sheet, crate::proofs::StepFacts::one_read))]
pub fn analyse_ending<H: Shelf>(alloc: Global, sheet: &str, horizon: u64, shelf: &mut H) -> Ending
    requires { horizon ≤ greatest_number }
    ensures { OneFile sheet.now (AnalyseDoes horizon)
        (shelf_at H.files H.faults H.is_open H.log shelf.old)
        (shelf_at H.files H.faults H.is_open H.log shelf.new) result }
{
    let sheet = sheet_at(alloc, shelf, sheet)?;
    analysis(alloc, &sheet, horizon)
}
