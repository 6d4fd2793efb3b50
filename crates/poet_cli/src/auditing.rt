//! How `audit` ends.
ghost use Rattle.std.specs.Prelude.{◌≡◌, IfOk};
ghost use Rattle.run_text.specs.Text.{IsWithinLimits};
ghost use Rattle.poet_text.specs.Endings.{IsSound};
ghost use Rattle.poet_text.specs.RunPrinting.{audit_print, IsPrintableVerdict};
ghost use Rattle.poet_cli.specs.RunAnswers.{audit_for};
ghost use Rattle.poet_cli.specs.Headline.{RunComplies};
ghost use Rattle.poet_cli.specs.Objections.{RunBreaks};
ghost use Rattle.poet_cli.specs.Readings.{shelf_at};
ghost use Rattle.poet_cli.specs.Steps.{TwoFiles};
ghost use Rattle.poet_cli.specs.Works.{AuditDoes};

use crate::on_sheet::verdict_on;
use crate::reading::{read_file, sheet_at};
use poet_io::{Shelf, TextRefusal};
use poet_text::{Ending, Printed, Refusal, Source, print_of};
use run_model::Run;
use run_text::read_run;
use std::alloc::{AllocError, Global};
use task_sheet::Sheet;

/// What is printed of a run.
fn print_on(alloc: Global, sheet: &Sheet, run: &Run) -> Result<Printed, AllocError>
    requires { IsWithinLimits run.now }
    ensures exact { IfOk result (λ print.
        print ≡ audit_print sheet.now (audit_for sheet.now run.now)) }
    ensures sound { IfOk result
        (IsSound (λ _. RunComplies sheet.now run.now) (λ _. RunBreaks sheet.now run.now)) }
{
    let verdict = verdict_on(alloc, sheet, run)?;
    print_of(alloc, sheet, &verdict)
}

/// How `audit` ends, over a sheet and the bytes of a run.
fn audited(alloc: Global, sheet: &Sheet, bytes: &[u8]) -> Ending
    ensures { AuditDoes sheet.now bytes.now result }
{
    let run = match read_run(alloc, bytes) {
        Ok(run) => run,
        Err(TextRefusal::Line(line)) => {
            return Err(Refusal::Text {
                source: Source::Run,
                line,
            });
        }
        Err(TextRefusal::Memory) => return Err(Refusal::Memory),
    };
    match print_on(alloc, sheet, &run) {
        Ok(print) => Ok(print),
        Err(_) => Err(Refusal::Memory),
    }
}

/// How `audit` ends.
#[tactic(auto, using(crate::proofs::StepFacts::two_no_sheet, crate::proofs::StepFacts::two_not_read, crate::proofs::StepFacts::two_read))]
pub fn audit_ending<H: Shelf>(alloc: Global, sheet: &str, run: &str, shelf: &mut H) -> Ending
    ensures { TwoFiles sheet.now Source.Run run.now AuditDoes
        (shelf_at H.files H.faults H.is_open H.log shelf.old)
        (shelf_at H.files H.faults H.is_open H.log shelf.new) result }
{
    let sheet = sheet_at(alloc, shelf, sheet)?;
    let bytes = read_file(alloc, shelf, run, Source::Run)?;
    audited(alloc, &sheet, &bytes)
}
