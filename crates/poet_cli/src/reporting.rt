//! How `report` ends.
ghost use Rattle.std.specs.Prelude.{◌≡◌, false, length, IfOk};
ghost use Rattle.certificate.specs.Text.{IsWithinGrammar};
ghost use Rattle.policy_more.specs.Meanings.{meaning_of};
ghost use Rattle.preemption.specs.Kinds.{per_task_meaning};
ghost use Rattle.supply.specs.Promises.{sbf_of};
ghost use Rattle.cert_check.specs.Verdicts.{bounds_of, AreSound};
ghost use Rattle.poet_text.specs.Endings.{IsSound};
ghost use Rattle.poet_cli.specs.Answers.{failed_for, judged_by};
ghost use Rattle.poet_cli.specs.Objections.{Fails};
ghost use Rattle.poet_cli.specs.Readings.{shelf_at};
ghost use Rattle.poet_cli.specs.ReportAnswers.{report_of};
ghost use Rattle.poet_cli.specs.Steps.{TwoFiles};
ghost use Rattle.poet_cli.specs.Works.{JudgeDoes};

use crate::on_sheet::first_failed;
use crate::reading::{read_file, sheet_at};
use certificate::{Cert, read_cert};
use lists::Items;
use poet_io::{Shelf, TextRefusal};
use poet_text::{Ending, Form, Printed, Refusal, Source, refused};
use report::{json_report, text_report};
use std::alloc::{AllocError, Global};
use task_sheet::Sheet;

/// The report on a certificate.
fn text_of(alloc: Global, sheet: &Sheet, cert: &Cert, form: Form) -> Result<Items<u8>, AllocError>
    requires tasks { length cert.now.entries ≡ length sheet.now.tasks }
    requires within { IsWithinGrammar cert.now }
    ensures { IfOk result (λ text. text ≡ report_of form sheet.now cert.now) }
{
    match form {
        Form::Text => Ok(Items::new(text_report(alloc, sheet, cert)?)),
        Form::Json => Ok(Items::new(json_report(alloc, sheet, cert)?)),
    }
}

/// What is printed of a certificate: the report, or the first condition that fails.
fn judgement(alloc: Global, sheet: &Sheet, cert: &Cert, form: Form) -> Result<Printed, AllocError>
    requires { IsWithinGrammar cert.now }
    ensures exact { IfOk result (λ print. print ≡ judged_by (report_of form) sheet.now cert.now
        (failed_for sheet.now false cert.now)) }
    ensures sound { IfOk result (IsSound
        (λ _. AreSound (meaning_of sheet.now.policy) per_task_meaning (sbf_of sheet.now.supply)
        sheet.now false (bounds_of cert.now))
        (Fails sheet.now false cert.now)) }
{
    if let Some(failed) = first_failed(alloc, sheet, cert)? {
        return Ok(Printed::JudgedNo(refused(alloc, sheet, &failed)?));
    }
    Ok(Printed::Done(text_of(alloc, sheet, cert, form)?))
}

/// How it ends over a sheet and the bytes of a certificate.
fn reported(alloc: Global, sheet: &Sheet, bytes: &[u8], form: Form) -> Ending
    ensures { JudgeDoes (report_of form) false sheet.now bytes.now result }
{
    let cert = match read_cert(alloc, bytes) {
        Ok(cert) => cert,
        Err(TextRefusal::Line(line)) => {
            return Err(Refusal::Text {
                source: Source::Certificate,
                line,
            });
        }
        Err(TextRefusal::Memory) => return Err(Refusal::Memory),
    };
    match judgement(alloc, sheet, &cert, form) {
        Ok(print) => Ok(print),
        Err(_) => Err(Refusal::Memory),
    }
}

/// How `report` ends.
#[tactic(auto, using(crate::proofs::StepFacts::two_no_sheet, crate::proofs::StepFacts::two_not_read, crate::proofs::StepFacts::two_read))]
pub fn report_ending<H: Shelf>(
    alloc: Global,
    sheet: &str,
    certificate: &str,
    form: Form,
    shelf: &mut H,
) -> Ending
    ensures { TwoFiles sheet.now Source.Certificate certificate.now
        (JudgeDoes (report_of form) false)
        (shelf_at H.files H.faults H.is_open H.log shelf.old)
        (shelf_at H.files H.faults H.is_open H.log shelf.new) result }
{
    let sheet = sheet_at(alloc, shelf, sheet)?;
    let bytes = read_file(alloc, shelf, certificate, Source::Certificate)?;
    reported(alloc, &sheet, &bytes, form)
}
