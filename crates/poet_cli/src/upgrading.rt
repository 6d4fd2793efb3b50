//! How `upgrade` ends.
ghost use Rattle.std.specs.Prelude.{◌≡◌, length};
ghost use Rattle.certificate.specs.Text.{IsWithinGrammar};
ghost use Rattle.poet_cli.specs.Readings.{shelf_at};
ghost use Rattle.poet_cli.specs.Steps.{TwoFiles};
ghost use Rattle.poet_cli.specs.Works.{UpgradeDoesOf, UpgradeDoes};

use crate::on_sheet::with_terms;
use crate::reading::{read_file, sheet_at};
use certificate::{Cert, read_cert, text_len, write_cert};
use conditions::{Cond, Failed};
use lists::Items;
use poet_io::{Shelf, TextRefusal};
use poet_text::{Ending, Printed, Refusal, Source, refused};
use std::alloc::Global;
use task_sheet::Sheet;

/// How it ends over a certificate with an entry for each task.
#[tactic(auto, using(crate::proofs::UpgradeFacts::upgraded_long, crate::proofs::UpgradeFacts::upgraded_done))]
fn upgrade_counted(alloc: Global, sheet: &Sheet, cert: Cert) -> Ending
    requires tasks { length cert.entries ≡ length sheet.now.tasks }
    requires fits { IsWithinGrammar cert }
    ensures { UpgradeDoesOf sheet.now cert result }
{
    let cert = match with_terms(alloc, sheet, cert) {
        Ok(cert) => cert,
        Err(_) => return Err(Refusal::Memory),
    };
    if text_len(&cert) > Source::Certificate.limit() as u64 {
        return Err(Refusal::LongUpgrade);
    }
    match write_cert(alloc, &cert) {
        Ok(text) => Ok(Printed::Done(Items::new(text))),
        Err(_) => Err(Refusal::Memory),
    }
}

/// How it ends over a certificate.
#[tactic(auto, using(crate::proofs::UpgradeFacts::upgraded_refused))]
fn upgrade(alloc: Global, sheet: &Sheet, cert: Cert) -> Ending
    requires { IsWithinGrammar cert }
    ensures { UpgradeDoesOf sheet.now cert result }
{
    if cert.entries.len() == sheet.len() as usize {
        return upgrade_counted(alloc, sheet, cert);
    }
    match refused(alloc, sheet, &Failed::of_cert(Cond::K1)) {
        Ok(text) => Ok(Printed::JudgedNo(text)),
        Err(_) => Err(Refusal::Memory),
    }
}

/// How it ends over a sheet and the bytes of a certificate.
#[tactic(auto, using(crate::proofs::UpgradeFacts::upgrade_read))]
fn upgraded(alloc: Global, sheet: &Sheet, bytes: &[u8]) -> Ending
    ensures { UpgradeDoes sheet.now bytes.now result }
{
    match read_cert(alloc, bytes) {
        Ok(cert) => upgrade(alloc, sheet, cert),
        Err(TextRefusal::Line(line)) => Err(Refusal::Text {
            source: Source::Certificate,
            line,
        }),
        Err(TextRefusal::Memory) => Err(Refusal::Memory),
    }
}

/// How `upgrade` ends.
#[tactic(auto, using(crate::proofs::StepFacts::two_no_sheet, crate::proofs::StepFacts::two_not_read, crate::proofs::StepFacts::two_read))]
pub fn upgrade_ending<H: Shelf>(
    alloc: Global,
    sheet: &str,
    certificate: &str,
    shelf: &mut H,
) -> Ending
    ensures { TwoFiles sheet.now Source.Certificate certificate.now UpgradeDoes
        (shelf_at H.files H.faults H.is_open H.log shelf.old)
        (shelf_at H.files H.faults H.is_open H.log shelf.new) result }
{
    let sheet = sheet_at(alloc, shelf, sheet)?;
    let bytes = read_file(alloc, shelf, certificate, Source::Certificate)?;
    upgraded(alloc, &sheet, &bytes)
}
