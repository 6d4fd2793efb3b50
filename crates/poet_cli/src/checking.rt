//! Judging the certificate of a file, and `check`, which ends so.
ghost use Rattle.std.specs.Prelude.{◌≡◌, ◌≢◌, [], ◌∷◌, Some, Err, IfOk, IfErr};
ghost use Rattle.preemption.specs.Kinds.{per_task_meaning};
ghost use Rattle.supply.specs.Promises.{sbf_of};
ghost use Rattle.cert_check.specs.Standing.{IsAt};
ghost use Rattle.poet_text.specs.Words.{CheckOf};
ghost use Rattle.poet_text.specs.declared.refusal.Source.TheVariants as source;
ghost use Rattle.poet_text.specs.declared.refusal.Refusal.TheVariants.{Memory};
ghost use Rattle.poet_text.specs.Tellings.{outlets};
ghost use Rattle.poet_cli.specs.Openings.{OpensFront};
ghost use Rattle.poet_cli.specs.Origins.{WasPrinted};
ghost use Rattle.poet_cli.specs.Readings.{shelf_at, IsFileReading};
ghost use Rattle.poet_cli.specs.CertVerdicts.{rest_of, WasFed, MayRest, RestHeadline, RestObjection, Judged, JudgedUnless};
ghost use Rattle.poet_cli.specs.Clauses.{outside, Answers, Did, LeavesShelf};

use crate::on_sheet::judged_on;
use crate::reading::sheet_at;
use crate::verdict_telling::tell_verdict;
use cert_check::Checker;
use certificate::text_has_one_reading;
use poet_io::{Eater, PourRefusal, Shelf, Sink, pour};
use poet_text::{Refusal, Source, tell};
use policy::Policy;
use preemption::{PerTask, Preemption};
use std::alloc::Global;
use supply::Supply;
use task_sheet::Sheet;

/// Feeds an eater the certificate of a file.
#[tactic(auto, using(crate::proofs::PourFacts::poured_whole, crate::proofs::PourFacts::poured_fault, crate::proofs::PourFacts::poured_absent, crate::proofs::PourFacts::poured_long))]
fn feed_file<F: Eater, H: Shelf>(eater: &mut F, name: &str, shelf: &mut H) -> Result<(), Refusal>
    ensures fed { IfOk result (λ _. WasFed F.stands eater.old eater.new name.now
        (shelf_at H.files H.faults H.is_open H.log shelf.old)
        (shelf_at H.files H.faults H.is_open H.log shelf.new)) }
    ensures stopped { IfErr result (λ refusal. IsFileReading source.Certificate name.now
        (shelf_at H.files H.faults H.is_open H.log shelf.old)
        (shelf_at H.files H.faults H.is_open H.log shelf.new) (Err refusal)) }
    ensures no_memory { IfErr result (λ refusal. refusal ≢ Memory) }
{
    match pour(shelf, name, Source::Certificate.limit(), eater) {
        Ok(()) => Ok(()),
        Err(PourRefusal::Fault) => Err(Refusal::Read(Source::Certificate)),
        Err(PourRefusal::Absent) => Err(Refusal::Read(Source::Certificate)),
        Err(PourRefusal::TooLong) => Err(Refusal::Limit(Source::Certificate)),
    }
}

/// Judges the certificate of a file, tells what came of it, and answers the status.
fn judge_file<P: Policy, M: Preemption, S: Supply, H: Shelf, O: Sink, E: Sink>(
    checker: Checker<'_, P, M, S>,
    sheet: &Sheet,
    name: &str,
    shelf: &mut H,
    out: &mut O,
    err: &mut E,
) -> u8
    requires fed { IsAt P.meaning M.cuts S.sbf checker (record {
      sheet = sheet.now;
      supply = checker.supply;
      deadlines = checker.deadlines;
    }) [] }
    requires supplied { S.sbf checker.supply ≡ sbf_of sheet.now.supply }
    ensures did { Judged P.meaning M.cuts sheet.now checker.entry.deadlines name.now
        (outside (shelf_at H.files H.faults H.is_open H.log shelf.old)
        (outlets O.written O.faults E.written E.faults out.old err.old))
        (outside (shelf_at H.files H.faults H.is_open H.log shelf.new)
        (outlets O.written O.faults E.written E.faults out.new err.new)) result }
{
    let mut checker = checker;
    match feed_file(&mut checker, name, shelf) {
        Ok(()) => tell_verdict(sheet, checker.finish(), out, err),
        Err(refusal) => tell(&Err(refusal), out, err),
    }
}

/// Judges the certificate of a file, tells what came of it, and answers the status: what `check`
/// does once the sheet was read.
///
/// The checker was made for this sheet and what it promises, and was fed nothing. No memory is
/// taken, but what the shelf and the sinks take.
pub fn judge<P: Policy, M: Preemption, S: Supply, H: Shelf, O: Sink, E: Sink>(
    checker: Checker<'_, P, M, S>,
    sheet: &Sheet,
    name: &str,
    shelf: &mut H,
    out: &mut O,
    err: &mut E,
) -> u8
    requires fed { IsAt P.meaning M.cuts S.sbf checker (record {
      sheet = sheet.now;
      supply = checker.supply;
      deadlines = checker.deadlines;
    }) [] }
    requires supplied { S.sbf checker.supply ≡ sbf_of sheet.now.supply }
    ensures answers { Answers
        (rest_of P.meaning M.cuts sheet.now checker.entry.deadlines name.now) MayRest
        (outside (shelf_at H.files H.faults H.is_open H.log shelf.old)
        (outlets O.written O.faults E.written E.faults out.old err.old))
        (outside (shelf_at H.files H.faults H.is_open H.log shelf.new)
        (outlets O.written O.faults E.written E.faults out.new err.new)) result }
    ensures did { Judged P.meaning M.cuts sheet.now checker.entry.deadlines name.now
        (outside (shelf_at H.files H.faults H.is_open H.log shelf.old)
        (outlets O.written O.faults E.written E.faults out.old err.old))
        (outside (shelf_at H.files H.faults H.is_open H.log shelf.new)
        (outlets O.written O.faults E.written E.faults out.new err.new)) result }
    ensures opened { OpensFront (name.now ∷ []) (H.log shelf.old) (H.log shelf.new) }
    ensures no_usage { result ≢ 2 }
    ensures no_sheet { result ≢ 5 }
    ensures no_memory { result ≢ 8 }
    ensures headline { result ≡ 0 → WasPrinted (O.written out.old) (O.written out.new)
        (RestHeadline P.meaning M.cuts sheet.now checker.entry.deadlines name.now
        (H.files shelf.old) (H.log shelf.old) (H.log shelf.new)) }
    ensures objection { result ≡ 1 → WasPrinted (O.written out.old) (O.written out.new)
        (RestObjection P.meaning M.cuts sheet.now checker.entry.deadlines name.now
        (H.files shelf.old) (H.log shelf.old) (H.log shelf.new)) }
    ensures shelf { LeavesShelf (shelf_at H.files H.faults H.is_open H.log shelf.old)
        (shelf_at H.files H.faults H.is_open H.log shelf.new) result }
{
    judge_file(checker, sheet, name, shelf, out, err)
}

/// Judges the certificate of a file by a policy, for the supply that the sheet states.
pub(crate) fn judge_by<P: Policy, H: Shelf, O: Sink, E: Sink>(
    alloc: Global,
    sheet: &Sheet,
    name: &str,
    deadlines: bool,
    shelf: &mut H,
    out: &mut O,
    err: &mut E,
) -> u8
    ensures { JudgedUnless P.meaning per_task_meaning sheet.now deadlines name.now
        (outside (shelf_at H.files H.faults H.is_open H.log shelf.old)
        (outlets O.written O.faults E.written E.faults out.old err.old))
        (outside (shelf_at H.files H.faults H.is_open H.log shelf.new)
        (outlets O.written O.faults E.written E.faults out.new err.new)) result }
{
    match Checker::<P, PerTask, Sheet>::new(alloc, sheet, sheet, deadlines) {
        Ok(checker) => judge(checker, sheet, name, shelf, out, err),
        Err(_) => tell(&Err(Refusal::Memory), out, err),
    }
}

/// Reads a sheet, makes a checker, and judges a certificate with it.
pub(crate) fn check<H: Shelf, O: Sink, E: Sink>(
    alloc: Global,
    sheet: &str,
    certificate: &str,
    deadlines: bool,
    shelf: &mut H,
    out: &mut O,
    err: &mut E,
) -> u8
    ensures { Did (Some (CheckOf sheet.now certificate.now deadlines))
        (outside (shelf_at H.files H.faults H.is_open H.log shelf.old)
        (outlets O.written O.faults E.written E.faults out.old err.old))
        (outside (shelf_at H.files H.faults H.is_open H.log shelf.new)
        (outlets O.written O.faults E.written E.faults out.new err.new)) result }
{
    text_has_one_reading();
    match sheet_at(alloc, shelf, sheet) {
        Ok(sheet) => judged_on(alloc, &sheet, certificate, deadlines, shelf, out, err),
        Err(refusal) => tell(&Err(refusal), out, err),
    }
}
