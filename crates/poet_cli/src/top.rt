//! The top call.
ghost use Rattle.std.specs.Prelude.{◌≡◌, ◌↔◌, Some, None};
ghost use Rattle.poet_text.specs.Words.{asked_in, asked_by, IsInRange};
ghost use Rattle.poet_text.specs.Tellings.{outlets};
ghost use Rattle.poet_cli.specs.Openings.{OpensFront};
ghost use Rattle.poet_cli.specs.Origins.{WasPrinted};
ghost use Rattle.poet_cli.specs.Readings.{shelf_at};
ghost use Rattle.poet_cli.specs.Program.{Does, answer_of, MayFail, files_of, Headline, Objection};
ghost use Rattle.poet_cli.specs.TableHeadline.{TableHeadline};
ghost use Rattle.poet_cli.specs.Clauses.{outside, Answers, Did, LeavesShelf};

use crate::analysing::analyse_ending;
use crate::assigning::assign_ending;
use crate::auditing::audit_ending;
use crate::checking::check;
use crate::exercising::exercise_ending;
use crate::inferring::infer_ending;
use crate::promising::promise_ending;
use crate::reporting::report_ending;
use crate::simulating::simulate_ending;
use crate::upgrading::upgrade_ending;
use poet_io::{Shelf, Sink};
use poet_text::{Command, Refusal, command_of, tell};
use std::alloc::Global;

/// Does what a command says, and answers the status.
#[tactic(auto, using(crate::proofs::DoesFacts::told_did))]
fn run_command<H: Shelf, O: Sink, E: Sink>(
    alloc: Global,
    command: Command<'_>,
    shelf: &mut H,
    out: &mut O,
    err: &mut E,
) -> u8
    requires { IsInRange command }
    ensures { Did (Some (asked_by command.entry))
        (outside (shelf_at H.files H.faults H.is_open H.log shelf.old)
        (outlets O.written O.faults E.written E.faults out.old err.old))
        (outside (shelf_at H.files H.faults H.is_open H.log shelf.new)
        (outlets O.written O.faults E.written E.faults out.new err.new)) result }
{
    match command {
        Command::Check {
            sheet,
            certificate,
            deadlines,
        } => check(alloc, sheet, certificate, deadlines, shelf, out, err),
        Command::Analyse { sheet, horizon } => {
            tell(&analyse_ending(alloc, sheet, horizon, shelf), out, err)
        }
        Command::Simulate { sheet, mode, ticks } => tell(
            &simulate_ending(alloc, sheet, mode, ticks, shelf),
            out,
            err,
        ),
        Command::Audit { sheet, run } => tell(&audit_ending(alloc, sheet, run, shelf), out, err),
        Command::Report {
            sheet,
            certificate,
            form,
        } => tell(
            &report_ending(alloc, sheet, certificate, form, shelf),
            out,
            err,
        ),
        Command::Exercise { seed, tasks } => tell(&exercise_ending(alloc, seed, tasks), out, err),
        Command::Upgrade { sheet, certificate } => tell(
            &upgrade_ending(alloc, sheet, certificate, shelf),
            out,
            err,
        ),
        Command::Assign { sheet, horizon } => {
            tell(&assign_ending(alloc, sheet, horizon, shelf), out, err)
        }
        Command::Promise { sheet } => tell(&promise_ending(alloc, sheet, shelf), out, err),
        Command::Infer { trace, horizon } => {
            tell(&infer_ending(alloc, trace, horizon, shelf), out, err)
        }
    }
}

/// Does what the words ask for, and answers the status.
#[tactic(auto, using(crate::proofs::DoesFacts::told_did))]
fn run<H: Shelf, O: Sink, E: Sink>(
    alloc: Global,
    words: &[String],
    shelf: &mut H,
    out: &mut O,
    err: &mut E,
) -> u8
    ensures { Did (asked_in words.now)
        (outside (shelf_at H.files H.faults H.is_open H.log shelf.old)
        (outlets O.written O.faults E.written E.faults out.old err.old))
        (outside (shelf_at H.files H.faults H.is_open H.log shelf.new)
        (outlets O.written O.faults E.written E.faults out.new err.new)) result }
{
    match command_of(words) {
        Some(command) => run_command(alloc, command, shelf, out, err),
        None => tell(&Err(Refusal::Usage), out, err),
    }
}

/// Does what the words ask for, and answers the status.
///
/// `words` are the program's words without its own name. Texts of status 0 and 1 go to `out`; each
/// other status has one line on `err`.
pub fn poet_run<H: Shelf, O: Sink, E: Sink>(
    alloc: Global,
    words: &Vec<String>,
    shelf: &mut H,
    out: &mut O,
    err: &mut E,
) -> u8
    ensures answers { Answers (answer_of (asked_in words.now.items))
        (MayFail (asked_in words.now.items) (H.files shelf.old))
        (outside (shelf_at H.files H.faults H.is_open H.log shelf.old)
        (outlets O.written O.faults E.written E.faults out.old err.old))
        (outside (shelf_at H.files H.faults H.is_open H.log shelf.new)
        (outlets O.written O.faults E.written E.faults out.new err.new)) result }
    ensures did { Did (asked_in words.now.items)
        (outside (shelf_at H.files H.faults H.is_open H.log shelf.old)
        (outlets O.written O.faults E.written E.faults out.old err.old))
        (outside (shelf_at H.files H.faults H.is_open H.log shelf.new)
        (outlets O.written O.faults E.written E.faults out.new err.new)) result }
    ensures opened { OpensFront (files_of (asked_in words.now.items))
        (H.log shelf.old) (H.log shelf.new) }
    ensures usage { result ≡ 2 ↔ (asked_in words.now.items ≡ None) }
    ensures headline { result ≡ 0 → WasPrinted (O.written out.old) (O.written out.new)
        (Headline (asked_in words.now.items)
        (H.files shelf.old) (H.log shelf.old) (H.log shelf.new)) }
    ensures table_headline { result ≡ 0 → WasPrinted (O.written out.old) (O.written out.new)
        (TableHeadline (asked_in words.now.items)
        (H.files shelf.old) (H.log shelf.old) (H.log shelf.new)) }
    ensures objection { result ≡ 1 → WasPrinted (O.written out.old) (O.written out.new)
        (Objection (asked_in words.now.items)
        (H.files shelf.old) (H.log shelf.old) (H.log shelf.new)) }
    ensures shelf { LeavesShelf (shelf_at H.files H.faults H.is_open H.log shelf.old)
        (shelf_at H.files H.faults H.is_open H.log shelf.new) result }
{
    run(alloc, words, shelf, out, err)
}
