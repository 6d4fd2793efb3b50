//! The word grammar.
ghost use Rattle.std.specs.Prelude.{◌≡◌, [], ◌∷◌, map, string_bytes, IfSome};
ghost use Rattle.poet_text.specs.Words.{AnalyseOf, SimulateOf, ReportOf, AssignOf, InferOf, horizon_in, ticks_in, tasks_in, seed_in, form_in, given, check_in, exercise_in, seeded_in, one_word, two_words, three_words, four_words, IsAsked, IsCommand, IsInRange};

use lists::limits::{GREATEST_NUMBER, MOST_TICKS};
use poet_io::read_number_in;
use simulated_run::Mode;

/// The form of a report.
#[derive(Clone, Copy)]
pub enum Form {
    Text,
    Json,
}

/// What the words ask for.
#[derive(Clone, Copy)]
pub enum Command<'a> {
    /// `check SHEET CERT`, or `check SHEET CERT deadlines`.
    Check {
        sheet: &'a str,
        certificate: &'a str,
        deadlines: bool,
    },
    /// `analyse SHEET HORIZON`, with the horizon in ticks, in 1..10^9.
    Analyse {
        sheet: &'a str,
        horizon: u64,
    },
    /// `simulate SHEET dense N`, or `simulate SHEET seed S N`, with 1..100,000 ticks.
    Simulate {
        sheet: &'a str,
        mode: Mode,
        ticks: u64,
    },
    /// `audit SHEET RUN`.
    Audit {
        sheet: &'a str,
        run: &'a str,
    },
    /// `report SHEET CERT text`, or `report SHEET CERT json`.
    Report {
        sheet: &'a str,
        certificate: &'a str,
        form: Form,
    },
    /// `exercise S N`, with 1..64 tasks.
    Exercise {
        seed: u64,
        tasks: u32,
    },
    /// `upgrade SHEET CERT`.
    Upgrade {
        sheet: &'a str,
        certificate: &'a str,
    },
    /// `assign SHEET HORIZON`, with the horizon in ticks, in 1..10^9.
    Assign {
        sheet: &'a str,
        horizon: u64,
    },
    /// `promise SHEET`.
    Promise {
        sheet: &'a str,
    },
    /// `infer FILE HORIZON`, with the horizon in ticks, in 1..10^9.
    Infer {
        trace: &'a str,
        horizon: u64,
    },
}

/// The form that a word names.
fn form_of(word: &str) -> Option<Form>
    ensures { result ≡ form_in word.now }
{
    if word == "text" {
        Some(Form::Text)
    } else if word == "json" {
        Some(Form::Json)
    } else {
        None
    }
}

/// `check` with a last word.
fn check_of<'a>(sheet: &'a str, certificate: &'a str, last: &str) -> Option<Command<'a>>
    ensures defined { IsAsked (check_in sheet.now certificate.now last.now) result }
    ensures in_range { IfSome result IsInRange }
{
    if last == "deadlines" {
        Some(Command::Check {
            sheet,
            certificate,
            deadlines: true,
        })
    } else {
        None
    }
}

fn analyse_of<'a>(sheet: &'a str, horizon: &str) -> Option<Command<'a>>
    ensures defined { IsAsked (given (horizon_in horizon.now) (AnalyseOf sheet.now)) result }
    ensures in_range { IfSome result IsInRange }
{
    let horizon = read_number_in(horizon.as_bytes(), 1, GREATEST_NUMBER)?;
    Some(Command::Analyse { sheet, horizon })
}

fn exercise_of<'a>(seed: &str, tasks: &str) -> Option<Command<'a>>
    ensures defined { IsAsked (exercise_in (seed_in seed.now) (tasks_in tasks.now)) result }
    ensures in_range { IfSome result IsInRange }
{
    let seed = read_number_in(seed.as_bytes(), 0, u64::MAX)?;
    let tasks = read_number_in(tasks.as_bytes(), 1, 64)? as u32;
    Some(Command::Exercise { seed, tasks })
}

fn assign_of<'a>(sheet: &'a str, horizon: &str) -> Option<Command<'a>>
    ensures defined { IsAsked (given (horizon_in horizon.now) (AssignOf sheet.now)) result }
    ensures in_range { IfSome result IsInRange }
{
    let horizon = read_number_in(horizon.as_bytes(), 1, GREATEST_NUMBER)?;
    Some(Command::Assign { sheet, horizon })
}

fn infer_of<'a>(trace: &'a str, horizon: &str) -> Option<Command<'a>>
    ensures defined { IsAsked (given (horizon_in horizon.now) (InferOf trace.now)) result }
    ensures in_range { IfSome result IsInRange }
{
    let horizon = read_number_in(horizon.as_bytes(), 1, GREATEST_NUMBER)?;
    Some(Command::Infer { trace, horizon })
}

fn dense_of<'a>(sheet: &'a str, ticks: &str) -> Option<Command<'a>>
    ensures defined { IsAsked
        (given (ticks_in ticks.now) (SimulateOf sheet.now Mode.Dense)) result }
    ensures in_range { IfSome result IsInRange }
{
    let ticks = read_number_in(ticks.as_bytes(), 1, MOST_TICKS)?;
    let mode = Mode::Dense;
    Some(Command::Simulate { sheet, mode, ticks })
}

fn seeded_of<'a>(sheet: &'a str, seed: &str, ticks: &str) -> Option<Command<'a>>
    ensures defined { IsAsked
        (seeded_in sheet.now (seed_in seed.now) (ticks_in ticks.now)) result }
    ensures in_range { IfSome result IsInRange }
{
    let seed = read_number_in(seed.as_bytes(), 0, u64::MAX)?;
    let ticks = read_number_in(ticks.as_bytes(), 1, MOST_TICKS)?;
    let mode = Mode::Seed(seed);
    Some(Command::Simulate { sheet, mode, ticks })
}

fn report_of<'a>(sheet: &'a str, certificate: &'a str, form: &str) -> Option<Command<'a>>
    ensures defined { IsAsked
        (given (form_in form.now) (ReportOf sheet.now certificate.now)) result }
    ensures in_range { IfSome result IsInRange }
{
    let form = form_of(form)?;
    Some(Command::Report {
        sheet,
        certificate,
        form,
    })
}

/// The command of one word: `promise`.
#[tactic(auto, unfolding(crate::specs::Words::one_word))]
fn command_of_one<'a>(command: &str, first: &'a str) -> Option<Command<'a>>
    ensures defined { IsAsked (one_word command.now first.now) result }
    ensures in_range { IfSome result IsInRange }
{
    if command == "promise" {
        Some(Command::Promise { sheet: first })
    } else {
        None
    }
}

/// The commands of two words: `check`, `analyse`, `audit`, `exercise`, `upgrade`, `assign` and
/// `infer`.
#[tactic(auto, unfolding(crate::specs::Words::two_words))]
fn command_of_two<'a>(command: &str, first: &'a str, second: &'a str) -> Option<Command<'a>>
    ensures defined { IsAsked (two_words command.now first.now second.now) result }
    ensures in_range { IfSome result IsInRange }
{
    if command == "check" {
        return Some(Command::Check {
            sheet: first,
            certificate: second,
            deadlines: false,
        });
    }
    if command == "analyse" {
        return analyse_of(first, second);
    }
    if command == "audit" {
        return Some(Command::Audit {
            sheet: first,
            run: second,
        });
    }
    if command == "exercise" {
        return exercise_of(first, second);
    }
    if command == "upgrade" {
        return Some(Command::Upgrade {
            sheet: first,
            certificate: second,
        });
    }
    if command == "assign" {
        return assign_of(first, second);
    }
    if command == "infer" {
        return infer_of(first, second);
    }
    None
}

/// The commands of three words: `check` with `deadlines`, `simulate` with `dense`, and `report`.
#[tactic(auto, unfolding(crate::specs::Words::three_words))]
fn command_of_three<'a>(
    command: &str,
    first: &'a str,
    second: &'a str,
    third: &str,
) -> Option<Command<'a>>
    ensures defined { IsAsked (three_words command.now first.now second.now third.now) result }
    ensures in_range { IfSome result IsInRange }
{
    if command == "check" {
        return check_of(first, second, third);
    }
    if command == "simulate" {
        return if second == "dense" {
            dense_of(first, third)
        } else {
            None
        };
    }
    if command == "report" {
        return report_of(first, second, third);
    }
    None
}

/// The command of four words: `simulate` with `seed`.
#[tactic(auto, unfolding(crate::specs::Words::four_words))]
fn command_of_four<'a>(
    command: &str,
    first: &'a str,
    second: &str,
    third: &str,
    fourth: &str,
) -> Option<Command<'a>>
    ensures defined { IsAsked
        (four_words command.now first.now second.now third.now fourth.now) result }
    ensures in_range { IfSome result IsInRange }
{
    if command == "simulate" && second == "seed" {
        seeded_of(first, third, fourth)
    } else {
        None
    }
}

/// The command that the words spell.
pub fn command_of(words: &[String]) -> Option<Command<'_>>
    ensures defined { IsCommand (map string_bytes words.now) result }
    ensures in_range { IfSome result IsInRange }
{
    match words {
        [command, first] => command_of_one(command.as_str(), first.as_str()),
        [command, first, second] => command_of_two(
            command.as_str(),
            first.as_str(),
            second.as_str(),
        ),
        [command, first, second, third] => command_of_three(
            command.as_str(),
            first.as_str(),
            second.as_str(),
            third.as_str(),
        ),
        [command, first, second, third, fourth] => command_of_four(
            command.as_str(),
            first.as_str(),
            second.as_str(),
            third.as_str(),
            fourth.as_str(),
        ),
        _ => None,
    }
}
