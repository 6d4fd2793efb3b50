//! The lines of refusals, and how an ending becomes text and a status.
ghost use Rattle.std.specs.Prelude.{◌≡◌, ◌++◌, ◌≤◌, ℕ, Ok, Err, OnOk, OnErr, Result, take, codes, decimal};
ghost use Rattle.poet_io.specs.Sinks.{Wrote, Appended, WroteLine};
ghost use Rattle.poet_text.specs.Refusals.{field_word as field_word_of, place_text, line_at, sheet_line, limit_line, points_line, line_of, write_failed, refusal_status};
ghost use Rattle.poet_text.specs.Tellings.{outlets, Finished, Told};

use crate::printed::{Ending, Printed};
use crate::refusal::{Refusal, Source};
use poet_io::{Sink, SinkFault, put_number, write_all, write_parts};
use task_sheet::{Field, Place, SheetRefusal};

const USAGE: &str = "usage: poet check SHEET CERT [deadlines] \
    | analyse SHEET HORIZON \
    | simulate SHEET dense N | simulate SHEET seed S N \
    | audit SHEET RUN \
    | report SHEET CERT text|json \
    | exercise S N \
    | upgrade SHEET CERT \
    | assign SHEET HORIZON \
    | promise SHEET \
    | infer FILE HORIZON\n";

#[tactic(auto, unfolding(crate::specs::Refusals::field_word))]
fn field_word(field: Field) -> &'static str
    ensures { result.now ≡ field_word_of field }
{
    match field {
        Field::Policy => "policy",
        Field::Supply => "supply",
        Field::Task => "task",
        Field::Horizon => "horizon",
        Field::Times => "times",
        Field::Cycle => "cycle",
        Field::Slots => "slots",
        Field::Name => "name",
        Field::Cost => "cost",
        Field::Deadline => "deadline",
        Field::Priority => "priority",
        Field::Jitter => "jitter",
        Field::Point => "point",
        Field::Period => "period",
        Field::Curve => "curve",
        Field::CurveHorizon => "curve.horizon",
        Field::CurveSteps => "curve.steps",
        Field::Preemption => "preemption",
    }
}

fn put_place(place: Place, digits: &mut [u8; 20]) -> (&'static str, usize)
    ensures text { place_text place ≡ result.0.now ++ take result.1 digits.new }
    ensures short { result.1 ≤ 20 }
{
    match place {
        Place::Top => ("top", 0),
        Place::Supply => ("supply", 0),
        Place::Task(n) => ("task ", put_number(u64::from(n), digits)),
    }
}

/// Six pieces of one lifetime.
fn write_six<'a, O: Sink>(
    out: &mut O,
    first: &'a [u8],
    second: &'a [u8],
    third: &'a [u8],
    fourth: &'a [u8],
    fifth: &'a [u8],
    sixth: &'a [u8],
) -> Result<(), SinkFault>
    ensures { Wrote (O.written out.old) (O.written out.new) (O.faults out.old) (O.faults out.new)
        (first.now ++ (second.now ++ (third.now ++ (fourth.now ++ (fifth.now ++ sixth.now)))))
        result }
{
    write_parts(out, &[first, second, third, fourth, fifth, sixth])
}

/// Three pieces, a place and the line's end.
#[tactic(auto, unfolding(crate::specs::Refusals::line_at))]
fn write_at<E: Sink>(
    err: &mut E,
    first: &str,
    second: &str,
    third: &str,
    place: Place,
) -> Result<(), SinkFault>
    ensures { Wrote (E.written err.old) (E.written err.new) (E.faults err.old) (E.faults err.new)
        (line_at first.now second.now third.now place) result }
{
    let mut digits = [0; 20];
    let (word, len) = put_place(place, &mut digits);
    write_six(
        err,
        first.as_bytes(),
        second.as_bytes(),
        third.as_bytes(),
        word.as_bytes(),
        &digits[..len],
        "\n".as_bytes(),
    )
}

/// Two pieces about a field, and a place.
fn write_field<E: Sink>(
    err: &mut E,
    first: &str,
    field: Field,
    third: &str,
    place: Place,
) -> Result<(), SinkFault>
    ensures { Wrote (E.written err.old) (E.written err.new) (E.faults err.old) (E.faults err.new)
        (line_at first.now (field_word_of field) third.now place) result }
{
    write_at(err, first, field_word(field), third, place)
}

fn write_sheet_refusal<E: Sink>(refusal: SheetRefusal, err: &mut E) -> Result<(), SinkFault>
    ensures { Wrote (E.written err.old) (E.written err.new) (E.faults err.old) (E.faults err.new)
        (sheet_line refusal) result }
{
    match refusal {
        SheetRefusal::Text => write_all(err, "sheet: not a TOML document\n".as_bytes()),
        SheetRefusal::Unknown { place } => write_at(err, "sheet: unknown key in ", "", "", place),
        SheetRefusal::Missing { place, field } => {
            write_field(err, "sheet: missing ", field, " in ", place)
        }
        SheetRefusal::Kind { place, field } => {
            write_field(err, "sheet: wrong kind of ", field, " in ", place)
        }
        SheetRefusal::Range { place, field } => {
            write_field(err, "sheet: ", field, " out of range in ", place)
        }
        SheetRefusal::Order { place, field } => {
            write_field(err, "sheet: ", field, " out of order in ", place)
        }
        SheetRefusal::Mixed => write_at(
            err,
            "sheet: both promise and table in ",
            "",
            "",
            Place::Supply,
        ),
        SheetRefusal::Both { task } => { write_task(err, "sheet: both period and curve in ", task) }
        SheetRefusal::Twice { task } => write_task(err, "sheet: name repeated in ", task),
        SheetRefusal::Sum { task } => {
            write_task(err, "sheet: preemption does not fit cost in ", task)
        }
        SheetRefusal::Memory => write_all(err, "memory\n".as_bytes()),
    }
}

/// A piece and a task.
fn write_task<E: Sink>(err: &mut E, first: &str, task: u32) -> Result<(), SinkFault>
    ensures { Wrote (E.written err.old) (E.written err.new) (E.faults err.old) (E.faults err.new)
        (line_at first.now (codes "") (codes "") (Place.Task task)) result }
{
    write_at(err, first, "", "", Place::Task(task))
}

/// Two pieces, a number and a third piece.
fn write_number<E: Sink>(
    err: &mut E,
    first: &str,
    second: &str,
    n: u64,
    third: &str,
) -> Result<(), SinkFault>
    ensures { Wrote (E.written err.old) (E.written err.new) (E.faults err.old) (E.faults err.new)
        (first.now ++ (second.now ++ (decimal n ++ third.now))) result }
{
    let mut digits = [0; 20];
    let len = put_number(n, &mut digits);
    write_four(
        err,
        first.as_bytes(),
        second.as_bytes(),
        &digits[..len],
        third.as_bytes(),
    )
}

fn write_limit<E: Sink>(source: Source, err: &mut E) -> Result<(), SinkFault>
    ensures { Wrote (E.written err.old) (E.written err.new) (E.faults err.old) (E.faults err.new)
        (limit_line source) result }
{
    let mut digits = [0; 20];
    let len = put_number(source.limit() as u64, &mut digits);
    write_six(
        err,
        "limit: ".as_bytes(),
        source.word().as_bytes(),
        " is longer than ".as_bytes(),
        &digits[..len],
        " bytes\n".as_bytes(),
        "".as_bytes(),
    )
}

fn write_points<E: Sink>(name: &str, err: &mut E) -> Result<(), SinkFault>
    ensures { Wrote (E.written err.old) (E.written err.new) (E.faults err.old) (E.faults err.new)
        (points_line name.now) result }
{
    write_three(err, "limit: points exceed 1000000 at task ", name, "\n")
}

/// Three pieces.
fn write_three<'a, O: Sink>(
    out: &mut O,
    first: &'a str,
    second: &'a str,
    third: &'a str,
) -> Result<(), SinkFault>
    ensures { Wrote (O.written out.old) (O.written out.new) (O.faults out.old) (O.faults out.new)
        (first.now ++ (second.now ++ third.now)) result }
{
    write_parts(
        out,
        &[first.as_bytes(), second.as_bytes(), third.as_bytes()],
    )
}

/// Four pieces of one lifetime.
fn write_four<'a, O: Sink>(
    out: &mut O,
    first: &'a [u8],
    second: &'a [u8],
    third: &'a [u8],
    fourth: &'a [u8],
) -> Result<(), SinkFault>
    ensures { Wrote (O.written out.old) (O.written out.new) (O.faults out.old) (O.faults out.new)
        (first.now ++ (second.now ++ (third.now ++ fourth.now))) result }
{
    write_parts(out, &[first, second, third, fourth])
}

/// The line of a refusal.
#[tactic(auto, unfolding(crate::specs::Refusals::line_of))]
fn write_refusal<E: Sink>(refusal: &Refusal, err: &mut E) -> Result<(), SinkFault>
    ensures { Wrote (E.written err.old) (E.written err.new) (E.faults err.old) (E.faults err.new)
        (line_of refusal.now) result }
{
    match refusal {
        Refusal::Usage => write_all(err, USAGE.as_bytes()),
        Refusal::Read(source) => write_four(
            err,
            "read failed: ".as_bytes(),
            source.word().as_bytes(),
            "\n".as_bytes(),
            "".as_bytes(),
        ),
        Refusal::Sheet(refusal) => write_sheet_refusal(*refusal, err),
        Refusal::Text { source, line } => write_number(
            err,
            source.word(),
            ": line ",
            *line,
            " is not of the format\n",
        ),
        Refusal::Limit(source) => write_limit(*source, err),
        Refusal::Points(name) => write_points(name.as_str(), err),
        Refusal::Jobs => write_all(err, "limit: jobs exceed 20000\n".as_bytes()),
        Refusal::Segments => write_all(err, "limit: segments exceed 1000000\n".as_bytes()),
        Refusal::LongUpgrade => write_all(
            err,
            "limit: upgraded certificate is longer than 67108864 bytes\n".as_bytes(),
        ),
        Refusal::Memory => write_all(err, "memory\n".as_bytes()),
    }
}

/// Tells a refusal, and answers its status.
#[tactic(auto, using(poet_io::proofs::Telling::wrote_line))]
fn tell_refusal<E: Sink>(refusal: &Refusal, err: &mut E) -> u8
    ensures status { result ≡ refusal_status refusal.now }
    ensures line { WroteLine (E.written err.old) (E.written err.new) (E.faults err.old)
        (E.faults err.new) (line_of refusal.now) }
{
    let _ = write_refusal(refusal, err);
    refusal.status()
}

/// The status of a text that was written, or else 4 and its line.
#[tactic(auto, using(poet_io::proofs::Telling::wrote_line, poet_io::proofs::Writing::stayed_same), unfolding(crate::specs::Refusals::write_failed))]
pub fn finish<E: Sink>(written: Result<(), SinkFault>, status: u8, err: &mut E) -> u8
    ensures { Finished written status (E.written err.old) (E.written err.new) (E.faults err.old)
        (E.faults err.new) result }
{
    match written {
        Ok(()) => status,
        Err(_) => {
            let _ = write_all(err, "write failed\n".as_bytes());
            4
        }
    }
}

/// Tells how a command ended, and answers its status. Nothing else writes.
pub fn tell<O: Sink, E: Sink>(ending: &Ending, out: &mut O, err: &mut E) -> u8
    ensures { Told ending.now
        (outlets O.written O.faults E.written E.faults out.old err.old)
        (outlets O.written O.faults E.written E.faults out.new err.new) result }
{
    match ending {
        Ok(Printed::Done(text)) => finish(write_all(out, text.as_slice()), 0, err),
        Ok(Printed::JudgedNo(text)) => finish(write_all(out, text.as_slice()), 1, err),
        Err(refusal) => tell_refusal(refusal, err),
    }
}
