//! The writing of a verdict on a certificate. Nothing here takes memory.
ghost use Rattle.std.specs.Prelude.{◌≡◌, ◌++◌, ◌≤◌, codes, decimal, length, take};
ghost use Rattle.poet_io.specs.Sinks.{Wrote};
ghost use Rattle.task_sheet.specs.Sheets.{task_at};
ghost use Rattle.poet_text.specs.Printing.{met_word as met_word_of, counted, named, task_text, bound_line, bounds_text, accepted_text, refused_text};

use crate::printing::{cond_text, name_at};
use conditions::Failed;
use poet_io::{Sink, SinkFault, put_number, write_all, write_parts};
use task_sheet::{Sheet, Task};

/// Whether a deadline is met.
fn met_word(bound: u64, deadline: u64) -> &'static str
    ensures { result.now ≡ met_word_of bound deadline }
{
    if bound <= deadline {
        " met\n"
    } else {
        " missed\n"
    }
}

/// Seven pieces of one lifetime.
fn write_seven<'a, O: Sink>(
    out: &mut O,
    first: &'a [u8],
    second: &'a [u8],
    third: &'a [u8],
    fourth: &'a [u8],
    fifth: &'a [u8],
    sixth: &'a [u8],
    seventh: &'a [u8],
) -> Result<(), SinkFault>
    ensures { Wrote (O.written out.old) (O.written out.new) (O.faults out.old) (O.faults out.new)
        (first.now ++ (second.now ++ (third.now ++ (fourth.now ++ (fifth.now ++ (sixth.now ++
        seventh.now)))))) result }
{
    write_parts(out, &[first, second, third, fourth, fifth, sixth, seventh])
}

/// The line of a task and its bound.
#[tactic(auto, using(crate::proofs::VerdictTexts::bound_pieces))]
fn write_bound<O: Sink>(out: &mut O, task: &Task, bound: u64) -> Result<(), SinkFault>
    ensures { Wrote (O.written out.old) (O.written out.new) (O.faults out.old) (O.faults out.new)
        (bound_line task.now bound) result }
{
    let mut bound_digits = [0; 20];
    let bound_len = put_number(bound, &mut bound_digits);
    let mut deadline_digits = [0; 20];
    let deadline_len = put_number(task.deadline, &mut deadline_digits);
    write_seven(
        out,
        "task ".as_bytes(),
        task.name.as_str().as_bytes(),
        " bound ".as_bytes(),
        &bound_digits[..bound_len],
        " deadline ".as_bytes(),
        &deadline_digits[..deadline_len],
        met_word(bound, task.deadline).as_bytes(),
    )
}

/// A line for each task.
fn write_bounds<O: Sink>(out: &mut O, sheet: &Sheet, bounds: &[u64]) -> Result<(), SinkFault>
    requires { length bounds.now ≡ length sheet.now.tasks }
    ensures { Wrote (O.written out.old) (O.written out.new) (O.faults out.old) (O.faults out.new)
        (bounds_text sheet.now.tasks bounds.now) result }
{
    for i in 0..sheet.len() {
        write_bound(out, sheet.task(i), bounds[i as usize])?;
    }
    Ok(())
}

/// That a certificate is accepted, and its bounds.
#[tactic(auto, unfolding(crate::specs::Printing::accepted_text))]
pub fn write_accepted<O: Sink>(out: &mut O, sheet: &Sheet, bounds: &[u64]) -> Result<(), SinkFault>
    requires { length bounds.now ≡ length sheet.now.tasks }
    ensures { Wrote (O.written out.old) (O.written out.new) (O.faults out.old) (O.faults out.new)
        (accepted_text sheet.now bounds.now) result }
{
    write_all(out, "accepted\n".as_bytes())?;
    write_bounds(out, sheet, bounds)
}

/// The word before a task's name, and the name, where there is a task.
fn task_words(sheet: &Sheet, task: Option<u32>) -> (&'static str, &str)
    ensures { task_text sheet.now task ≡ result.0.now ++ result.1.now }
{
    match task {
        Some(i) => (" task ", name_at(sheet, i)),
        None => ("", ""),
    }
}

/// The word before a number, and how many digits it has, where there is a number.
fn put_point(point: Option<u64>, digits: &mut [u8; 20]) -> (&'static str, usize)
    ensures text { named (codes " point ") point ≡ result.0.now ++ take result.1 digits.new }
    ensures short { result.1 ≤ 20 }
{
    match point {
        Some(n) => (" point ", put_number(n, digits)),
        None => ("", 0),
    }
}

/// Which condition failed, and where.
#[tactic(auto, using(crate::proofs::VerdictTexts::refused_pieces))]
pub fn write_refused<O: Sink>(out: &mut O, sheet: &Sheet, failed: &Failed) -> Result<(), SinkFault>
    ensures { Wrote (O.written out.old) (O.written out.new) (O.faults out.old) (O.faults out.new)
        (refused_text sheet.now failed.now) result }
{
    let (task_word, name) = task_words(sheet, failed.task);
    let mut digits = [0; 20];
    let (point_word, len) = put_point(failed.point, &mut digits);
    write_seven(
        out,
        cond_text(failed.cond).as_bytes(),
        task_word.as_bytes(),
        name.as_bytes(),
        point_word.as_bytes(),
        &digits[..len],
        "\n".as_bytes(),
        "".as_bytes(),
    )
}
