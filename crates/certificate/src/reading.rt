//! Reading a certificate.

ghost use Rattle.std.specs.Prelude.{◌≡◌, ◌≢◌, [], OnOk, IfOk, IfErr};
ghost use Rattle.poet_io.specs.Texts.{Parses, IsReading, AnswersReading};
ghost use Rattle.certificate.specs.Text.{cert_format, point_line};
ghost use Rattle.certificate.specs.Parsing.{with_point, add_point, add_step, cert_of_text};

use crate::cert::{Cert, Entry, Point, Terms};
use crate::lines::Lines;
use crate::step::LineStep;
use lists::Items;
use poet_io::TextRefusal;
use std::alloc::{AllocError, Global};

/// The fewest bytes that the line of a point has.
const SHORTEST_LINE: usize = 6;

/// Appends a point to an entry, with its terms where it has some.
#[inline]
fn push_point(entry: &mut Entry, point: Point, terms: Option<Terms>) -> Result<(), AllocError>
    ensures { OnOk result (entry.new ≡ with_point entry.old (point_line point terms)) }
{
    entry.points.push(point)?;
    if let Some(terms) = terms {
        entry.terms.push(terms)?;
    }
    Ok(())
}

/// Appends a point to the last entry.
#[inline]
fn add_point(entries: &mut Vec<Entry>, point: Point, terms: Option<Terms>) -> Result<(), AllocError>
    ensures { OnOk result (entries.new.items ≡ add_point entries.old.items (point_line point
        terms)) }
{
    let count = entries.len();
    if count == 0 {
        return Ok(());
    }
    push_point(&mut entries[count - 1], point, terms)?;
    Ok(())
}

/// An entry that has no points yet, with room for as many as its line says, but for no more than
/// the `left` bytes after it can hold.
fn open_entry(
    alloc: Global,
    window: u64,
    bound: u64,
    count: u32,
    left: usize,
) -> Result<Entry, AllocError>
    ensures { IfOk result (λ e. e ≡ record {
      window = window;
      bound = bound;
      points = [];
      terms = [];
    }) }
{
    let room = (count as usize).min(left / SHORTEST_LINE);
    Ok(Entry {
        window,
        bound,
        points: Items::new(Vec::with_capacity(alloc, room)?),
        terms: Items::new(Vec::new(alloc)),
    })
}

/// Takes what a line says, which `left` bytes follow.
#[inline]
fn add_step(
    alloc: Global,
    entries: &mut Vec<Entry>,
    step: &LineStep,
    left: usize,
) -> Result<(), AllocError>
    ensures { OnOk result (entries.new.items ≡ add_step entries.old.items step.now) }
{
    match *step {
        LineStep::Entry {
            window,
            bound,
            count,
            ..
        } => {
            entries.push(open_entry(alloc, window, bound, count, left)?)?;
            Ok(())
        }
        LineStep::Point { offset, end, terms } => add_point(entries, Point { offset, end }, terms),
        _ => Ok(()),
    }
}

/// The certificate whose text the bytes are.
///
/// Where they are no certificate's text, the refusal names the line of the first byte that is
/// wrong or missing.
pub fn read_cert(alloc: Global, bytes: &[u8]) -> Result<Cert, TextRefusal>
    ensures found { IfOk result (λ cert. Parses cert_format bytes.now cert) }
    ensures refused { IfErr result (λ e. e ≢ TextRefusal.Memory →
        IsReading cert_format bytes.now (Err e)) }
    ensures gives { AnswersReading result (cert_of_text bytes.now) }
{
    let mut lines = Lines::new();
    let mut entries = Vec::new(alloc);
    let mut at = 0;
    while at < bytes.len() {
        let (len, step) = lines.feed_line(&bytes[at..]);
        at += len;
        add_step(alloc, &mut entries, &step, bytes.len() - at)?;
    }
    if lines.is_over() {
        Ok(Cert {
            version: lines.version(),
            entries: Items::new(entries),
        })
    } else {
        Err(TextRefusal::Line(lines.line()))
    }
}
