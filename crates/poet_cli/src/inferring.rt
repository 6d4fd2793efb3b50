//! How `infer` ends.
ghost use Rattle.std.specs.Prelude.{◌≤◌, IfOk};
ghost use Rattle.lists.specs.Limits.{greatest_number};
ghost use Rattle.poet_cli.specs.CurveAnswers.{CurveHolds};
ghost use Rattle.poet_cli.specs.Readings.{shelf_at};
ghost use Rattle.poet_cli.specs.Steps.{Reads};
ghost use Rattle.poet_cli.specs.Works.{InferDoes};

use crate::reading::read_file;
use curve_infer::{Trace, infer, read_trace};
use lists::Items;
use poet_io::{Shelf, TextRefusal};
use poet_text::{Ending, Printed, Refusal, Source, curve_line};
use std::alloc::{AllocError, Global};

/// The line of the curve of a trace.
fn inferred_line(alloc: Global, trace: &Trace, horizon: u64) -> Result<Items<u8>, AllocError>
    requires low { 1 ≤ horizon }
    requires high { horizon ≤ greatest_number }
    ensures { IfOk result (CurveHolds trace.now horizon) }
{
    let curve = infer(alloc, trace, horizon)?;
    curve_line(alloc, &curve)
}

/// How it ends over the bytes of a trace.
fn inferred(alloc: Global, bytes: &[u8], horizon: u64) -> Ending
    requires low { 1 ≤ horizon }
    requires high { horizon ≤ greatest_number }
    ensures { InferDoes horizon bytes.now result }
{
    let trace = match read_trace(alloc, bytes) {
        Ok(trace) => trace,
        Err(TextRefusal::Line(line)) => {
            return Err(Refusal::Text {
                source: Source::Trace,
                line,
            });
        }
        Err(TextRefusal::Memory) => return Err(Refusal::Memory),
    };
    match inferred_line(alloc, &trace, horizon) {
        Ok(text) => Ok(Printed::Done(text)),
        Err(_) => Err(Refusal::Memory),
    }
}

/// How `infer` ends.
pub fn infer_ending<H: Shelf>(alloc: Global, trace: &str, horizon: u64, shelf: &mut H) -> Ending
    requires low { 1 ≤ horizon }
    requires high { horizon ≤ greatest_number }
    ensures { Reads Source.Trace trace.now (InferDoes horizon)
        (shelf_at H.files H.faults H.is_open H.log shelf.old)
        (shelf_at H.files H.faults H.is_open H.log shelf.new) result }
{
    let bytes = read_file(alloc, shelf, trace, Source::Trace)?;
    inferred(alloc, &bytes, horizon)
}
