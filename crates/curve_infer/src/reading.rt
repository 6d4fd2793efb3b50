//! Reading a trace.
ghost use Rattle.std.specs.Prelude.{◌≡◌, ◌≢◌, IfOk, IfErr};
ghost use Rattle.poet_io.specs.Texts.{Parses, IsReading, AnswersReading};
ghost use Rattle.curve_infer.specs.Text.{trace_format};
ghost use Rattle.curve_infer.specs.Parsing.{trace_of_text};

use crate::draft::Draft;
use crate::trace::Trace;
use poet_io::TextRefusal;
use std::alloc::Global;

/// The trace whose text the bytes are.
///
/// Where they are no trace's text, the refusal names the line of the first byte that is wrong or
/// missing. No byte is kept: a line is read where it stands.
pub fn read_trace(alloc: Global, bytes: &[u8]) -> Result<Trace, TextRefusal>
    ensures found { IfOk result (λ trace. Parses trace_format bytes.now trace) }
    ensures refused { IfErr result (λ e. e ≢ TextRefusal.Memory →
        IsReading trace_format bytes.now (Err e)) }
    ensures gives { AnswersReading result (trace_of_text bytes.now) }
{
    let mut draft = Draft::new(alloc);
    let mut start = 0usize;
    let mut line = 1u64;
    for (at, byte) in bytes.iter().enumerate() {
        if *byte == b'\n' {
            if !draft.take(&bytes[start..at])? {
                return Err(TextRefusal::Line(line));
            }
            start = at + 1;
            line += 1;
        }
    }
    if draft.is_over() && start == bytes.len() {
        return Ok(Trace::new(draft.into_times()));
    }
    Err(TextRefusal::Line(line))
}
