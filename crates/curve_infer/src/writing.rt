//! Writing a trace.
ghost use Rattle.std.specs.Prelude.{◌≡◌, ◌++◌, IfOk, OnOk};
ghost use Rattle.std.specs.List.{flat_map};
ghost use Rattle.curve_infer.specs.Text.{number_line, arrival_line, text_of};

use crate::trace::Trace;
use poet_io::push_field;
use std::alloc::{AllocError, Global};

fn push_line(out: &mut Vec<u8>, front: &[u8], n: u64) -> Result<(), AllocError>
    ensures { OnOk result (out.new.items ≡ out.old.items ++ number_line front.now n) }
{
    out.extend_from_slice(front)?;
    push_field(out, n, b'\n')
}

fn push_times(out: &mut Vec<u8>, times: &[u64]) -> Result<(), AllocError>
    ensures { OnOk result (out.new.items ≡ out.old.items ++ flat_map arrival_line times.now) }
{
    for time in times {
        push_line(out, b"a ", *time)?;
    }
    Ok(())
}

/// The one text of a trace.
pub fn write_trace(alloc: Global, trace: &Trace) -> Result<Vec<u8>, AllocError>
    ensures { IfOk result (λ text. text.items ≡ text_of trace.now) }
{
    let times = trace.times();
    let mut out = Vec::new(alloc);
    out.extend_from_slice(b"poet-trace 1\n")?;
    push_line(&mut out, b"arrivals ", times.len() as u64)?;
    push_times(&mut out, times)?;
    out.extend_from_slice(b"end\n")?;
    Ok(out)
}
