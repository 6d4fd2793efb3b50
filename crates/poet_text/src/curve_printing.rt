//! The text of a curve.
ghost use Rattle.std.specs.Prelude.{◌≡◌, ◌++◌, IfOk, OnOk};
ghost use Rattle.std.specs.List.{flat_map};
ghost use Rattle.poet_text.specs.CurvePrinting.{step_text, next_text, steps_text, curve_line as curve_line_of};

use crate::printing::{push_counted, push_two};
use curve::{Prefix, Step};
use lists::Items;
use std::alloc::{AllocError, Global};

/// Appends a step.
fn push_step(out: &mut Vec<u8>, step: &Step) -> Result<(), AllocError>
    ensures { OnOk result (out.new.items ≡ out.old.items ++ step_text step.now) }
{
    push_two(out, "[", step.time, ", ", step.value)?;
    out.extend_from_slice("]".as_bytes())
}

/// Appends the steps behind the first.
fn push_others(out: &mut Vec<u8>, steps: &[Step]) -> Result<(), AllocError>
    ensures { OnOk result (out.new.items ≡ out.old.items ++ flat_map next_text steps.now) }
{
    for step in steps {
        out.extend_from_slice(", ".as_bytes())?;
        push_step(out, step)?;
    }
    Ok(())
}

/// Appends the steps, with a comma and a space between each two.
fn push_steps(out: &mut Vec<u8>, steps: &[Step]) -> Result<(), AllocError>
    ensures { OnOk result (out.new.items ≡ out.old.items ++ steps_text steps.now) }
{
    match steps {
        [first, others @ ..] => {
            push_step(out, first)?;
            push_others(out, others)
        }
        [] => Ok(()),
    }
}

/// The line of a curve, as a sheet has it.
pub fn curve_line(alloc: Global, curve: &Prefix) -> Result<Items<u8>, AllocError>
    ensures { IfOk result (λ text. text ≡ curve_line_of curve.now) }
{
    let mut text = Vec::new(alloc);
    push_counted(&mut text, "curve = { horizon = ", curve.horizon())?;
    text.extend_from_slice(", steps = [".as_bytes())?;
    push_steps(&mut text, curve.steps())?;
    text.extend_from_slice("] }\n".as_bytes())?;
    Ok(Items::new(text))
}
