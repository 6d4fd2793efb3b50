//! The text of a promise.
ghost use Rattle.std.specs.Prelude.{◌≡◌, ◌++◌, OnOk, IfOk};
ghost use Rattle.poet_text.specs.PromisePrinting.{times_text, promise_text as promise_text_of};

use crate::printing::push_counted;
use lists::Items;
use std::alloc::{AllocError, Global};
use task_sheet::SupplySpec;

/// Appends the times, each after a space.
fn push_times(out: &mut Vec<u8>, times: &[u64]) -> Result<(), AllocError>
    ensures { OnOk result (out.new.items ≡ out.old.items ++ times_text times.now) }
{
    for time in times {
        push_counted(out, " ", *time)?;
    }
    Ok(())
}

/// The promise that a sheet makes, or the word for the whole processor.
#[tactic(auto, unfolding(crate::specs::PromisePrinting::promise_text))]
pub fn promise_text(alloc: Global, supply: &SupplySpec) -> Result<Items<u8>, AllocError>
    ensures { IfOk result (λ text. text ≡ promise_text_of supply.now) }
{
    match supply {
        SupplySpec::Unit => Ok(Items::new(Vec::from_slice(alloc, "unit\n".as_bytes())?)),
        SupplySpec::Promised { horizon, times } => {
            let mut text = Vec::new(alloc);
            push_counted(&mut text, "horizon ", *horizon)?;
            text.extend_from_slice(" times".as_bytes())?;
            push_times(&mut text, times.as_slice())?;
            text.extend_from_slice("\n".as_bytes())?;
            Ok(Items::new(text))
        }
    }
}
