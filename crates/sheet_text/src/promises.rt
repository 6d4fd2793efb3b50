//! What a sheet promises of the processor.
ghost use Rattle.std.specs.Prelude.{◌≡◌, Ok, IfOk, codes};
ghost use Rattle.toml.specs.Data.{get};
ghost use Rattle.toml.specs.View.{view};
ghost use Rattle.task_sheet.specs.Rules.{supply_rule};
ghost use Rattle.sheet_text.specs.Readings.{ReadsAs};
ghost use Rattle.sheet_text.specs.SupplyRows.{has_key as has_key_of, has_table as has_table_of, mixture_rule, times_rule, promised_rule, given_rule, supplied_rule};

use crate::document::{check_keys, check_table, needed_value};
use crate::numbers::{numbers, positive};
use crate::time_tables::implied_promise;
use lists::Items;
use std::alloc::Global;
use task_sheet::{Field, Place, SheetRefusal, SupplySpec, check_supply};
use toml::Value;

fn promise_from(alloc: Global, horizon: u64, times: &Value) -> Result<SupplySpec, SheetRefusal>
    ensures gives { ReadsAs (λ s. s) result (times_rule horizon (view times.now)) }
    ensures valid { IfOk result (λ s. supply_rule s ≡ Ok tt) }
{
    let Some(times) = numbers(alloc, times)? else {
        return Err(SheetRefusal::Kind {
            place: Place::Supply,
            field: Field::Times,
        });
    };
    let supply = SupplySpec::Promised {
        horizon,
        times: Items::new(times),
    };
    check_supply(&supply)?;
    Ok(supply)
}

#[tactic(auto, unfolding(crate::specs::SupplyRows::promised_rule))]
fn promise_of(alloc: Global, value: &Value) -> Result<SupplySpec, SheetRefusal>
    ensures gives { ReadsAs (λ s. s) result (promised_rule (view value.now)) }
    ensures valid { IfOk result (λ s. supply_rule s ≡ Ok tt) }
{
    let place = Place::Supply;
    let horizon = positive(value, "horizon", place, Field::Horizon)?;
    promise_from(
        alloc,
        horizon,
        needed_value(value, "times", place, Field::Times)?,
    )
}

#[tactic(auto, using(crate::proofs::Fronts::is_some_seen))]
fn has_key(value: &Value, key: &str) -> bool
    ensures { result ≡ has_key_of key.now (view value.now) }
{
    value.get(key).is_some()
}

/// Whether a key of a time table stands.
fn has_table(value: &Value) -> bool
    ensures { result ≡ has_table_of (view value.now) }
{
    has_key(value, "cycle") || has_key(value, "slots")
}

/// Refuses a time table beside a promise.
fn check_mixture(value: &Value) -> Result<(), SheetRefusal>
    ensures { result ≡ mixture_rule (view value.now) }
{
    if has_table(value) && (has_key(value, "horizon") || has_key(value, "times")) {
        Err(SheetRefusal::Mixed)
    } else {
        Ok(())
    }
}

#[tactic(auto, unfolding(crate::specs::SupplyRows::given_rule))]
fn given_supply(alloc: Global, value: &Value) -> Result<SupplySpec, SheetRefusal>
    ensures gives { ReadsAs (λ s. s) result (given_rule (view value.now)) }
    ensures valid { IfOk result (λ s. supply_rule s ≡ Ok tt) }
{
    check_table(value, Place::Top, Field::Supply)?;
    check_keys(
        value,
        &["horizon", "times", "cycle", "slots"],
        Place::Supply,
    )?;
    check_mixture(value)?;
    if has_table(value) {
        implied_promise(alloc, value)
    } else {
        promise_of(alloc, value)
    }
}

/// What a document promises of the processor.
pub fn supply_of(alloc: Global, document: &Value) -> Result<SupplySpec, SheetRefusal>
    ensures gives { ReadsAs (λ s. s) result (supplied_rule
        (get (codes "supply") (view document.now))) }
    ensures valid { IfOk result (λ s. supply_rule s ≡ Ok tt) }
{
    match document.get("supply") {
        Some(supply) => given_supply(alloc, supply),
        None => Ok(SupplySpec::Unit),
    }
}
