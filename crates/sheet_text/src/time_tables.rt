//! A cyclic time table in place of a promise of supply.
ghost use Rattle.std.specs.Prelude.{◌≡◌, Ok, IfOk, option_map};
ghost use Rattle.toml.specs.Data.{array};
ghost use Rattle.toml.specs.View.{view, items_view};
ghost use Rattle.task_sheet.specs.Rules.{supply_rule};
ghost use Rattle.supply_table.specs.Validity.{table_check_of};
ghost use Rattle.sheet_text.specs.Readings.{ReadsAs};
ghost use Rattle.sheet_text.specs.Documents.{all_of, all_in};
ghost use Rattle.sheet_text.specs.TableRows.{start_from, start_of, slot_from as slot_from_of, slot_of as slot_of_value, table_refusal as refusal_of, table_or_refusal, slots_rule, cycle_rule, cyclic_rule};
ghost use Rattle.sheet_text.specs.SupplyRows.{tabled_rule};

use crate::document::needed_value;
use crate::numbers::{number, whole};
use lists::Items;
use std::alloc::{AllocError, Global};
use supply_table::{LONGEST_CYCLE, Slot, Table, TableRefusal, promise};
use task_sheet::{Field, Place, SheetRefusal, SupplySpec};
use toml::Value;

fn from_integer(n: i64) -> u64
    ensures { result ≡ start_from n }
{
    match u64::try_from(n) {
        Ok(n) => n,
        Err(_) => LONGEST_CYCLE,
    }
}

/// An integer as the start of a slot, where a negative one is given as one past every cycle.
fn start(value: &Value) -> Option<u64>
    ensures { result ≡ start_of (view value.now) }
{
    match value.as_integer() {
        Some(n) => Some(from_integer(n)),
        None => None,
    }
}

fn slot_from(start: Option<u64>, length: Option<u64>) -> Option<Slot>
    ensures { result ≡ slot_from_of start length }
{
    match (start, length) {
        (Some(start), Some(length)) => Some(Slot { start, length }),
        _ => None,
    }
}

#[tactic(auto, using(crate::proofs::StepFacts::no_slot))]
fn slot_in(items: &[Value]) -> Option<Slot>
    ensures { result ≡ slot_of_value (array (items_view items.now)) }
{
    match items {
        [begin, length] => slot_from(start(begin), number(length)),
        _ => None,
    }
}

/// A slot is an array of exactly two integers.
fn slot_of(value: &Value) -> Option<Slot>
    ensures { result ≡ slot_of_value (view value.now) }
{
    match value {
        Value::Array(items) => slot_in(items.as_slice()),
        _ => None,
    }
}

fn all_slots(alloc: Global, items: &[Value]) -> Result<Option<Vec<Slot>>, AllocError>
    ensures { IfOk result (λ o. option_map (λ v. v.items) o ≡
        all_of slot_of_value (items_view items.now)) }
{
    let mut slots = Vec::new(alloc);
    'items: for item in items {
        match slot_of(item) {
            Some(slot) => slots.push(slot)?,
            None => return Ok(None),
        }
    }
    Ok(Some(slots))
}

fn slots_in(alloc: Global, value: &Value) -> Result<Option<Vec<Slot>>, AllocError>
    ensures { IfOk result (λ o. option_map (λ v. v.items) o ≡
        all_in slot_of_value (view value.now)) }
{
    match value {
        Value::Array(items) => all_slots(alloc, items.as_slice()),
        _ => Ok(None),
    }
}

/// The sheet's refusal of a table.
fn table_refusal(refusal: TableRefusal) -> SheetRefusal
    ensures { result ≡ refusal_of refusal }
{
    let place = Place::Supply;
    match refusal {
        TableRefusal::Cycle => SheetRefusal::Range {
            place,
            field: Field::Cycle,
        },
        TableRefusal::Slots => SheetRefusal::Range {
            place,
            field: Field::Slots,
        },
        TableRefusal::Order => SheetRefusal::Order {
            place,
            field: Field::Slots,
        },
    }
}

fn table_from(cycle: u64, slots: Vec<Slot>) -> Result<Table, SheetRefusal>
    ensures { result ≡ table_or_refusal (table_check_of cycle slots.items) }
{
    match Table::check(cycle, slots) {
        Ok(table) => Ok(table),
        Err(refusal) => Err(table_refusal(refusal)),
    }
}

fn with_slots(alloc: Global, cycle: u64, slots: &Value) -> Result<Table, SheetRefusal>
    ensures { ReadsAs (λ t. t) result (slots_rule cycle (view slots.now)) }
{
    let Some(slots) = slots_in(alloc, slots)? else {
        return Err(SheetRefusal::Kind {
            place: Place::Supply,
            field: Field::Slots,
        });
    };
    table_from(cycle, slots)
}

fn cycle_of(value: &Value) -> Result<u64, SheetRefusal>
    ensures { result ≡ cycle_rule (view value.now) }
{
    let place = Place::Supply;
    let field = Field::Cycle;
    let cycle = needed_value(value, "cycle", place, field)?;
    whole(cycle, place, field, 1, LONGEST_CYCLE)
}

#[tactic(auto, unfolding(crate::specs::TableRows::cyclic_rule))]
fn table_of(alloc: Global, value: &Value) -> Result<Table, SheetRefusal>
    ensures { ReadsAs (λ t. t) result (cyclic_rule (view value.now)) }
{
    let cycle = cycle_of(value)?;
    with_slots(
        alloc,
        cycle,
        needed_value(value, "slots", Place::Supply, Field::Slots)?,
    )
}

/// The promise that a time table implies.
#[tactic(auto, using(task_sheet::proofs::RuleFacts::promise_passes))]
pub fn implied_promise(alloc: Global, value: &Value) -> Result<SupplySpec, SheetRefusal>
    ensures gives { ReadsAs (λ s. s) result (tabled_rule (view value.now)) }
    ensures valid { IfOk result (λ s. supply_rule s ≡ Ok tt) }
{
    let table = table_of(alloc, value)?;
    let times = promise(alloc, &table)?;
    Ok(SupplySpec::Promised {
        horizon: table.cycle(),
        times: Items::new(times),
    })
}
