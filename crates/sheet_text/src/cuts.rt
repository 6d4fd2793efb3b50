//! Where jobs of a task may be preempted.
ghost use Rattle.std.specs.Prelude.{◌≡◌, Ok, IfOk, option_map, codes};
ghost use Rattle.toml.specs.Data.{get};
ghost use Rattle.toml.specs.View.{view};
ghost use Rattle.task_sheet.specs.Rules.{cut_rule};
ghost use Rattle.sheet_text.specs.Readings.{ReadsAs};
ghost use Rattle.sheet_text.specs.CutRows.{word_rule, parts_rule, segmented_rule, preemption_rule};

use crate::document::check_keys;
use crate::numbers::{number, numbers};
use lists::Items;
use std::alloc::Global;
use task_sheet::{Cut, Field, Place, SheetRefusal, check_cut};
use toml::Value;

fn cut_named(place: Place, word: &str) -> Result<Cut, SheetRefusal>
    ensures { result ≡ word_rule place word.now }
{
    match word {
        "full" => Ok(Cut::Full),
        "never" => Ok(Cut::Never),
        _ => Err(SheetRefusal::Range {
            place,
            field: Field::Preemption,
        }),
    }
}

fn fixed_cut(alloc: Global, place: Place, fixed: &Value) -> Result<Cut, SheetRefusal>
    ensures { ReadsAs (λ c. c) result (parts_rule place (Some (view fixed.now)) None) }
{
    match numbers(alloc, fixed)? {
        Some(segments) => Ok(Cut::Fixed(Items::new(segments))),
        None => Err(SheetRefusal::Kind {
            place,
            field: Field::Preemption,
        }),
    }
}

fn floating_cut(place: Place, floating: &Value) -> Result<Cut, SheetRefusal>
    ensures { result ≡ parts_rule place None (Some (view floating.now)) }
{
    match number(floating) {
        Some(longest) => Ok(Cut::Floating(longest)),
        None => Err(SheetRefusal::Kind {
            place,
            field: Field::Preemption,
        }),
    }
}

/// Exactly one of the two kinds of segments.
fn cut_of_parts(alloc: Global, place: Place, table: &Value) -> Result<Cut, SheetRefusal>
    ensures { ReadsAs (λ c. c) result (parts_rule place
        (get (codes "fixed") (view table.now)) (get (codes "floating") (view table.now))) }
{
    match (table.get("fixed"), table.get("floating")) {
        (Some(fixed), None) => fixed_cut(alloc, place, fixed),
        (None, Some(floating)) => floating_cut(place, floating),
        _ => Err(SheetRefusal::Range {
            place,
            field: Field::Preemption,
        }),
    }
}

#[tactic(auto, unfolding(crate::specs::CutRows::segmented_rule))]
fn segmented_cut(alloc: Global, n: u32, cost: u64, table: &Value) -> Result<Cut, SheetRefusal>
    ensures gives { ReadsAs (λ c. c) result (segmented_rule n cost (view table.now)) }
    ensures valid { IfOk result (λ c. cut_rule n cost c ≡ Ok tt) }
{
    let place = Place::Task(n);
    check_keys(table, &["fixed", "floating"], place)?;
    let cut = cut_of_parts(alloc, place, table)?;
    check_cut(n, cost, &cut)?;
    Ok(cut)
}

/// The preemption of task `n`, which fits its cost.
pub fn preemption(alloc: Global, n: u32, cost: u64, task: &Value) -> Result<Cut, SheetRefusal>
    ensures gives { ReadsAs (λ c. c) result (preemption_rule n cost
        (get (codes "preemption") (view task.now))) }
    ensures valid { IfOk result (λ c. cut_rule n cost c ≡ Ok tt) }
{
    match task.get("preemption") {
        None => Ok(Cut::Full),
        Some(Value::String(word)) => cut_named(Place::Task(n), word.as_str()),
        Some(table @ Value::Table(_)) => segmented_cut(alloc, n, cost, table),
        Some(_) => Err(SheetRefusal::Kind {
            place: Place::Task(n),
            field: Field::Preemption,
        }),
    }
}
