//! Reading a sheet.
ghost use Rattle.std.specs.Prelude.{◌≡◌, ◌≤◌, length, IfOk};
ghost use Rattle.lists.specs.Limits.{most_tasks};
ghost use Rattle.toml.specs.Data.{array};
ghost use Rattle.toml.specs.Text.{are_tables as are_tables_of};
ghost use Rattle.toml.specs.View.{view, items_view};
ghost use Rattle.task_sheet.specs.Sheets.{IsValidSheet};
ghost use Rattle.sheet_text.specs.Readings.{ReadsAs, seen};
ghost use Rattle.sheet_text.specs.SheetRows.{policy_named as policy_named_of, policy_rule, items_rule, sheet_of as sheet_of_value, sheet_of_text};

use crate::document::{check_keys, document, needed_value};
use crate::promises::supply_of;
use crate::tasks::tasks_of;
use lists::limits::MOST_TASKS;
use std::alloc::Global;
use task_sheet::{Field, Place, PolicyKind, Sheet, SheetRefusal};
use toml::Value;

fn policy_named(word: &str) -> Option<PolicyKind>
    ensures { result ≡ policy_named_of word.now }
{
    if word == PolicyKind::Fp.word() {
        Some(PolicyKind::Fp)
    } else if word == PolicyKind::Edf.word() {
        Some(PolicyKind::Edf)
    } else if word == PolicyKind::Fifo.word() {
        Some(PolicyKind::Fifo)
    } else if word == PolicyKind::Gel.word() {
        Some(PolicyKind::Gel)
    } else if word == PolicyKind::Elf.word() {
        Some(PolicyKind::Elf)
    } else {
        None
    }
}

fn policy_of(value: &Value) -> Result<PolicyKind, SheetRefusal>
    ensures { result ≡ policy_rule (view value.now) }
{
    let place = Place::Top;
    let field = Field::Policy;
    match value.as_str() {
        Some(word) => policy_named(word).ok_or(SheetRefusal::Range { place, field }),
        None => Err(SheetRefusal::Kind { place, field }),
    }
}

fn are_tables(values: &[Value]) -> bool
    ensures { result ≡ are_tables_of (items_view values.now) }
{
    'items: for value in values {
        if !value.is_table() {
            return false;
        }
    }
    true
}

#[tactic(auto, using(crate::proofs::Counts::counts))]
fn counted(items: &[Value]) -> Result<&[Value], SheetRefusal>
    ensures gives { seen (λ v. items_view v.now) result ≡
        items_rule (array (items_view items.now)) }
    ensures few { IfOk result (λ v. length v.now ≤ most_tasks) }
    ensures some { IfOk result (λ v. 1 ≤ length v.now) }
{
    let place = Place::Top;
    let field = Field::Task;
    if !are_tables(items) {
        return Err(SheetRefusal::Kind { place, field });
    }
    match items.len() {
        1..=MOST_TASKS => Ok(items),
        _ => Err(SheetRefusal::Range { place, field }),
    }
}

/// 1 to 256 tables.
fn task_items(value: &Value) -> Result<&[Value], SheetRefusal>
    ensures gives { seen (λ v. items_view v.now) result ≡ items_rule (view value.now) }
    ensures few { IfOk result (λ v. length v.now ≤ most_tasks) }
    ensures some { IfOk result (λ v. 1 ≤ length v.now) }
{
    match value {
        Value::Array(items) => counted(items.as_slice()),
        _ => Err(SheetRefusal::Kind {
            place: Place::Top,
            field: Field::Task,
        }),
    }
}

#[tactic(auto, unfolding(crate::specs::SheetRows::sheet_of))]
fn sheet_of(alloc: Global, document: &Value) -> Result<Sheet, SheetRefusal>
    ensures gives { ReadsAs (λ s. s) result (sheet_of_value (view document.now)) }
    ensures valid { IfOk result IsValidSheet }
{
    let place = Place::Top;
    check_keys(document, &["policy", "supply", "task"], place)?;
    let policy = policy_of(needed_value(document, "policy", place, Field::Policy)?)?;
    let supply = supply_of(alloc, document)?;
    let items = task_items(needed_value(document, "task", place, Field::Task)?)?;
    let tasks = tasks_of(alloc, policy, items)?;
    Ok(Sheet::new(policy, supply, tasks))
}

/// The sheet that a TOML document says, or the first rule that the bytes break.
///
/// The only other refusal is want of memory.
#[tactic(auto, unfolding(crate::specs::SheetRows::sheet_of_text))]
pub fn read_sheet(alloc: Global, bytes: &[u8]) -> Result<Sheet, SheetRefusal>
    ensures gives { ReadsAs (λ s. s) result (sheet_of_text bytes.now) }
    ensures valid { IfOk result IsValidSheet }
{
    sheet_of(alloc, &document(alloc, bytes)?)
}
