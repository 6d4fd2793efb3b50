//! Documents, and what stands at their keys.
ghost use Rattle.std.specs.Prelude.{◌≡◌, map, bytes_eq};
ghost use Rattle.std.specs.List.{list_any};
ghost use Rattle.toml.specs.View.{view, table_view};
ghost use Rattle.task_sheet.specs.Refusing.{present};
ghost use Rattle.sheet_text.specs.Readings.{ReadsAs, seen};
ghost use Rattle.sheet_text.specs.Documents.{document_of, has_only as has_only_of, keys_rule, needed_rule, table_rule};

use std::alloc::Global;
use task_sheet::{Field, Place, SheetRefusal};
use toml::{Table, Value};

/// The document that bytes are.
pub fn document(alloc: Global, bytes: &[u8]) -> Result<Value, SheetRefusal>
    ensures { ReadsAs view result (present (document_of bytes.now) SheetRefusal.Text) }
{
    match toml::table_from_slice(alloc, bytes) {
        Ok(table) => Ok(Value::Table(table)),
        Err(e) if e.is_memory() => Err(SheetRefusal::Memory),
        Err(_) => Err(SheetRefusal::Text),
    }
}

fn is_among(key: &str, keys: &[&str]) -> bool
    ensures { result ≡ list_any (λ known. bytes_eq known key.now) (map (λ k. k.now) keys.now) }
{
    (&*keys).contains(&key)
}

fn has_only(table: &Table, keys: &[&str]) -> bool
    ensures { result ≡ has_only_of (map (λ k. k.now) keys.now) (table_view table.now) }
{
    'members: for (key, _member) in table.iter() {
        if !is_among(key.as_str(), &*keys) {
            return false;
        }
    }
    true
}

/// Refuses a table with a key that is none of these.
pub fn check_keys(value: &Value, keys: &[&str], place: Place) -> Result<(), SheetRefusal>
    ensures { result ≡ keys_rule (map (λ k. k.now) keys.now) place (view value.now) }
{
    match value {
        Value::Table(table) if !has_only(table, keys) => Err(SheetRefusal::Unknown { place }),
        _ => Ok(()),
    }
}

/// Refuses what is no table.
pub fn check_table(value: &Value, place: Place, field: Field) -> Result<(), SheetRefusal>
    ensures { result ≡ table_rule place field (view value.now) }
{
    if value.is_table() {
        Ok(())
    } else {
        Err(SheetRefusal::Kind { place, field })
    }
}

/// The value at a key, which has to be there.
pub fn needed_value<'a>(
    value: &'a Value,
    key: &str,
    place: Place,
    field: Field,
) -> Result<&'a Value, SheetRefusal>
    ensures { seen (λ v. view v.now) result ≡ needed_rule key.now place field (view value.now) }
{
    match value.get(key) {
        Some(value) => Ok(value),
        None => Err(SheetRefusal::Missing { place, field }),
    }
}
