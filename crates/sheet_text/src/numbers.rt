//! Numbers of a document.
ghost use Rattle.std.specs.Prelude.{◌≡◌, true, IfOk, option_map};
ghost use Rattle.lists.specs.Limits.{greatest_number};
ghost use Rattle.toml.specs.Data.{integer};
ghost use Rattle.toml.specs.View.{view, items_view};
ghost use Rattle.lists.specs.Ranges.{is_between};
ghost use Rattle.sheet_text.specs.Documents.{whole_rule, positive_rule, natural as natural_of, number_of, all_of, all_in};

use crate::document::needed_value;
use lists::limits::GREATEST_NUMBER;
use std::alloc::{AllocError, Global};
use task_sheet::{Field, Place, SheetRefusal};
use toml::Value;

fn in_range(n: i64, place: Place, field: Field, low: u64, high: u64) -> Result<u64, SheetRefusal>
    ensures within { IfOk result (λ n. is_between low high n ≡ true) }
    ensures gives { result ≡ whole_rule place field low high (integer n) }
{
    match u64::try_from(n) {
        Ok(n) if low <= n && n <= high => Ok(n),
        _ => Err(SheetRefusal::Range { place, field }),
    }
}

/// An integer from `low` to `high`.
pub fn whole(
    value: &Value,
    place: Place,
    field: Field,
    low: u64,
    high: u64,
) -> Result<u64, SheetRefusal>
    ensures within { IfOk result (λ n. is_between low high n ≡ true) }
    ensures gives { result ≡ whole_rule place field low high (view value.now) }
{
    match value {
        Value::Integer(n) => in_range(*n, place, field, low, high),
        _ => Err(SheetRefusal::Kind { place, field }),
    }
}

/// An integer from 1 to 10^9 at a key, which has to be there.
pub fn positive(value: &Value, key: &str, place: Place, field: Field) -> Result<u64, SheetRefusal>
    ensures within { IfOk result (λ n. is_between 1 greatest_number n ≡ true) }
    ensures gives { result ≡ positive_rule key.now place field (view value.now) }
{
    whole(
        needed_value(value, key, place, field)?,
        place,
        field,
        1,
        GREATEST_NUMBER,
    )
}

fn natural(n: i64) -> u64
    ensures { result ≡ natural_of n }
{
    match u64::try_from(n) {
        Ok(n) => n,
        Err(_) => 0,
    }
}

/// An integer, where a negative one is given as 0.
pub fn number(value: &Value) -> Option<u64>
    ensures { result ≡ number_of (view value.now) }
{
    match value.as_integer() {
        Some(n) => Some(natural(n)),
        None => None,
    }
}

fn all_numbers(alloc: Global, items: &[Value]) -> Result<Option<Vec<u64>>, AllocError>
    ensures { IfOk result (λ o. option_map (λ v. v.items) o ≡
        all_of number_of (items_view items.now)) }
{
    let mut numbers = Vec::new(alloc);
    'items: for item in items {
        match number(item) {
            Some(n) => numbers.push(n)?,
            None => return Ok(None),
        }
    }
    Ok(Some(numbers))
}

/// The integers of an array of integers.
pub fn numbers(alloc: Global, value: &Value) -> Result<Option<Vec<u64>>, AllocError>
    ensures { IfOk result (λ o. option_map (λ v. v.items) o ≡
        all_in number_of (view value.now)) }
{
    match value {
        Value::Array(items) => all_numbers(alloc, items.as_slice()),
        _ => Ok(None),
    }
}
