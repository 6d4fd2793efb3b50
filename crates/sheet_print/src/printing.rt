//! Printing a sheet.
ghost use Rattle.std.specs.Prelude.{◌≡◌, ◌<◌, ◌≤◌, ◌^◌, true, map, IfOk, OnOk, Some, Ok};
ghost use Rattle.std.specs.List.{list_all};
ghost use Rattle.lists.specs.Limits.{most_parts};
ghost use Rattle.toml.specs.Data.{table, member, no_members};
ghost use Rattle.toml.specs.View.{view, table_view};
ghost use Rattle.curve.specs.Validity.{is_step};
ghost use Rattle.task_sheet.specs.Rules.{are_in_range};
ghost use Rattle.task_sheet.specs.Sheets.{IsPromise, IsTask, IsValidSheet};
ghost use Rattle.sheet_print.specs.Printed.{put as put_of, put_jitter as put_jitter_of, put_point as put_point_of, array_data, number_data, step_data, curve_data, cut_data, plain_data, task_data, promise_data, put_promise as put_promise_of, sheet_data};
ghost use Rattle.sheet_text.specs.Documents.{document_of};
ghost use Rattle.sheet_text.specs.SheetRows.{sheet_of_text};

use curve::{Prefix, Step};
use std::alloc::{AllocError, Global};
use task_sheet::{Cut, Sheet, SupplySpec, Task};
use toml::{Table, Value};

fn put(alloc: Global, table: &mut Table, key: &str, value: Value) -> Result<(), AllocError>
    ensures { OnOk result (table_view table.new ≡
        put_of key.now (view value) (table_view table.old)) }
{
    let _ = table.insert(String::from_str(alloc, key)?, value)?;
    Ok(())
}

fn number_value(n: u64) -> Value
    requires { n < 2 ^ 63 }
    ensures { view result ≡ number_data n }
{
    Value::Integer(n as i64)
}

fn numbers_value(alloc: Global, numbers: &[u64]) -> Result<Value, AllocError>
    requires { are_in_range most_parts numbers.now ≡ true }
    ensures { IfOk result (λ v. view v ≡ array_data number_data numbers.now) }
{
    let mut values = Vec::new(alloc);
    'numbers: for n in numbers {
        values.push(number_value(*n))?;
    }
    Ok(Value::Array(values))
}

fn step_value(alloc: Global, step: &Step) -> Result<Value, AllocError>
    requires { is_step step.now ≡ true }
    ensures { IfOk result (λ v. view v ≡ step_data step.now) }
{
    let mut pair = Vec::new(alloc);
    pair.push(number_value(step.time))?;
    pair.push(number_value(step.value))?;
    Ok(Value::Array(pair))
}

fn steps_value(alloc: Global, steps: &[Step]) -> Result<Value, AllocError>
    requires { list_all is_step steps.now ≡ true }
    ensures { IfOk result (λ v. view v ≡ array_data step_data steps.now) }
{
    let mut values = Vec::new(alloc);
    'steps: for step in steps {
        values.push(step_value(alloc, step)?)?;
    }
    Ok(Value::Array(values))
}

fn curve_value(alloc: Global, curve: &Prefix) -> Result<Value, AllocError>
    ensures { IfOk result (λ v. view v ≡ curve_data curve.now) }
{
    let mut table = Table::new(alloc);
    put(alloc, &mut table, "horizon", number_value(curve.horizon()))?;
    put(
        alloc,
        &mut table,
        "steps",
        steps_value(alloc, curve.steps())?,
    )?;
    Ok(Value::Table(table))
}

/// A table of one pair.
fn single(alloc: Global, key: &str, value: Value) -> Result<Value, AllocError>
    ensures { IfOk result (λ v. view v ≡ table (member key.now (view value) no_members)) }
{
    let mut table = Table::new(alloc);
    put(alloc, &mut table, key, value)?;
    Ok(Value::Table(table))
}

fn cut_value(alloc: Global, task: &Task) -> Result<Value, AllocError>
    requires { IsTask task.now }
    ensures { IfOk result (λ v. view v ≡ cut_data task.now.cut) }
{
    match &task.cut {
        Cut::Full => Value::string(alloc, "full"),
        Cut::Never => Value::string(alloc, "never"),
        Cut::Fixed(segments) => single(alloc, "fixed", numbers_value(alloc, segments.as_slice())?),
        Cut::Floating(longest) => single(alloc, "floating", number_value(*longest)),
    }
}

fn plain_table(alloc: Global, task: &Task) -> Result<Table, AllocError>
    requires { IsTask task.now }
    ensures { IfOk result (λ t. table_view t ≡ plain_data task.now) }
{
    let mut table = Table::new(alloc);
    put(
        alloc,
        &mut table,
        "name",
        Value::string(alloc, task.name.as_str())?,
    )?;
    put(alloc, &mut table, "cost", number_value(task.cost))?;
    put(alloc, &mut table, "deadline", number_value(task.deadline))?;
    put(alloc, &mut table, "priority", number_value(task.priority))?;
    put(alloc, &mut table, "curve", curve_value(alloc, &task.curve)?)?;
    put(alloc, &mut table, "preemption", cut_value(alloc, task)?)?;
    Ok(table)
}

/// The jitter, if it is above 0.
fn put_jitter(alloc: Global, table: &mut Table, jitter: u64) -> Result<(), AllocError>
    requires { jitter < 2 ^ 63 }
    ensures { OnOk result (table_view table.new ≡ put_jitter_of jitter (table_view table.old)) }
{
    match jitter {
        0 => Ok(()),
        _ => put(alloc, table, "jitter", number_value(jitter)),
    }
}

/// The priority point, if it is not 0.
fn put_point(alloc: Global, table: &mut Table, point: i64) -> Result<(), AllocError>
    ensures { OnOk result (table_view table.new ≡ put_point_of point (table_view table.old)) }
{
    match point {
        0 => Ok(()),
        _ => put(alloc, table, "point", Value::Integer(point)),
    }
}

fn task_value(alloc: Global, task: &Task) -> Result<Value, AllocError>
    requires { IsTask task.now }
    ensures { IfOk result (λ v. view v ≡ task_data task.now) }
{
    let mut table = plain_table(alloc, task)?;
    put_jitter(alloc, &mut table, task.jitter)?;
    put_point(alloc, &mut table, task.point)?;
    Ok(Value::Table(table))
}

fn tasks_value(alloc: Global, sheet: &Sheet) -> Result<Value, AllocError>
    ensures { IfOk result (λ v. view v ≡ array_data task_data sheet.now.tasks) }
{
    let mut values = Vec::new(alloc);
    'tasks: for i in 0..sheet.len() {
        values.push(task_value(alloc, sheet.task(i))?)?;
    }
    Ok(Value::Array(values))
}

fn promise_value(alloc: Global, horizon: u64, times: &[u64]) -> Result<Value, AllocError>
    requires horizon { horizon < 2 ^ 63 }
    requires times { are_in_range most_parts times.now ≡ true }
    ensures { IfOk result (λ v. view v ≡ promise_data horizon times.now) }
{
    let mut table = Table::new(alloc);
    put(alloc, &mut table, "horizon", number_value(horizon))?;
    put(alloc, &mut table, "times", numbers_value(alloc, times)?)?;
    Ok(Value::Table(table))
}

/// What is promised of the processor, if anything is.
fn put_promise(alloc: Global, table: &mut Table, supply: &SupplySpec) -> Result<(), AllocError>
    requires { IsPromise supply.now }
    ensures { OnOk result (table_view table.new ≡
        put_promise_of supply.now (table_view table.old)) }
{
    match supply {
        SupplySpec::Unit => Ok(()),
        SupplySpec::Promised { horizon, times } => put(
            alloc,
            table,
            "supply",
            promise_value(alloc, *horizon, times.as_slice())?,
        ),
    }
}

fn sheet_table(alloc: Global, sheet: &Sheet) -> Result<Table, AllocError>
    ensures data { IfOk result (λ t. table_view t ≡ sheet_data sheet.now) }
    ensures valid { OnOk result (IsValidSheet sheet.now) }
{
    let mut table = Table::new(alloc);
    put(
        alloc,
        &mut table,
        "policy",
        Value::string(alloc, sheet.policy().word())?,
    )?;
    put(alloc, &mut table, "task", tasks_value(alloc, sheet)?)?;
    put_promise(alloc, &mut table, sheet.supply())?;
    Ok(table)
}

/// The text of a sheet: a TOML document that [`read_sheet`](sheet_text::read_sheet) reads as that sheet.
///
/// Keys stand in the order of their bytes. A period is printed as the curve that it means.
pub fn print_sheet(alloc: Global, sheet: &Sheet) -> Result<Vec<u8>, AllocError>
    ensures reads { IfOk result (λ text. sheet_of_text text.items ≡ Ok sheet.now) }
    ensures document { IfOk result (λ text. document_of text.items ≡
        Some (table (sheet_data sheet.now))) }
{
    let table = sheet_table(alloc, sheet)?;
    match toml::table_to_string(alloc, &table) {
        Ok(text) => Ok(text.into_bytes()),
        Err(_) => Err(AllocError),
    }
}
