//! The report as JSON.
ghost use Rattle.std.specs.Prelude.{◌≡◌, ◌++◌, length, map, codes, IfOk};
ghost use Rattle.serde_json.specs.View.{view};
ghost use Rattle.serde_json.specs.Written.{compact_text};
ghost use Rattle.certificate.specs.Text.{IsWithinGrammar};
ghost use Rattle.report.specs.Rows.{rows_of};
ghost use Rattle.report.specs.JsonReport.{row_data, report_data, json_report_of};

use crate::rows::{count_missed, is_met};
use certificate::{Cert, Entry};
use serde_json::{Value, json};
use std::alloc::{AllocError, Global};
use task_sheet::{Sheet, Task};

fn row_value(alloc: Global, task: &Task, entry: &Entry) -> Result<Value, AllocError>
    ensures { IfOk result (λ value. view value ≡ row_data (task.now, entry.now)) }
{
    let points = entry.points.len() as u64;
    let met = is_met(task, entry);
    json!(in alloc; {
        "name": task.name.as_str(),
        "cost": task.cost,
        "deadline": task.deadline,
        "bound": entry.bound,
        "window": entry.window,
        "points": points,
        "met": met
    })
}

fn row_values(alloc: Global, sheet: &Sheet, cert: &Cert) -> Result<Vec<Value>, AllocError>
    requires { length cert.now.entries ≡ length sheet.now.tasks }
    ensures { IfOk result (λ values. map view values.items ≡
        map row_data (rows_of sheet.now cert.now)) }
{
    let mut values = Vec::new(alloc);
    for i in 0..sheet.len() {
        let entry = &cert.entries.as_slice()[i as usize];
        values.push(row_value(alloc, sheet.task(i), entry)?)?;
    }
    Ok(values)
}

fn report_value(alloc: Global, sheet: &Sheet, cert: &Cert) -> Result<Value, AllocError>
    requires { length cert.now.entries ≡ length sheet.now.tasks }
    ensures { IfOk result (λ value. view value ≡ report_data sheet.now cert.now) }
{
    let tasks = Value::Array(row_values(alloc, sheet, cert)?);
    let policy = sheet.policy().word();
    let missed = count_missed(sheet, cert);
    json!(in alloc; {"policy": policy, "missed": missed, "tasks": tasks})
}

/// One JSON object on a line, with an object for each task, in the tasks' order.
///
/// The certificate has an entry for each task, and its numbers are within the grammar.
pub fn json_report(alloc: Global, sheet: &Sheet, cert: &Cert) -> Result<Vec<u8>, AllocError>
    requires tasks { length cert.now.entries ≡ length sheet.now.tasks }
    requires within { IsWithinGrammar cert.now }
    ensures bytes { IfOk result (λ text. text.items ≡ json_report_of sheet.now cert.now) }
    ensures value { IfOk result (λ text. text.items ≡
        compact_text (report_data sheet.now cert.now) ++ codes "\n") }
{
    let mut text = report_value(alloc, sheet, cert)?.to_string(alloc)?;
    text.push('\n')?;
    Ok(text.into_bytes())
}
