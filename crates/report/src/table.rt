//! The report as a table.
ghost use Rattle.std.specs.Prelude.{◌≡◌, ◌≤◌, ◌++◌, ◌*◌, length, codes, decimal, OnOk, IfOk};
ghost use Rattle.std.specs.String.{string_bytes};
ghost use Rattle.lists.specs.Limits.{greatest_number};
ghost use Rattle.certificate.specs.Text.{IsWithinGrammar};
ghost use Rattle.task_sheet.specs.Sheets.{IsTask};
ghost use Rattle.report.specs.Rows.{rows_of};
ghost use Rattle.report.specs.TextReport.{result_word as result_word_of, bar_of, claim_columns, marks_of, result_columns, row_line, task_columns, text_report_of};

use crate::rows::{count_missed, is_met};
use certificate::{Cert, Entry};
use std::alloc::{AllocError, Global};
use std::fmt::Write;
use task_sheet::{Sheet, Task};

const HEADER: &str =
    "task                   cost   deadline      bound     window  points result use\n";

/// A mark for each twentieth of a deadline.
const MARKS: &str = "####################";

/// How many twentieths of the deadline the bound takes.
fn marks(bound: u64, deadline: u64) -> usize
    requires bound { bound ≤ greatest_number }
    requires deadline { 1 ≤ deadline }
    ensures marks { result ≡ marks_of bound deadline }
    ensures few { result ≤ 20 }
{
    (bound * 20).div_ceil(deadline).min(20) as usize
}

fn result_word(task: &Task, entry: &Entry) -> &'static str
    ensures { result.now ≡ result_word_of (task.now, entry.now) }
{
    if is_met(task, entry) { "met" } else { "missed" }
}

/// The name, the cost and the deadline.
fn write_task(text: &mut String, task: &Task) -> Result<(), AllocError>
    requires { IsTask task.now }
    ensures { OnOk result (string_bytes text.new ≡ string_bytes text.old ++
        task_columns task.now.name (decimal task.now.cost) (decimal task.now.deadline)) }
{
    let name = task.name.as_str();
    let (cost, deadline) = (task.cost, task.deadline);
    write!(text, "{name:<16} {cost:>10} {deadline:>10}")
}

/// The bound, the window and the number of points.
fn write_claim(text: &mut String, entry: &Entry) -> Result<(), AllocError>
    ensures { OnOk result (string_bytes text.new ≡ string_bytes text.old ++
        (codes " " ++ claim_columns (decimal entry.now.bound) (decimal entry.now.window)
        (decimal (length entry.now.points)))) }
{
    let (bound, window) = (entry.bound, entry.window);
    let points = entry.points.len();
    write!(text, " {bound:>10} {window:>10} {points:>7}")
}

/// Whether the deadline is met, and how much of it the bound takes.
fn write_result(text: &mut String, task: &Task, entry: &Entry) -> Result<(), AllocError>
    requires task { IsTask task.now }
    requires bound { entry.now.bound ≤ greatest_number }
    ensures { OnOk result (string_bytes text.new ≡ string_bytes text.old ++ (codes " " ++
        (result_columns (result_word_of (task.now, entry.now))
        (bar_of (marks_of entry.now.bound task.now.deadline)) ++ codes "\n"))) }
{
    let result = result_word(task, entry);
    let bar = &MARKS[..marks(entry.bound, task.deadline)];
    writeln!(text, " {result:<6} {bar:.<20}")
}

fn write_row(text: &mut String, task: &Task, entry: &Entry) -> Result<(), AllocError>
    requires task { IsTask task.now }
    requires bound { entry.now.bound ≤ greatest_number }
    ensures { OnOk result (string_bytes text.new ≡ string_bytes text.old ++
        row_line (task.now, entry.now)) }
{
    write_task(text, task)?;
    write_claim(text, entry)?;
    write_result(text, task, entry)
}

/// A table with a line for each task, in the tasks' order.
///
/// The certificate has an entry for each task, and its numbers are within the grammar.
pub fn text_report(alloc: Global, sheet: &Sheet, cert: &Cert) -> Result<Vec<u8>, AllocError>
    requires tasks { length cert.now.entries ≡ length sheet.now.tasks }
    requires within { IsWithinGrammar cert.now }
    ensures bytes { IfOk result (λ text. text.items ≡ text_report_of sheet.now cert.now) }
{
    let mut text = String::from_str(alloc, HEADER)?;
    for i in 0..sheet.len() {
        write_row(
            &mut text,
            sheet.task(i),
            &cert.entries.as_slice()[i as usize],
        )?;
    }
    let tasks = sheet.len();
    let missed = count_missed(sheet, cert);
    writeln!(text, "tasks {tasks} missed {missed}")?;
    Ok(text.into_bytes())
}
