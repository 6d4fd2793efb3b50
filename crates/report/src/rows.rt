//! What a report tells of each task.
ghost use Rattle.std.specs.Prelude.{◌≡◌, length};
ghost use Rattle.report.specs.Rows.{is_met as is_met_of, missed_of, rows_of};

use certificate::{Cert, Entry};
use task_sheet::{Sheet, Task};

/// Whether the bound is within the deadline.
pub fn is_met(task: &Task, entry: &Entry) -> bool
    ensures { result ≡ is_met_of (task.now, entry.now) }
{
    entry.bound <= task.deadline
}

/// How many bounds are above their deadlines.
pub fn count_missed(sheet: &Sheet, cert: &Cert) -> u64
    requires { length cert.now.entries ≡ length sheet.now.tasks }
    ensures { result ≡ missed_of (rows_of sheet.now cert.now) }
{
    let mut missed = 0;
    for i in 0..sheet.len() {
        let late = !is_met(sheet.task(i), &cert.entries.as_slice()[i as usize]);
        if late {
            missed += 1;
        }
    }
    missed
}
