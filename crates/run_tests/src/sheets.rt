//! Sheets that several tests share.
use sheet_text::read_sheet;
use std::alloc::Global;
use std::test::Fail;
use task_sheet::Sheet;

/// A task `a`, and a task `b` that is less urgent and never preempted.
pub const NEVER_PREEMPTED: &str = "
policy = 'fp'
task = [
    { name = 'a', cost = 1, deadline = 4, priority = 2, period = 4 },
    { name = 'b', cost = 2, deadline = 6, priority = 1, period = 6, preemption = 'never' },
]";

/// The sheet of this text.
pub fn sheet_of(alloc: Global, text: &str) -> Result<Sheet, Fail> {
    Ok(read_sheet(alloc, text.as_bytes())?)
}
