//! Small sheets as texts, which the tests of several crates are over.
#![tactic(auto)]

use sheet_text::read_sheet;
use std::alloc::Global;
use task_sheet::{Sheet, SheetRefusal};

/// Two tasks of cost 2 under their deadlines.
pub const TWO_DEADLINES: &str = "
policy = 'edf'
task = [
    { name = 'a', cost = 2, deadline = 4, period = 4 },
    { name = 'b', cost = 2, deadline = 6, period = 6 },
]";

/// A job is released up to 3 ticks after its arrival.
pub const JITTER: &str = "
policy = 'fp'
task = [{ name = 'a', cost = 2, deadline = 5, priority = 1, jitter = 3, period = 5 }]";

/// Two jobs can be released one tick after the other.
pub const JITTER_POINTS: &str = "
policy = 'fp'
task = [{ name = 'a', cost = 2, deadline = 5, priority = 1, jitter = 4, period = 5 }]";

/// A job of `v` that arrives after one of `u` can run first, and is not preempted.
pub const JITTER_BLOCKING: &str = "
policy = 'fifo'
task = [
    { name = 'u', cost = 1, deadline = 10, jitter = 2, period = 10 },
    { name = 'v', cost = 3, deadline = 10, period = 10, preemption = 'never' },
]";

/// The points are the deadlines.
pub const POINTS_AS_DEADLINES: &str = "
policy = 'gel'
task = [
    { name = 'a', cost = 2, deadline = 4, point = 4, period = 4 },
    { name = 'b', cost = 2, deadline = 6, point = 6, period = 6 },
]";

/// Of two tasks of the smaller priority, `b` has the earlier point.
pub const POINTS_WITHIN_A_PRIORITY: &str = "
policy = 'elf'
task = [
    { name = 'a', cost = 1, deadline = 4, priority = 2, period = 4 },
    { name = 'b', cost = 2, deadline = 8, priority = 1, point = 4, period = 8 },
    { name = 'c', cost = 2, deadline = 8, priority = 1, point = 6, period = 8 },
]";

/// Eight tasks, in microseconds; the third comes in bursts of two.
pub const EIGHT_TASKS: &str = "
policy = 'fp'
task = [
    { name = 'motor', cost = 120, deadline = 1000, priority = 8, period = 1000 },
    { name = 'sensor', cost = 200, deadline = 2000, priority = 7, period = 2000, preemption = 'never' },
    { name = 'can_rx', cost = 80, deadline = 5000, priority = 6, curve = { horizon = 5000, steps = [[1, 2], [2500, 4]] } },
    { name = 'control', cost = 600, deadline = 5000, priority = 5, period = 5000, preemption = { fixed = [200, 300, 100] } },
    { name = 'filter', cost = 900, deadline = 10000, priority = 4, period = 10000, preemption = { floating = 250 } },
    { name = 'logger', cost = 1500, deadline = 20000, priority = 3, period = 20000, preemption = { floating = 400 } },
    { name = 'display', cost = 4000, deadline = 50000, priority = 2, period = 50000, preemption = { fixed = [500, 500, 500, 500, 500, 500, 500, 500] } },
    { name = 'self_test', cost = 8000, deadline = 100000, priority = 1, period = 100000 },
]";

/// The sheet of this text.
///
/// # Errors
/// As `read_sheet`.
pub fn sheet_of(alloc: Global, text: &str) -> Result<Sheet, SheetRefusal> {
    read_sheet(alloc, text.as_bytes())
}
