//! What is known of a certificate after some of its lines.

use conditions::Failed;

/// What is known of a certificate after some of its lines, but for the bounds.
#[derive(Clone, Copy, Debug, PartialEq, Eq)]
pub struct Judged {
    /// The first condition that fails, but for the gap to the end of the last window.
    pub failed: Option<Failed>,
    /// The number of the last entry's task.
    pub task: u32,
    /// The window of the last entry, in ticks.
    pub window: u64,
    /// The bound of the last entry, in ticks.
    pub bound: u64,
    /// The offset of the entry's last point, in ticks.
    pub before: Option<u64>,
}
