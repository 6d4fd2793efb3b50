//! Which line of a run's text comes next.

use crate::version::Version;
use run_model::Tick;

/// Which line comes next.
#[derive(Clone, Copy, Debug)]
pub(crate) enum Stage {
    /// The name of the format and its version.
    Head,
    /// The numbers of jobs and ticks.
    Counts {
        version: Version,
    },
    /// A job, and `after` more behind it, with at most `room` segments together; then the ticks.
    Jobs {
        version: Version,
        after: u64,
        room: u64,
        ticks: u64,
    },
    /// Ticks other than those of the line before, of which so many are left; or the last line.
    Ticks {
        before: Option<Tick>,
        left: u64,
    },
    /// None.
    Over,
}
