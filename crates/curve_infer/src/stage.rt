//! Which line of a trace's text comes next.

/// Which line comes next.
#[derive(Clone, Copy, Debug)]
pub(crate) enum Stage {
    /// The name of the format.
    Head,
    /// The number of arrivals.
    Count,
    /// An arrival no earlier than `last`, of which so many are left; or the last line.
    Times { left: u64, last: u64 },
    /// None.
    Over,
}
