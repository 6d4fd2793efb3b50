//! The versions of a run's text.

/// The versions of a run's text.
#[derive(Clone, Copy, Debug)]
pub(crate) enum Version {
    /// The line of a job says no release: the job is released at its arrival.
    First,
    /// The line of a job says its release.
    Second,
}
