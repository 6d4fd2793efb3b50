//! What an exercise gives.

/// What an exercise counts. Times are in ticks.
#[derive(Clone, Copy, Debug, PartialEq, Eq)]
pub struct Exercise {
    /// The points of the best certificate.
    pub points: u64,
    /// The greatest of its bounds.
    pub greatest: u64,
    /// The jobs of the run.
    pub jobs: u64,
    /// Those that are done at its end.
    pub done: u64,
    /// The greatest of their response times, or 0 if there are none.
    pub worst: u64,
}
