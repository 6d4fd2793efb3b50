//! The limits that more than one crate keeps; `Limits` of the definitions has the same numbers.

/// The greatest number of a sheet, a certificate or a run.
pub const GREATEST_NUMBER: u64 = 1_000_000_000;
/// The greatest value of a step of a curve: a number of jobs.
pub const GREATEST_VALUE: u64 = 1_000_000;
/// The greatest length of a window that the rises of a curve are looked for to, in ticks.
pub const GREATEST_LENGTH: u64 = 4_000_000_000;
/// The most steps of a curve.
pub const MOST_STEPS: usize = 10_000;
/// The most segments of a task, and times of a promise of supply.
pub const MOST_PARTS: usize = 1_000;
/// The most tasks of a sheet, and entries of a certificate.
pub const MOST_TASKS: usize = 256;
/// The most points of a certificate.
pub const MOST_POINTS: u64 = 1_000_000;
/// The most jobs of a run.
pub const MOST_JOBS: usize = 20_000;
/// The most ticks of a run.
pub const MOST_TICKS: u64 = 100_000;
/// The most segments of the jobs of a run, together.
pub const MOST_SEGMENTS: usize = 1_000_000;
