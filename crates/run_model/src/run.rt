//! A run of the processor.
use lists::Items;
use task_sheet::Job;

/// What the processor does at a tick.
#[derive(Clone, Copy, Debug, PartialEq, Eq)]
pub enum Tick {
    /// It is not supplied.
    Off,
    /// It is supplied and runs nothing.
    Idle,
    /// It runs the job with this number, counted from 0.
    Runs(u32),
}

/// Jobs, numbered from 0, and ticks, from tick 0 on.
#[derive(Debug, Drop, PartialEq)]
pub struct Run {
    pub jobs: Items<Job>,
    pub ticks: Items<Tick>,
}
