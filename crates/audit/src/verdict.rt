//! The verdict on a run.
use lists::Items;

/// A rule of compliance, in the order in which they are judged.
#[derive(Clone, Copy, Debug, PartialEq, Eq)]
pub enum Rule {
    /// Every job is of a task of the sheet, and fits it.
    Fit,
    /// Every job is released at its arrival or later, by its task's jitter at most, and no job of
    /// its task with an earlier arrival is released later.
    Release,
    /// What runs is pending, and the jobs of its task that arrived earlier are done.
    Valid,
    /// No more jobs of a task arrive than its curve says.
    Curve,
    /// As many ticks are supplied as promised.
    Supply,
    /// No tick is idle while a job is pending.
    Idle,
    /// A job inside a segment runs at every supplied tick.
    Segment,
    /// What runs where it can be cut is at least as urgent as every pending job.
    Priority,
}

/// The first rule that a run breaks, and its first place.
#[derive(Clone, Copy, Debug, PartialEq, Eq)]
pub struct Fault {
    pub rule: Rule,
    pub job: Option<u32>,
    pub tick: Option<u64>,
}

/// A job at a tick.
#[derive(Clone, Copy)]
pub struct Place {
    pub tick: u64,
    pub job: u32,
}

/// What is seen of the jobs of a task.
#[derive(Clone, Copy, Debug, PartialEq, Eq)]
pub struct Seen {
    /// How many there are.
    pub jobs: u64,
    /// How many of them are done by the end of the run.
    pub done: u64,
    /// The greatest number of ticks from an arrival to its completion among those, or 0.
    pub worst: u64,
}

/// The verdict on a run.
#[derive(Debug, Drop, PartialEq)]
pub enum AuditVerdict {
    /// The run complies; what is seen of each task, in their order.
    Compliant(Items<Seen>),
    /// The first rule that the run breaks, at its first place. Jobs and ticks are counted from 0.
    Broken {
        rule: Rule,
        /// The job at fault, but for `Supply`.
        job: Option<u32>,
        /// The tick at fault, but for `Fit` and `Release`; for `Curve` the arrival of the job.
        tick: Option<u64>,
    },
}
