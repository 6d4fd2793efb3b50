//! What a sheet says of its tasks, its policy and its supply.
ghost use Rattle.std.specs.Prelude.{◌≡◌};
ghost use Rattle.task_sheet.specs.Words.{policy_word};

use curve::Prefix;
use lists::{Items, Text};

/// The scheduling policy.
#[derive(Clone, Copy, Debug, PartialEq, Eq)]
pub enum PolicyKind {
    /// Fixed priority: a greater priority is more urgent.
    Fp,
    /// Earliest deadline first.
    Edf,
    /// First in, first out.
    Fifo,
    /// By priority points: an earlier arrival plus point is more urgent.
    Gel,
    /// By priorities as `Fp`, and among equal ones by points as `Gel`.
    Elf,
}

impl PolicyKind {
    /// The word that names the policy in texts.
    pub fn word(self) -> &'static str
        ensures { result.now ≡ policy_word self }
    {
        match self {
            PolicyKind::Fp => "fp",
            PolicyKind::Edf => "edf",
            PolicyKind::Fifo => "fifo",
            PolicyKind::Gel => "gel",
            PolicyKind::Elf => "elf",
        }
    }
}

/// What is promised of the processor.
#[derive(Debug, Drop, PartialEq)]
pub enum SupplySpec {
    /// Every tick is supplied.
    Unit,
    /// In every window of `d` ticks at least as many ticks are supplied as `times` are at most `d`,
    /// for `d` up to `horizon`, and so on for each further horizon.
    Promised { horizon: u64, times: Items<u64> },
}

/// Where jobs of a task may be preempted.
#[derive(Debug, Drop, PartialEq)]
pub enum Cut {
    /// At every tick.
    Full,
    /// Never, once begun.
    Never,
    /// Between the given segments, whose sum is the cost.
    Fixed(Items<u64>),
    /// Between segments that the job chooses, each at most so long.
    Floating(u64),
}

/// A task. Times are in ticks.
#[derive(Debug, Drop)]
pub struct Task {
    pub name: Text,
    /// The most service that a job needs.
    pub cost: u64,
    /// Relative to the arrival.
    pub deadline: u64,
    /// A greater one is more urgent.
    pub priority: u64,
    /// How long after its arrival a job may be released at most.
    pub jitter: u64,
    /// The priority point, relative to the arrival.
    pub point: i64,
    /// How many jobs may arrive.
    pub curve: Prefix,
    pub cut: Cut,
}

/// A job of a task. Times are in ticks.
#[derive(Debug, Drop, PartialEq)]
pub struct Job {
    /// The task's number in its sheet.
    pub task: u32,
    pub arrival: u64,
    /// From then on the job is ready: at its arrival, or later by its task's jitter at most.
    pub release: u64,
    /// The service that it needs.
    pub cost: u64,
    /// The lengths between which it can be preempted, for a task with segments.
    pub segs: Items<u64>,
}
