//! The state of a simulation.

use rand_xoshiro::SplitMix64;
use run_model::Tick;
use std::collections::{BTreeMap, BTreeSet};
use task_sheet::Job;
use urgency::Rank;

/// When a job that is still to come is released.
#[derive(Clone, Copy, Debug, PartialEq, Eq, PartialOrd, Ord)]
pub struct Due {
    pub release: u64,
    pub number: u32,
}

/// The run so far, and what the next tick needs.
#[derive(Drop)]
pub struct Simulation {
    pub jobs: Vec<Job>,
    pub ticks: Vec<Tick>,
    pub words: SplitMix64,
    /// The service that each job still needs.
    pub left: Vec<u64>,
    /// The jobs that are released and not done.
    pub queue: BTreeMap<Rank, u32>,
    /// The jobs that are still to be released.
    pub coming: BTreeSet<Due>,
    /// The job that is inside a segment.
    pub inside: Option<u32>,
    /// How many segments the jobs have.
    pub segments: usize,
    /// For each task, when its jobs arrived, in ascending order.
    pub arrivals: Vec<Vec<u64>>,
    /// For each task, when its last job was released; 0 where it has none.
    pub releases: Vec<u64>,
    /// How many ticks before each tick were supplied.
    pub counts: Vec<u64>,
}
