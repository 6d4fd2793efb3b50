//! Preemption between segments that each job chooses.
ghost use Rattle.std.specs.Prelude.{codes};
ghost use Rattle.preemption.specs.Kinds.{floating_meaning};
ghost use Rattle.preemption.specs.Lawful.{floating_lawful, floating_tabled};

use crate::preemption::Preemption;
use crate::segments::{are_lengths_within, bound_of, costs_within, is_prefix_sum, is_sum};
use crate::tabled::Tabled;
use task_sheet::{Job, Task};

/// A job can be cut between its segments, which are no longer than its task's bound.
pub struct FloatingCut;

impl Preemption for FloatingCut {
    const NAME: &'static str = "floating";

    ghost word = { codes "floating" };

    ghost cuts = { floating_meaning };

    ghost lawful = { floating_lawful };

    fn word() -> &'static str {
        Self::NAME
    }

    fn cuttable(_task: &Task, job: &Job, s: u64) -> bool {
        is_prefix_sum(job.segs.as_slice(), s) || job.cost <= s
    }

    fn longest(task: &Task) -> u64 {
        bound_of(task)
    }

    fn threshold(task: &Task) -> u64 {
        task.cost
    }

    fn fits(task: &Task, job: &Job) -> bool {
        let segments = job.segs.as_slice();
        costs_within(task, job)
            && are_lengths_within(bound_of(task), segments)
            && is_sum(segments, job.cost)
    }
}

impl Tabled for FloatingCut {
    ghost tabled = { floating_tabled };
}
