//! Preemption between the segments that a task fixes.
ghost use Rattle.std.specs.Prelude.{codes};
ghost use Rattle.preemption.specs.Kinds.{fixed_meaning};
ghost use Rattle.preemption.specs.Lawful.{fixed_lawful, fixed_tabled};

use crate::preemption::Preemption;
use crate::segments::{
    costs_within, each_within, greatest, is_prefix_sum, is_sum, last, segments_of,
};
use crate::tabled::Tabled;
use task_sheet::{Job, Task};

/// A job can be cut between its segments, which are no longer than those of its task.
pub struct FixedCut;

impl Preemption for FixedCut {
    const NAME: &'static str = "fixed";

    ghost word = { codes "fixed" };

    ghost cuts = { fixed_meaning };

    ghost lawful = { fixed_lawful };

    fn word() -> &'static str {
        Self::NAME
    }

    fn cuttable(_task: &Task, job: &Job, s: u64) -> bool {
        is_prefix_sum(job.segs.as_slice(), s) || job.cost <= s
    }

    fn longest(task: &Task) -> u64 {
        greatest(segments_of(task))
    }

    fn threshold(task: &Task) -> u64 {
        task.cost - last(segments_of(task)) + 1
    }

    fn fits(task: &Task, job: &Job) -> bool {
        let segments = job.segs.as_slice();
        costs_within(task, job)
            && each_within(segments, segments_of(task))
            && is_sum(segments, job.cost)
    }
}

impl Tabled for FixedCut {
    ghost tabled = { fixed_tabled };
}
