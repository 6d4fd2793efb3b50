//! No preemption.
ghost use Rattle.std.specs.Prelude.{codes};
ghost use Rattle.preemption.specs.Kinds.{never_meaning};
ghost use Rattle.preemption.specs.Lawful.{never_lawful, never_tabled};

use crate::preemption::Preemption;
use crate::segments::{costs_within, has_none};
use crate::tabled::Tabled;
use task_sheet::{Job, Task};

/// A job that has begun runs to its end.
pub struct NeverCut;

impl Preemption for NeverCut {
    const NAME: &'static str = "never";

    ghost word = { codes "never" };

    ghost cuts = { never_meaning };

    ghost lawful = { never_lawful };

    fn word() -> &'static str {
        Self::NAME
    }

    fn cuttable(_task: &Task, job: &Job, s: u64) -> bool {
        s == 0 || job.cost <= s
    }

    fn longest(task: &Task) -> u64 {
        task.cost
    }

    fn threshold(_task: &Task) -> u64 {
        1
    }

    fn fits(task: &Task, job: &Job) -> bool {
        costs_within(task, job) && has_none(job.segs.as_slice())
    }
}

impl Tabled for NeverCut {
    ghost tabled = { never_tabled };
}
