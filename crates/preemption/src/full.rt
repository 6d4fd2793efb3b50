//! Preemption at every tick.
ghost use Rattle.std.specs.Prelude.{codes};
ghost use Rattle.preemption.specs.Kinds.{full_meaning};
ghost use Rattle.preemption.specs.Lawful.{full_lawful, full_tabled};

use crate::preemption::Preemption;
use crate::segments::{costs_within, has_none};
use crate::tabled::Tabled;
use task_sheet::{Job, Task};

/// A job can be cut at every tick.
pub struct FullCut;

impl Preemption for FullCut {
    const NAME: &'static str = "full";

    ghost word = { codes "full" };

    ghost cuts = { full_meaning };

    ghost lawful = { full_lawful };

    fn word() -> &'static str {
        Self::NAME
    }

    fn cuttable(_task: &Task, _job: &Job, _s: u64) -> bool {
        true
    }

    fn longest(_task: &Task) -> u64 {
        1
    }

    fn threshold(task: &Task) -> u64 {
        task.cost
    }

    fn fits(task: &Task, job: &Job) -> bool {
        costs_within(task, job) && has_none(job.segs.as_slice())
    }
}

impl Tabled for FullCut {
    ghost tabled = { full_tabled };
}
