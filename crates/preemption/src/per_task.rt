//! Each task by its own kind.
ghost use Rattle.std.specs.Prelude.{codes};
ghost use Rattle.preemption.specs.Kinds.{per_task_meaning};
ghost use Rattle.preemption.specs.Lawful.{per_task_lawful, per_task_tabled};

use crate::fixed::FixedCut;
use crate::floating::FloatingCut;
use crate::full::FullCut;
use crate::never::NeverCut;
use crate::preemption::Preemption;
use crate::tabled::Tabled;
use task_sheet::{Cut, Job, Task};

/// A job can be cut as the sheet says of its task.
pub struct PerTask;

impl Preemption for PerTask {
    const NAME: &'static str = "per-task";

    ghost word = { codes "per-task" };

    ghost cuts = { per_task_meaning };

    ghost lawful = { λ task ok _. per_task_lawful task ok };

    fn word() -> &'static str {
        Self::NAME
    }

    fn cuttable(task: &Task, job: &Job, s: u64) -> bool {
        match &task.cut {
            Cut::Full => FullCut::cuttable(task, job, s),
            Cut::Never => NeverCut::cuttable(task, job, s),
            Cut::Fixed(_) => FixedCut::cuttable(task, job, s),
            Cut::Floating(_) => FloatingCut::cuttable(task, job, s),
        }
    }

    fn longest(task: &Task) -> u64 {
        match &task.cut {
            Cut::Full => FullCut::longest(task),
            Cut::Never => NeverCut::longest(task),
            Cut::Fixed(_) => FixedCut::longest(task),
            Cut::Floating(_) => FloatingCut::longest(task),
        }
    }

    fn threshold(task: &Task) -> u64 {
        match &task.cut {
            Cut::Full => FullCut::threshold(task),
            Cut::Never => NeverCut::threshold(task),
            Cut::Fixed(_) => FixedCut::threshold(task),
            Cut::Floating(_) => FloatingCut::threshold(task),
        }
    }

    fn fits(task: &Task, job: &Job) -> bool {
        match &task.cut {
            Cut::Full => FullCut::fits(task, job),
            Cut::Never => NeverCut::fits(task, job),
            Cut::Fixed(_) => FixedCut::fits(task, job),
            Cut::Floating(_) => FloatingCut::fits(task, job),
        }
    }
}

impl Tabled for PerTask {
    ghost tabled = { λ task _. per_task_tabled task };
}
