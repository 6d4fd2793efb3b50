//! Cuts at even services.
ghost use Rattle.std.specs.Prelude.{codes};
ghost use Rattle.toy_policy.specs.EvenCuts.{even_meaning};
ghost use Rattle.toy_policy.specs.EvenLawful.{even_lawful};

use preemption::Preemption;
use task_sheet::{Job, Task};

/// A job can be cut at each even service and once it is done, whatever the sheet says of its task:
/// a kind that is not in the table.
pub struct EvenCut;

impl Preemption for EvenCut {
    const NAME: &'static str = "even";

    ghost word = { codes "even" };

    ghost cuts = { even_meaning };

    ghost lawful = { λ task ok _. even_lawful task ok };

    fn word() -> &'static str {
        Self::NAME
    }

    fn cuttable(_task: &Task, job: &Job, s: u64) -> bool {
        s % 2 == 0 || job.cost <= s
    }

    fn longest(task: &Task) -> u64 {
        task.cost.min(2)
    }

    fn threshold(task: &Task) -> u64 {
        if task.cost % 2 == 0 {
            task.cost - 1
        } else {
            task.cost
        }
    }

    fn fits(task: &Task, job: &Job) -> bool {
        1 <= job.cost && job.cost <= task.cost
    }
}
