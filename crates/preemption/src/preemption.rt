//! What a kind of preemption is.
ghost use Rattle.std.specs.Prelude.{◌≡◌, ◌≤◌, ℕ, List, true};
ghost use Rattle.lists.specs.Limits.{greatest_number};
ghost use Rattle.task_sheet.specs.declared.tasks.Task.{Task as TaskValue};
ghost use Rattle.task_sheet.specs.Sheets.{CutFits, IsTask};
ghost use Rattle.preemption.specs.CutMeaning.{CutMeaning};
ghost use Rattle.preemption.specs.CutLaws.{IsLawfulCut};

use task_sheet::{Job, Task};

/// A kind of preemption: at which services a job can be cut, with the laws that the bounds rest on.
pub trait Preemption {
    /// The word that names the kind.
    const NAME: &'static str;

    ghost word: { List ℕ };

    ghost cuts: { CutMeaning };

    /// The same word as `NAME`, with what it is as a clause.
    fn word() -> &'static str
        ensures { result.now ≡ word };

    /// Whether a job can be preempted once it has had `s` ticks of service.
    fn cuttable(task: &Task, job: &Job, s: u64) -> bool
        ensures { result ≡ cuts.cuttable task.now job.now s };

    /// The most service between two places where a job can be cut.
    fn longest(task: &Task) -> u64
        requires cost_low { 1 ≤ task.now.cost }
        requires cost_high { task.now.cost ≤ greatest_number }
        requires cut { CutFits task.now.cost task.now.cut }
        requires serves { cuts.serves task.now ≡ true }
        ensures { result ≡ cuts.longest task.now };

    /// From how much service on a job is not cut any more.
    fn threshold(task: &Task) -> u64
        requires cost_low { 1 ≤ task.now.cost }
        requires cost_high { task.now.cost ≤ greatest_number }
        requires cut { CutFits task.now.cost task.now.cut }
        requires serves { cuts.serves task.now ≡ true }
        ensures { result ≡ cuts.threshold task.now };

    /// Whether the job's cost and segments fit its task.
    fn fits(task: &Task, job: &Job) -> bool
        ensures { result ≡ cuts.fits task.now job.now };

    ghost lawful: { (task : TaskValue) → IsTask task → cuts.serves task ≡ true →
        IsLawfulCut cuts task };
}
