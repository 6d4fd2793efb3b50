//! Which kinds of preemption the table of a sheet's cuts lists.
ghost use Rattle.std.specs.Prelude.{◌≡◌, true};
ghost use Rattle.task_sheet.specs.declared.tasks.Task.{Task as TaskValue};
ghost use Rattle.preemption.specs.CutLaws.{IsTabledCut};

use crate::preemption::Preemption;

/// A kind of preemption that cuts each task that it serves as the task's own cut says.
pub trait Tabled: Preemption {
    ghost tabled: { (task : TaskValue) → Self.cuts.serves task ≡ true →
        IsTabledCut Self.cuts task };
}
