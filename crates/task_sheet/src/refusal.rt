//! Why a sheet is refused.
ghost use Rattle.std.specs.Prelude.{◌≡◌};
ghost use Rattle.task_sheet.specs.declared.refusal.SheetRefusal.TheVariants.{Memory};

use std::alloc::{AllocError, AllocFailed};

/// Where in a sheet.
#[derive(Clone, Copy, Debug, PartialEq, Eq)]
pub enum Place {
    Top,
    Supply,
    /// The task with this number, counted from 0.
    Task(u32),
}

/// What of a sheet.
#[derive(Clone, Copy, Debug, PartialEq, Eq)]
pub enum Field {
    Policy,
    Supply,
    Task,
    Horizon,
    Times,
    Cycle,
    Slots,
    Name,
    Cost,
    Deadline,
    Priority,
    Jitter,
    Point,
    Period,
    Curve,
    CurveHorizon,
    CurveSteps,
    Preemption,
}

/// The first rule that a sheet breaks, or want of memory.
#[derive(Clone, Copy, Debug, PartialEq, Eq)]
pub enum SheetRefusal {
    /// The bytes are no document.
    Text,
    /// A key that does not belong there.
    Unknown { place: Place },
    Missing { place: Place, field: Field },
    /// Of another kind than wanted.
    Kind { place: Place, field: Field },
    /// A number, a count or a word out of its range.
    Range { place: Place, field: Field },
    /// Numbers that do not rise as they should.
    Order { place: Place, field: Field },
    /// Both a promise and a time table.
    Mixed,
    /// Both a period and a curve.
    Both { task: u32 },
    /// The name of an earlier task.
    Twice { task: u32 },
    /// Segments that do not fit the cost.
    Sum { task: u32 },
    Memory,
}

impl From<AllocError> for SheetRefusal {
    ghost from_gives = { λ _ e. e ≡ Memory };

    fn from(_: AllocError) -> Self {
        SheetRefusal::Memory
    }
}

impl<T: Drop> From<AllocFailed<T>> for SheetRefusal {
    ghost from_gives = { λ _ e. e ≡ Memory };

    fn from(_: AllocFailed<T>) -> Self {
        SheetRefusal::Memory
    }
}
