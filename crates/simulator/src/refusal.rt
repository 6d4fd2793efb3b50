//! Why there is no simulated run.

use std::alloc::{AllocError, AllocFailed};

/// Why there is no simulated run.
#[derive(Clone, Copy, Debug, PartialEq, Eq)]
pub enum SimRefusal {
    /// It has more than 20,000 jobs.
    Jobs,
    /// Its jobs have more than 1,000,000 segments.
    Segments,
    /// Memory ran out.
    Memory,
}

impl From<AllocError> for SimRefusal {
    ghost use Rattle.std.specs.Prelude.{◌≡◌};
    ghost use Rattle.simulator.specs.declared.refusal.SimRefusal.TheVariants as refusal;

    ghost from_gives = { λ _ e. e ≡ refusal.Memory };

    fn from(_e: AllocError) -> SimRefusal {
        SimRefusal::Memory
    }
}

impl<T: Drop> From<AllocFailed<T>> for SimRefusal {
    ghost use Rattle.std.specs.Prelude.{◌≡◌};
    ghost use Rattle.simulator.specs.declared.refusal.SimRefusal.TheVariants as refusal;

    ghost from_gives = { λ _ e. e ≡ refusal.Memory };

    fn from(_e: AllocFailed<T>) -> SimRefusal {
        SimRefusal::Memory
    }
}
