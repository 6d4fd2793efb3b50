//! Lines that a supply stays below.
ghost use Rattle.std.specs.Prelude.{◌≡◌, ◌≤◌, ◌+◌, ◌*◌, ℕ, length};
ghost use Rattle.task_sheet.specs.Sheets.{IsPromise};
ghost use Rattle.task_sheet.specs.declared.tasks.SupplySpec.TheVariants.{Promised as PromisedBy};
ghost use Rattle.supply.specs.Promises.{count_of, promised};
ghost use Rattle.solver.specs.Ceilings.{IsCeiling, IsOver};

use supply::{Promised, Supply, Unit};
use task_sheet::{Sheet, SupplySpec};

/// What a supply gives at most as a window grows: so many ticks in each horizon, and some to spare.
#[derive(Clone, Copy, Debug, PartialEq, Eq)]
pub struct Ceiling {
    /// How many ticks of each horizon.
    pub rate: u64,
    /// The horizon in ticks.
    pub horizon: u64,
    /// How many ticks more at most.
    pub spare: u64,
}

/// The ceiling of every supply: no window is supplied more ticks than it has.
pub const EVERY_TICK: Ceiling = Ceiling {
    rate: 1,
    horizon: 1,
    spare: 0,
};

/// A supply that tells its ceiling: near full load the searches for least numbers go by it.
pub trait Ceiled: Supply {
    /// A line that the promised ticks do not rise above; the lower, the shorter the searches.
    fn ceiling(&self) -> Ceiling
        ensures over { IsOver (Self.sbf self.now) result }
        ensures small { IsCeiling result };
}

impl Ceiled for Unit {
    fn ceiling(&self) -> Ceiling {
        EVERY_TICK
    }
}

/// A promise that stands alone has the ceiling of every supply; in a sheet it has its own.
impl Ceiled for Promised {
    fn ceiling(&self) -> Ceiling {
        // for the proof: it is a promise
        self.known();
        EVERY_TICK
    }
}

/// How many ticks a promise is above its rate at most: it is the furthest above at one of its
/// times, since it grows there alone.
fn spare(horizon: u64, times: &[u64]) -> u64
    requires { IsPromise (PromisedBy horizon times.now) }
    ensures over { (r : ℕ) → count_of times.now r * horizon ≤
        length times.now * r + result * horizon }
    ensures bound { result ≤ 1000 }
{
    let count = times.len() as u64;
    let mut spare: u64 = 0;
    for k in 0..times.len() {
        let line = count * times[k] / horizon;
        spare = spare.max((k as u64 + 1).saturating_sub(line));
    }
    spare
}

/// The ceiling of a promise: its rate, and how much it is above that.
fn promise_ceiling(horizon: u64, times: &[u64]) -> Ceiling
    requires { IsPromise (PromisedBy horizon times.now) }
    ensures over { IsOver (promised horizon times.now) result }
    ensures small { IsCeiling result }
{
    Ceiling {
        rate: times.len() as u64,
        horizon,
        spare: spare(horizon, times),
    }
}

/// A sheet, as the supply that it states.
impl Ceiled for Sheet {
    fn ceiling(&self) -> Ceiling {
        match self.supply() {
            SupplySpec::Unit => EVERY_TICK,
            SupplySpec::Promised { horizon, times } => promise_ceiling(*horizon, times.as_slice()),
        }
    }
}
