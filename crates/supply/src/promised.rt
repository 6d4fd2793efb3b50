//! A promise of supply by times.
ghost use Rattle.std.specs.Prelude.{◌≡◌, false};
ghost use Rattle.task_sheet.specs.Sheets.{IsPromise};
ghost use Rattle.task_sheet.specs.declared.tasks.SupplySpec.TheVariants.{Promised as PromisedBy};
ghost use Rattle.supply.specs.Supplies.{IsPromised, promised_by};
ghost use Rattle.supply.specs.Lawful.{promise_starts, promise_grows};

use crate::supply::Supply;
use crate::windows::{least_promised, promised_in};
use lists::Items;
use std::marker::Model;

/// In every window of `d` ticks, up to the horizon, as many ticks are supplied as times are at most
/// `d`, and so on for each further horizon.
#[derive(Debug, Drop)]
pub struct Promised {
    horizon: u64,
    times: Items<u64>,
}

impl Model for Promised {
    ghost use Rattle.supply.specs.PromiseParts.{PromiseParts};

    ghost Value = { PromiseParts };

    ghost use Rattle.supply.specs.Supplies.{IsPromised};

    ghost view = { λ p. record { horizon = p.horizon; times = p.times } };

    ghost invariant = { λ p. IsPromised (record { horizon = p.horizon; times = p.times }) };
}

impl Promised {
    /// The promise of a horizon and times, in ticks.
    pub fn new(horizon: u64, times: Vec<u64>) -> Promised
        requires { IsPromise (PromisedBy horizon times.items) }
        ensures { result ≡ record { horizon = horizon; times = times.items } }
    {
        Promised {
            horizon,
            times: Items::new(times),
        }
    }
}

impl Supply for Promised {
    const WHOLE: bool = false;

    ghost WHOLE = { false };

    ghost sbf = { promised_by };

    ghost is_supply = { IsPromised };

    ghost starts = { λ x h. promise_starts x h };

    ghost grows = { λ x d h. promise_grows x d h };

    ghost whole = { λ x d e. Prim.cc };

    fn known(&self) {
        let _ = &self.horizon;
    }

    fn sbf(&self, d: u64) -> u64 {
        promised_in(self.horizon, self.times.as_slice(), d)
    }

    fn least(&self, v: u128, limit: u64) -> Option<u64> {
        least_promised(self.horizon, self.times.as_slice(), v, limit)
    }
}
