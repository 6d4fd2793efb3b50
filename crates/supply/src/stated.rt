//! The supply that a sheet states.
ghost use Rattle.std.specs.Prelude.{false};
ghost use Rattle.task_sheet.specs.Sheets.{IsValidSheet};
ghost use Rattle.supply.specs.Promises.{sbf_of};
ghost use Rattle.supply.specs.Lawful.{stated_starts, stated_grows};

use crate::supply::Supply;
use crate::unit::Unit;
use crate::windows::{least_promised, promised_in};
use task_sheet::{Sheet, SupplySpec};

/// A sheet, as the supply that it states: nothing is copied.
impl Supply for Sheet {
    const WHOLE: bool = false;

    ghost WHOLE = { false };

    ghost sbf = { λ s. sbf_of s.supply };

    ghost is_supply = { IsValidSheet };

    ghost starts = { λ x h. stated_starts x h };

    ghost grows = { λ x d h. stated_grows x d h };

    ghost whole = { λ x d e. Prim.cc };

    fn known(&self) {
        let _ = self.supply();
    }

    fn sbf(&self, d: u64) -> u64 {
        match self.supply() {
            SupplySpec::Unit => d,
            SupplySpec::Promised { horizon, times } => {
                promised_in(*horizon, times.as_slice(), d)
            }
        }
    }

    fn least(&self, v: u128, limit: u64) -> Option<u64> {
        match self.supply() {
            SupplySpec::Unit => Unit.least(v, limit),
            SupplySpec::Promised { horizon, times } => {
                least_promised(*horizon, times.as_slice(), v, limit)
            }
        }
    }
}
