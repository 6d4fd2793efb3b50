//! A processor of one's own.
ghost use Rattle.std.specs.Prelude.{refl, true};
ghost use Rattle.supply.specs.Lawful.{whole_grows};

use crate::supply::Supply;

/// Every tick is supplied.
#[derive(Clone, Copy, Debug)]
pub struct Unit;

impl Supply for Unit {
    const WHOLE: bool = true;

    ghost WHOLE = { true };

    ghost sbf = { λ _ d. d };

    ghost is_supply = { λ _. Unit {0} };

    ghost starts = { λ _ _. refl };

    ghost grows = { λ _ d _. whole_grows d };

    ghost whole = { λ _ d _. refl };

    fn known(&self) {}

    fn sbf(&self, d: u64) -> u64 {
        d
    }

    fn least(&self, v: u128, limit: u64) -> Option<u64> {
        if v <= limit as u128 {
            Some(v as u64)
        } else {
            None
        }
    }
}
