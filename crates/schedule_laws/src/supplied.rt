//! Whether as many ticks are supplied as promised.
ghost use Rattle.std.specs.Prelude.{◌≡◌, ◌≤◌, length};
ghost use Rattle.run_model.specs.Runs.{is_on as is_on_by};
ghost use Rattle.schedule_laws.specs.Tests.{is_short};

use run_model::{Run, Tick};
use supply::Supply;

/// Whether the tick is supplied.
pub fn is_on(tick: Tick) -> bool
    ensures { result ≡ is_on_by tick }
{
    match tick {
        Tick::Idle | Tick::Runs(_) => true,
        Tick::Off => false,
    }
}

/// Whether some window that ends before tick `u` has fewer supplied ticks than promised.
pub fn short_at<S: Supply>(supply: &S, run: &Run, u: u64) -> bool
    requires tick { u ≤ length run.now.ticks }
    ensures { result ≡ is_short (S.sbf supply.now) run.now u }
{
    let ticks = run.ticks.as_slice();
    let mut supplied = 0;
    for d in 0..u {
        if supplied < supply.sbf(d) {
            return true;
        }
        if is_on(ticks[(u - d - 1) as usize]) {
            supplied += 1;
        }
    }
    supplied < supply.sbf(u)
}
