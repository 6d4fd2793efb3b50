//! What the searches rest on.
ghost use Rattle.preemption.specs.CutLaws.{Serves};
ghost use Rattle.solver.specs.Laws.{Laws, NeedRises};

use demand::{demand_grows, need_falls, need_fits};
use policy::Policy;
use preemption::Preemption;
use search_space::across_gap;
use supply::Supply;
use task_sheet::Sheet;

/// Gives a caller the laws of demand, points and supply, for this sheet and this supply.
pub fn laws<P: Policy, M: Preemption, S: Supply>(sheet: &Sheet, supply: &S)
    requires served { Serves M.cuts sheet.now }
    ensures { Laws P.meaning M.cuts (S.sbf supply.now) sheet.now }
{
    need_fits::<P, M>();
    demand_grows::<P, M>();
    need_falls::<P, M>();
    across_gap::<P>();
    // for the proof: the sheet is valid
    let _valid = sheet.len();
    supply.known();
}

/// From an offset to a later one at which as much blocks the need does not fall.
pub fn need_rises<P: Policy, M: Preemption>()
    ensures { NeedRises P.meaning M.cuts }
{}
