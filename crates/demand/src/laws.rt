//! The laws of demand.
ghost use Rattle.demand.specs.DemandLaws.{NeedFits, DemandGrows, NeedFalls};

use policy::Policy;
use preemption::Preemption;

/// A job's demand and the rest of it fit into the demand of its class.
pub fn need_fits<P: Policy, M: Preemption>()
    ensures { NeedFits P.meaning M.cuts }
{}

/// Demand does not fall as the window grows.
pub fn demand_grows<P: Policy, M: Preemption>()
    ensures { DemandGrows P.meaning M.cuts }
{}

/// From an offset to a later one that no number tells apart the need does not rise.
pub fn need_falls<P: Policy, M: Preemption>()
    ensures { NeedFalls P.meaning M.cuts }
{}
