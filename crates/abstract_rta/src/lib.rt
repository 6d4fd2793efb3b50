//! The response-time theorem, over any policy, kind of preemption and supply.
//!
//! Each law is a function whose clause is the statement: who needs it calls it. Its body calls the
//! laws that it rests on.
#![tactic(auto)]

ghost use Rattle.abstract_rta.specs.Bounds.{Bound, FromPoints, PointsBound};

use busy_window::{enough_inside, one_outsider};
use demand::need_falls;
use policy::Policy;
use preemption::Preemption;
use schedule_laws::served_within_cost;
use search_space::across_gap;
use supply::Supply;

/// Where K2 holds for a bound and K3 for a window, and K6 to K8 at each offset below it for an end of a
/// list, every compliant run completes each job of the task by its arrival plus the bound, where that
/// lies within the run.
pub fn bound<P: Policy, M: Preemption, S: Supply>()
    ensures { (supply : S) → Bound P.meaning M.cuts (S.sbf supply) }
{
    served_within_cost::<M>();
    one_outsider::<P, M, S>();
    enough_inside::<P, M, S>();
}

/// Where K4 to K8 hold for at least one listed point, K6 to K8 hold at every offset below the window:
/// the end of the greatest listed offset up to it serves.
pub fn from_points<P: Policy, M: Preemption, S: Supply>()
    ensures { (supply : S) → S.is_supply supply → FromPoints P.meaning M.cuts (S.sbf supply) }
{
    across_gap::<P>();
    need_falls::<P, M>();
}

/// Where K2 holds for a bound, K3 for a window and K4 to K8 for at least one listed point, every
/// compliant run completes each job of the task by its arrival plus the bound, where that lies within
/// the run.
pub fn points_bound<P: Policy, M: Preemption, S: Supply>()
    ensures { (supply : S) → S.is_supply supply → PointsBound P.meaning M.cuts (S.sbf supply) }
{
    bound::<P, M, S>();
    from_points::<P, M, S>();
}
