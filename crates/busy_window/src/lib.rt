//! Laws of busy stretches, over sets of jobs that are closed upwards in urgency.
//!
//! A tick is quiet for such a set where each of its jobs that was released before is done. A stretch of
//! ticks is busy where it begins at a quiet tick and a job of the set is pending at each of its ticks.
//!
//! Each law is a function whose clause is the statement. Its body calls the laws that it rests on.
#![tactic(auto)]

ghost use Rattle.busy_window.specs.Busy.{RunsInside, OneOutsider, EnoughInside};

use policy::Policy;
use preemption::Preemption;
use schedule_laws::{served_since_release, served_within_cost, uncut_has_begun};
use supply::Supply;

/// A tick of a busy stretch that is not off runs a job of the set, or one outside that cannot be cut.
pub fn runs_inside<P: Policy, M: Preemption, S: Supply>()
    ensures { (supply : S) → RunsInside P.meaning M.cuts (S.sbf supply) }
{}

/// At most one job outside the set runs in a busy stretch: it was released before the stretch, and
/// runs in it for less than a segment.
pub fn one_outsider<P: Policy, M: Preemption, S: Supply>()
    ensures { (supply : S) → OneOutsider P.meaning M.cuts (S.sbf supply) }
{
    runs_inside::<P, M, S>();
    served_within_cost::<M>();
    served_since_release::<M>();
    uncut_has_begun::<M>();
}

/// The ticks of a busy stretch that run jobs of the set are as many as the supply promises, less those
/// of the job outside.
pub fn enough_inside<P: Policy, M: Preemption, S: Supply>()
    ensures { (supply : S) → EnoughInside P.meaning M.cuts (S.sbf supply) }
{
    runs_inside::<P, M, S>();
}
