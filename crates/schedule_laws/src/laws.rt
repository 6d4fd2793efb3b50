//! The tests decide which runs comply, and what holds of every prefix of a valid run.
ghost use Rattle.schedule_laws.specs.Prefixes.{ServedWithinCost, ServedSinceRelease, BegunWhereUncut};
ghost use Rattle.schedule_laws.specs.Tests.{DecideCrowds, DecideCompliance};

use policy::Policy;
use preemption::Preemption;
use supply::Supply;

/// The arrivals of a run are within the curves exactly where no job is crowded.
pub fn crowds_decide()
    ensures { DecideCrowds }
{}

/// A run complies exactly where its jobs fit and are released as their tasks allow, no tick is
/// invalid, no job is crowded, no window is short, and no tick breaks the rule on idling, on segments
/// or on priorities.
pub fn tests_decide<P: Policy, M: Preemption, S: Supply>()
    ensures { (supply : S) → DecideCompliance P.meaning M.cuts (S.sbf supply) }
{}

/// In a valid run a job has had at most its cost of service before each tick.
pub fn served_within_cost<M: Preemption>()
    ensures { ServedWithinCost M.cuts }
{}

/// In a valid run a job that has had service before a tick was released before that tick.
pub fn served_since_release<M: Preemption>()
    ensures { ServedSinceRelease M.cuts }
{}

/// In a valid run a job that cannot be cut at a tick has had service before it.
pub fn uncut_has_begun<M: Preemption>()
    ensures { BegunWhereUncut M.cuts }
{}
