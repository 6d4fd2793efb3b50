//! Which runs break no rule.
ghost use Rattle.audit.specs.Verdicts.{VerdictDecides};

use policy::Policy;
use preemption::Preemption;
use supply::Supply;

/// A run breaks no rule exactly where it complies.
pub fn verdict_decides<P: Policy, M: Preemption, S: Supply>()
    ensures { (supply : S) → VerdictDecides P.meaning M.cuts (S.sbf supply) }
{}
