//! What it means that no condition fails.
ghost use Rattle.conditions.specs.Meets.{FailedMeans};
ghost use Rattle.conditions.specs.Filled.{TermsChangeNothing};

use policy::Policy;
use preemption::Preemption;
use supply::Supply;

/// No condition fails exactly where the certificate meets all of them.
pub fn failed_means<P: Policy, M: Preemption, S: Supply>()
    ensures { (supply : S) → FailedMeans P.meaning M.cuts (S.sbf supply) }
{}

/// The same condition fails of a certificate with its terms and of it without them, and their bounds
/// are the same; and the terms do not depend on what the certificate said of them.
pub fn terms_change_nothing<P: Policy, M: Preemption, S: Supply>()
    ensures { (supply : S) → TermsChangeNothing P.meaning M.cuts (S.sbf supply) }
{}
