//! Meeting the conditions, acceptance, and the bounds that hold.
ghost use Rattle.cert_check.specs.Laws.{AcceptedIsSound, MeetingIsAccepted};

use abstract_rta::points_bound;
use certificate::text_has_one_reading;
use conditions::failed_means;
use policy::Policy;
use preemption::Preemption;
use supply::Supply;

/// The text of a certificate that meets the conditions is accepted, and bounds that are accepted hold.
pub fn accepted_is_sound<P: Policy, M: Preemption, S: Supply>()
    ensures accepted { (supply : S) → MeetingIsAccepted P.meaning M.cuts (S.sbf supply) }
    ensures sound { (supply : S) → S.is_supply supply →
        AcceptedIsSound P.meaning M.cuts (S.sbf supply) }
{
    text_has_one_reading();
    failed_means::<P, M, S>();
    points_bound::<P, M, S>();
}
