//! An analysis has one answer.
ghost use Rattle.solver.specs.Answer.{BestIsAnswer, OneAnswer};

use demand::{demand_grows, need_falls, need_fits};
use policy::Policy;
use preemption::Preemption;
use search_space::across_gap;
use supply::Supply;

/// A sheet and a horizon have exactly one answer of an analysis, and `best_of` is it.
pub fn analysis_has_one_answer<P: Policy, M: Preemption, S: Supply>()
    ensures exists { (supply : S) → S.is_supply supply →
        BestIsAnswer P.meaning M.cuts (S.sbf supply) }
    ensures single { (supply : S) → OneAnswer P.meaning M.cuts (S.sbf supply) }
{
    need_fits::<P, M>();
    demand_grows::<P, M>();
    need_falls::<P, M>();
    across_gap::<P>();
}
