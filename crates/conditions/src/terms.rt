//! The terms of points.
ghost use Rattle.std.specs.Prelude.{◌≡◌, ◌≤◌, ◌<◌, length};
ghost use Rattle.lists.specs.Limits.{greatest_number};
ghost use Rattle.preemption.specs.CutLaws.{Serves};
ghost use Rattle.certificate.specs.Text.{IsTerms};
ghost use Rattle.conditions.specs.PointTerms.{terms_of};

use certificate::Terms;
use demand::{blocking, others, own};
use policy::Policy;
use preemption::Preemption;
use task_sheet::Sheet;

/// The terms of task `i` at the point with this offset and end, in ticks.
#[tactic(auto, unfolding(demand::specs::Demand::need_of))]
pub fn terms_at<P: Policy, M: Preemption>(sheet: &Sheet, i: u32, offset: u64, end: u64) -> Terms
    requires task { i < length sheet.now.tasks }
    requires offset { offset ≤ greatest_number }
    requires end { end ≤ greatest_number }
    requires served { Serves M.cuts sheet.now }
    ensures exact { result ≡ terms_of P.meaning M.cuts sheet.now i offset end }
    ensures small { IsTerms result }
{
    let blocking = blocking::<P, M>(sheet, i, offset);
    let own = own::<M>(sheet, i, offset);
    let others = others::<P>(sheet, i, offset, end);
    Terms {
        blocking,
        own,
        others,
        need: blocking + own + others,
    }
}
