//! The verdict on a run.
ghost use Rattle.std.specs.Prelude.{◌≡◌, IfOk};
ghost use Rattle.supply.specs.Promises.{sbf_of};
ghost use Rattle.preemption.specs.CutLaws.{Serves};
ghost use Rattle.run_text.specs.Text.{IsWithinLimits};
ghost use Rattle.audit.specs.Faults.{first_broken as first_broken_of};
ghost use Rattle.audit.specs.Premises.{IsSmall};
ghost use Rattle.audit.specs.Verdicts.{verdict_of, TellsCompliance};

use crate::cuts::cut_sums;
use crate::jobs::{first_crowd, first_unfit, first_unreleased};
use crate::responses::seen_tasks;
use crate::ticks::{first_idling, first_invalid, first_overtaken, first_segment, first_shortage};
use crate::verdict::{AuditVerdict, Fault};
use lists::Items;
use policy::Policy;
use preemption::Tabled;
use run_model::Run;
use std::alloc::{AllocError, Global};
use supply::Supply;
use task_sheet::Sheet;

/// The first rule that the run breaks, at its first place.
fn first_broken<P: Policy, M: Tabled>(
    alloc: Global,
    sheet: &Sheet,
    run: &Run,
) -> Result<Option<Fault>, AllocError>
    requires small { IsSmall run.now }
    requires served { Serves M.cuts sheet.now }
    ensures { IfOk result (λ f. f ≡
        first_broken_of P.meaning M.cuts (sbf_of sheet.now.supply) sheet.now run.now) }
{
    let unfit = first_unfit::<M>(sheet, run);
    if unfit.is_some() {
        return Ok(unfit);
    }
    let unreleased = first_unreleased(alloc, sheet, run)?;
    if unreleased.is_some() {
        return Ok(unreleased);
    }
    let invalid = first_invalid(alloc, sheet, run)?;
    if invalid.is_some() {
        return Ok(invalid);
    }
    let crowd = first_crowd(alloc, sheet, run)?;
    if crowd.is_some() {
        return Ok(crowd);
    }
    let shortage = first_shortage(alloc, sheet, run)?;
    if shortage.is_some() {
        return Ok(shortage);
    }
    let idling = first_idling(alloc, run)?;
    if idling.is_some() {
        return Ok(idling);
    }
    let sums = cut_sums::<M>(alloc, sheet, run)?;
    let segment = first_segment::<M>(alloc, sheet, run, &sums)?;
    if segment.is_some() {
        return Ok(segment);
    }
    first_overtaken::<P, M>(alloc, sheet, run, &sums)
}

/// The verdict on a run: whether it complies with the sheet, else the first rule that it breaks.
///
/// The run is within the limits of a run's text, the kind of preemption serves every task, and the
/// supply is the one that the sheet states. The only error is want of memory.
pub fn audit<P: Policy, M: Tabled, S: Supply>(
    alloc: Global,
    sheet: &Sheet,
    supply: &S,
    run: &Run,
) -> Result<AuditVerdict, AllocError>
    requires within { IsWithinLimits run.now }
    requires served { Serves M.cuts sheet.now }
    requires stated { S.sbf supply.now ≡ sbf_of sheet.now.supply }
    ensures exact { IfOk result (λ v. v ≡
        verdict_of P.meaning M.cuts (S.sbf supply.now) sheet.now run.now) }
    ensures compliance { IfOk result
        (TellsCompliance P.meaning M.cuts (S.sbf supply.now) sheet.now run.now) }
{
    let tasks = sheet.len();
    match first_broken::<P, M>(alloc, sheet, run)? {
        Some(Fault { rule, job, tick }) => Ok(AuditVerdict::Broken { rule, job, tick }),
        None => {
            let seen = seen_tasks(alloc, run, tasks)?;
            Ok(AuditVerdict::Compliant(Items::new(seen)))
        }
    }
}
