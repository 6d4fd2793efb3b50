//! The rules on jobs: whether they fit, whether they are released in time, and whether too many
//! arrive.
ghost use Rattle.std.specs.Prelude.{◌≡◌, IfOk, None};
ghost use Rattle.schedule_laws.specs.Tests.{AreOf};
ghost use Rattle.audit.specs.Faults.{unfit_in, unreleased_in, crowded_in};
ghost use Rattle.audit.specs.Premises.{IsSmall, AreFitting, AreReleased};

use crate::releases::unreleased_job;
use crate::verdict::{Fault, Rule};
use preemption::Preemption;
use run_model::Run;
use schedule_laws::fits;
use std::alloc::{AllocError, Global};
use task_sheet::Sheet;
use windows::first_crowded;

/// The first job that does not fit.
pub fn first_unfit<M: Preemption>(sheet: &Sheet, run: &Run) -> Option<Fault>
    requires { IsSmall run.now }
    ensures fault { result ≡ unfit_in M.cuts sheet.now run.now }
    ensures fit { result ≡ None → AreFitting M.cuts sheet.now run.now }
{
    for k in 0..run.jobs.len() as u32 {
        if !fits::<M>(sheet, run, k) {
            return Some(Fault {
                rule: Rule::Fit,
                job: Some(k),
                tick: None,
            });
        }
    }
    None
}

/// The first job that is not released as its task allows.
pub fn first_unreleased(
    alloc: Global,
    sheet: &Sheet,
    run: &Run,
) -> Result<Option<Fault>, AllocError>
    requires small { IsSmall run.now }
    requires tasks { AreOf sheet.now run.now }
    ensures fault { IfOk result (λ f. f ≡ unreleased_in sheet.now run.now) }
    ensures released { IfOk result (λ f. f ≡ None → AreReleased run.now) }
{
    let Some(k) = unreleased_job(alloc, sheet, run)? else {
        return Ok(None);
    };
    Ok(Some(Fault {
        rule: Rule::Release,
        job: Some(k),
        tick: None,
    }))
}

/// The first job, by arrival and then by number, with which too many jobs of its task have arrived.
pub fn first_crowd(alloc: Global, sheet: &Sheet, run: &Run) -> Result<Option<Fault>, AllocError>
    requires small { IsSmall run.now }
    requires tasks { AreOf sheet.now run.now }
    ensures { IfOk result (λ f. f ≡ crowded_in sheet.now run.now) }
{
    let Some(k) = first_crowded(alloc, sheet, run)? else {
        return Ok(None);
    };
    Ok(Some(Fault {
        rule: Rule::Curve,
        job: Some(k),
        tick: Some(run.jobs.as_slice()[k as usize].arrival),
    }))
}
