//! The rules on ticks.
ghost use Rattle.std.specs.Prelude.{◌≡◌, ◌+◌, ◌≤◌, IfOk, MatchOption, None, Some, length};
ghost use Rattle.preemption.specs.CutLaws.{Serves};
ghost use Rattle.supply.specs.Promises.{sbf_of};
ghost use Rattle.schedule_laws.specs.Tests.{AreOf};
ghost use Rattle.audit.specs.CutSums.{AreSums};
ghost use Rattle.audit.specs.Faults.{fault_at, invalid_in, short_in, idle_in, segment_in, priority_in};
ghost use Rattle.audit.specs.Premises.{IsSmall, AreFitting, AreValid};

use crate::idling::idle_place;
use crate::priorities::priority_place;
use crate::segments::segment_place;
use crate::validity::invalid_tick;
use crate::verdict::{Fault, Place, Rule};
use policy::Policy;
use preemption::Tabled;
use run_model::{Run, Tick};
use std::alloc::{AllocError, Global};
use task_sheet::Sheet;
use windows::first_short;

/// The first tick that runs what it may not run.
pub fn first_invalid(alloc: Global, sheet: &Sheet, run: &Run) -> Result<Option<Fault>, AllocError>
    requires small { IsSmall run.now }
    requires tasks { AreOf sheet.now run.now }
    ensures fault { IfOk result (λ f. f ≡ invalid_in run.now) }
    ensures valid { IfOk result (λ f. f ≡ None → AreValid run.now) }
{
    let Some(t) = invalid_tick(alloc, sheet, run)? else {
        return Ok(None);
    };
    let Tick::Runs(k) = run.ticks.as_slice()[t as usize] else {
        return Ok(None);
    };
    Ok(Some(Fault {
        rule: Rule::Valid,
        job: Some(k),
        tick: Some(t),
    }))
}

/// The first window with fewer supplied ticks than promised, by its end.
pub fn first_shortage(alloc: Global, sheet: &Sheet, run: &Run) -> Result<Option<Fault>, AllocError>
    requires { IsSmall run.now }
    ensures { IfOk result (λ f. f ≡ short_in (sbf_of sheet.now.supply) run.now) }
{
    // for the proof: the sheet is valid
    let _valid = sheet.len();
    let Some(t) = first_short(alloc, sheet, run)? else {
        return Ok(None);
    };
    Ok(Some(Fault {
        rule: Rule::Supply,
        job: None,
        tick: Some(t),
    }))
}

/// The fault at a place, if there is one.
fn fault_of(rule: Rule, place: Option<Place>) -> Option<Fault>
    ensures { MatchOption place (result ≡ None) (λ w. result ≡ Some (fault_at rule w.job w.tick)) }
{
    let place = place?;
    Some(Fault {
        rule,
        job: Some(place.job),
        tick: Some(place.tick),
    })
}

/// The first idle tick at which some job is pending.
pub fn first_idling(alloc: Global, run: &Run) -> Result<Option<Fault>, AllocError>
    requires { IsSmall run.now }
    ensures { IfOk result (λ f. f ≡ idle_in run.now) }
{
    let place = idle_place(alloc, run)?;
    Ok(fault_of(Rule::Idle, place))
}

/// The first supplied tick that does not run a job inside a segment.
pub fn first_segment<M: Tabled>(
    alloc: Global,
    sheet: &Sheet,
    run: &Run,
    sums: &[Vec<u64>],
) -> Result<Option<Fault>, AllocError>
    requires small { IsSmall run.now }
    requires fit { AreFitting M.cuts sheet.now run.now }
    requires served { Serves M.cuts sheet.now }
    requires sums { AreSums run.now sums.now }
    ensures { IfOk result (λ f. f ≡ segment_in M.cuts sheet.now run.now) }
{
    let place = segment_place::<M>(alloc, sheet, run, sums)?;
    Ok(fault_of(Rule::Segment, place))
}

/// The first tick that runs, where it can be cut, a job less urgent than a pending one.
pub fn first_overtaken<P: Policy, M: Tabled>(
    alloc: Global,
    sheet: &Sheet,
    run: &Run,
    sums: &[Vec<u64>],
) -> Result<Option<Fault>, AllocError>
    requires small { IsSmall run.now }
    requires tasks { AreOf sheet.now run.now }
    requires served { Serves M.cuts sheet.now }
    requires sums { AreSums run.now sums.now }
    ensures { IfOk result (λ f. f ≡ priority_in P.meaning M.cuts sheet.now run.now) }
{
    let place = priority_place::<P, M>(alloc, sheet, run, sums)?;
    Ok(fault_of(Rule::Priority, place))
}
