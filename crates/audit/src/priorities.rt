//! The rule on priorities.
ghost use Rattle.std.specs.Prelude.{◌≡◌, ◌<◌, ◌&&◌, ℕ, IfOk, None, length, not, true};
ghost use Rattle.std.specs.Bool.{OnFalse};
ghost use Rattle.lists.specs.Searches.{IsFirstBelow};
ghost use Rattle.policy.specs.Keys.{key_le};
ghost use Rattle.preemption.specs.CutLaws.{Serves};
ghost use Rattle.run_model.specs.Runs.{is_pending as is_pending_by, job_at};
ghost use Rattle.schedule_laws.specs.Tests.{AreOf, is_priority_broken};
ghost use Rattle.urgency.specs.Queues.{IsMostUrgent};
ghost use Rattle.audit.specs.CutSums.{AreSums};
ghost use Rattle.audit.specs.TickRules.{IsFirstPlace, IsListed, is_urgent_by};
ghost use Rattle.audit.specs.Premises.{IsSmall};
ghost use Rattle.audit.specs.ServiceCounts.{IsServed};

use crate::cuts::can_cut_job;
use crate::idling::is_pending;
use crate::progress::Progress;
use crate::verdict::Place;
use policy::{Key, Policy};
use preemption::Tabled;
use run_model::{Run, Tick};
use std::alloc::{AllocError, Global};
use task_sheet::Sheet;

/// Whether job `k` is more urgent than the key.
fn is_more_urgent<P: Policy>(sheet: &Sheet, run: &Run, key: Key, k: u32) -> bool
    requires small { IsSmall run.now }
    requires tasks { AreOf sheet.now run.now }
    requires job { k < length run.now.jobs }
    ensures { result ≡ not (key_le key (P.meaning.key sheet.now (job_at run.now k))) }
{
    !key.is_at_most(P::key(sheet, &run.jobs.as_slice()[k as usize]))
}

/// Whether job `k` is pending at tick `t` and more urgent than the key.
fn is_urgent<P: Policy>(sheet: &Sheet, run: &Run, served: &[u64], key: Key, k: u32, t: u64) -> bool
    requires small { IsSmall run.now }
    requires tasks { AreOf sheet.now run.now }
    requires job { k < length run.now.jobs }
    requires served { IsServed run.now t served.now }
    ensures { result ≡ is_urgent_by P.meaning sheet.now run.now key t k }
{
    is_pending(run, served, k, t) && is_more_urgent::<P>(sheet, run, key, k)
}

/// The least job that is pending at tick `t` and more urgent than the key.
fn first_urgent<P: Policy>(
    sheet: &Sheet,
    run: &Run,
    served: &[u64],
    key: Key,
    t: u64,
) -> Option<u32>
    requires small { IsSmall run.now }
    requires tasks { AreOf sheet.now run.now }
    requires served { IsServed run.now t served.now }
    ensures { IsFirstBelow (λ k. is_urgent_by P.meaning sheet.now run.now key t k ≡ true)
        (length run.now.jobs) result }
{
    for k in 0..run.jobs.len() as u32 {
        if is_urgent::<P>(sheet, run, served, key, k, t) {
            return Some(k);
        }
    }
    None
}

/// Whether some job is more urgent than the key, where `first` is the most urgent one that is pending
/// at a tick.
fn has_urgent<P: Policy>(sheet: &Sheet, run: &Run, first: Option<u32>, key: Key) -> bool
    requires small { IsSmall run.now }
    requires tasks { AreOf sheet.now run.now }
    requires first { IsListed run.now first }
    ensures { (t : ℕ) → IsMostUrgent P.meaning sheet.now run.now.jobs
        (λ k. is_pending_by run.now k t) first → OnFalse result
        (IsFirstBelow (λ k. is_urgent_by P.meaning sheet.now run.now key t k ≡ true)
        (length run.now.jobs) None) }
{
    match first {
        Some(k) => is_more_urgent::<P>(sheet, run, key, k),
        None => false,
    }
}

/// The least pending job that is more urgent than the one that tick `t` runs and that can be cut.
fn overtaken_job<P: Policy, M: Tabled>(
    sheet: &Sheet,
    run: &Run,
    sums: &[Vec<u64>],
    served: &[u64],
    first: Option<u32>,
    t: u64,
) -> Option<u32>
    requires small { IsSmall run.now }
    requires tick { t < length run.now.ticks }
    requires tasks { AreOf sheet.now run.now }
    requires kind { Serves M.cuts sheet.now }
    requires sums { AreSums run.now sums.now }
    requires served { IsServed run.now t served.now }
    requires first { IsMostUrgent P.meaning sheet.now run.now.jobs
        (λ k. is_pending_by run.now k t) first }
    ensures { IsFirstBelow (λ k. is_priority_broken P.meaning M.cuts sheet.now run.now t k ≡ true)
        (length run.now.jobs) result }
{
    let Tick::Runs(k) = run.ticks.as_slice()[t as usize] else {
        return None;
    };
    let key = P::key(sheet, &run.jobs.as_slice()[k as usize]);
    if !has_urgent::<P>(sheet, run, first, key) {
        return None;
    }
    if !can_cut_job::<M>(sheet, run, sums, k, served[k as usize]) {
        return None;
    }
    first_urgent::<P>(sheet, run, served, key, t)
}

/// The first tick that runs, where it can be cut, a job less urgent than a pending one, and the least
/// such pending job.
pub fn priority_place<P: Policy, M: Tabled>(
    alloc: Global,
    sheet: &Sheet,
    run: &Run,
    sums: &[Vec<u64>],
) -> Result<Option<Place>, AllocError>
    requires small { IsSmall run.now }
    requires tasks { AreOf sheet.now run.now }
    requires served { Serves M.cuts sheet.now }
    requires sums { AreSums run.now sums.now }
    ensures { IfOk result
        (IsFirstPlace (is_priority_broken P.meaning M.cuts sheet.now run.now) run.now) }
{
    let mut progress = Progress::new(alloc, run)?;
    for t in 0..run.ticks.len() as u64 {
        progress.let_in::<P>(sheet, run, t)?;
        let first = progress.first::<P>(sheet, run, t);
        let served = &progress.served;
        if let Some(job) = overtaken_job::<P, M>(sheet, run, sums, served, first, t) {
            return Ok(Some(Place { tick: t, job }));
        }
        progress.serve::<P>(sheet, run, t);
    }
    Ok(None)
}
