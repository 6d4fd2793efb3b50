//! The rule on segments.
ghost use Rattle.std.specs.Prelude.{◌≡◌, ◌<◌, ◌↔◌, ℕ, IfOk, IsTrue, None, length, true};
ghost use Rattle.lists.specs.Searches.{IsFirstBelow};
ghost use Rattle.preemption.specs.CutLaws.{Serves};
ghost use Rattle.run_model.specs.Runs.{tick_at};
ghost use Rattle.schedule_laws.specs.Compliance.{can_cut};
ghost use Rattle.schedule_laws.specs.Tests.{AreOf, is_segment_broken};
ghost use Rattle.audit.specs.CutSums.{AreSums};
ghost use Rattle.audit.specs.TickRules.{Leaves, IsFirstPlace, OnlyMayFail, last_after};
ghost use Rattle.audit.specs.Premises.{IsSmall, AreFitting};
ghost use Rattle.audit.specs.ServiceCounts.{IsServed};

use crate::cuts::can_cut_job;
use crate::service_counts::{no_service, serve};
use crate::verdict::Place;
use preemption::Tabled;
use run_model::{Run, Tick};
use std::alloc::{AllocError, Global};
use task_sheet::Sheet;

/// Whether the tick is supplied and does not run the job inside a segment, if there is one.
fn leaves(tick: Tick, inside: Option<u32>) -> bool
    ensures { IsTrue result ↔ Leaves tick inside }
{
    match (tick, inside) {
        (Tick::Idle, Some(_)) => true,
        (Tick::Runs(k), Some(job)) => k != job,
        (Tick::Off, _) | (_, None) => false,
    }
}

/// The job inside a segment that tick `t` leaves, where at most the one that ran last is inside.
fn left_job<M: Tabled>(
    sheet: &Sheet,
    run: &Run,
    sums: &[Vec<u64>],
    served: &[u64],
    last: Option<u32>,
    t: u64,
) -> Option<u32>
    requires tasks { AreOf sheet.now run.now }
    requires kind { Serves M.cuts sheet.now }
    requires sums { AreSums run.now sums.now }
    requires tick { t < length run.now.ticks }
    requires served { IsServed run.now t served.now }
    requires last { OnlyMayFail (λ k. can_cut M.cuts sheet.now run.now k t)
        (length run.now.jobs) last }
    ensures first { IsFirstBelow (λ k. is_segment_broken M.cuts sheet.now run.now t k ≡ true)
        (length run.now.jobs) result }
    ensures cut { result ≡ None → Leaves (tick_at run.now t) last → (k : ℕ) →
        k < length run.now.jobs → can_cut M.cuts sheet.now run.now k t ≡ true }
{
    if !leaves(run.ticks.as_slice()[t as usize], last) {
        return None;
    }
    let Some(k) = last else {
        return None;
    };
    if can_cut_job::<M>(sheet, run, sums, k, served[k as usize]) {
        None
    } else {
        Some(k)
    }
}

/// The job that ran last, after this tick too.
fn last_after(tick: Tick, last: Option<u32>) -> Option<u32>
    ensures { result ≡ last_after tick last }
{
    match tick {
        Tick::Runs(k) => Some(k),
        Tick::Off | Tick::Idle => last,
    }
}

/// The first supplied tick that does not run a job inside a segment, and that job.
///
/// Only the job that ran last may be inside one, and only where a tick leaves it that is looked up.
pub fn segment_place<M: Tabled>(
    alloc: Global,
    sheet: &Sheet,
    run: &Run,
    sums: &[Vec<u64>],
) -> Result<Option<Place>, AllocError>
    requires small { IsSmall run.now }
    requires fit { AreFitting M.cuts sheet.now run.now }
    requires served { Serves M.cuts sheet.now }
    requires sums { AreSums run.now sums.now }
    ensures { IfOk result (IsFirstPlace (is_segment_broken M.cuts sheet.now run.now) run.now) }
{
    // for the proof: the sheet is valid
    let _valid = sheet.len();
    let mut served = no_service(alloc, run)?;
    let mut last = None;
    for t in 0..run.ticks.len() as u64 {
        if let Some(job) = left_job::<M>(sheet, run, sums, &served, last, t) {
            return Ok(Some(Place { tick: t, job }));
        }
        serve(run, &mut served, t);
        last = last_after(run.ticks.as_slice()[t as usize], last);
    }
    Ok(None)
}
