//! The rule on idle ticks.
ghost use Rattle.std.specs.Prelude.{◌≡◌, ◌<◌, IfOk, length, true};
ghost use Rattle.lists.specs.Searches.{IsFirstBelow};
ghost use Rattle.run_model.specs.Runs.{is_pending as is_pending_by};
ghost use Rattle.schedule_laws.specs.Tests.{is_idle_broken};
ghost use Rattle.audit.specs.Pending.{IsSomePending};
ghost use Rattle.audit.specs.TickRules.{IsFirstPlace};
ghost use Rattle.audit.specs.Premises.{IsSmall};
ghost use Rattle.audit.specs.ServiceCounts.{IsServed};

use crate::verdict::Place;
use crate::waiting::Waiting;
use run_model::{Run, Tick};
use std::alloc::{AllocError, Global};

/// Whether job `k` is pending at tick `t`, by its service.
#[tactic(auto, using(schedule_laws::proofs::TestFacts::pending_is))]
pub fn is_pending(run: &Run, served: &[u64], k: u32, t: u64) -> bool
    requires job { k < length run.now.jobs }
    requires served { IsServed run.now t served.now }
    ensures { result ≡ is_pending_by run.now k t }
{
    let job = &run.jobs.as_slice()[k as usize];
    job.release <= t && served[k as usize] < job.cost
}

/// The least job that is pending at tick `t`.
fn first_pending(run: &Run, served: &[u64], t: u64) -> Option<u32>
    requires small { IsSmall run.now }
    requires served { IsServed run.now t served.now }
    ensures { IsFirstBelow (λ k. is_pending_by run.now k t ≡ true) (length run.now.jobs) result }
{
    for k in 0..run.jobs.len() as u32 {
        if is_pending(run, served, k, t) {
            return Some(k);
        }
    }
    None
}

/// The least job that is pending at tick `t`, where that is idle.
fn idle_job(run: &Run, served: &[u64], first: Option<u32>, t: u64) -> Option<u32>
    requires small { IsSmall run.now }
    requires tick { t < length run.now.ticks }
    requires served { IsServed run.now t served.now }
    requires first { IsSomePending run.now t first }
    ensures { IsFirstBelow (λ k. is_idle_broken run.now t k ≡ true) (length run.now.jobs) result }
{
    let Tick::Idle = run.ticks.as_slice()[t as usize] else {
        return None;
    };
    match first {
        Some(_) => first_pending(run, served, t),
        None => None,
    }
}

/// The first idle tick at which some job is pending, and the least such job.
pub fn idle_place(alloc: Global, run: &Run) -> Result<Option<Place>, AllocError>
    requires { IsSmall run.now }
    ensures { IfOk result (IsFirstPlace (is_idle_broken run.now) run.now) }
{
    let mut waiting = Waiting::new(alloc, run)?;
    for t in 0..run.ticks.len() as u64 {
        let first = waiting.some_pending(run, t);
        if let Some(job) = idle_job(run, &waiting.served, first, t) {
            return Ok(Some(Place { tick: t, job }));
        }
        waiting.serve(run, t);
    }
    Ok(None)
}
