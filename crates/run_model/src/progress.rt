//! The service of jobs.
ghost use Rattle.std.specs.Prelude.{◌≡◌, ◌<◌, ◌≤◌, ◌↔◌, length, IsTrue};
ghost use Rattle.run_model.specs.Runs.{runs, service_of, IsDone, IsPending};

use crate::run::{Run, Tick};

/// Whether the tick runs job `k`.
fn runs_job(tick: Tick, k: u32) -> bool
    ensures { result ≡ runs k tick }
{
    match tick {
        Tick::Runs(job) => job == k,
        Tick::Off | Tick::Idle => false,
    }
}

/// How many ticks before tick `t` run job `k`.
#[tactic(auto, unfolding(crate::specs::Runs::service_of))]
pub fn service(run: &Run, k: u32, t: u64) -> u64
    requires job { k < length run.now.jobs }
    requires tick { t ≤ length run.now.ticks }
    ensures { result ≡ service_of run.now k t }
{
    run.ticks.as_slice()[..t as usize]
        .iter()
        .filter(|tick| runs_job(**tick, k))
        .count() as u64
}

/// Whether job `k` has had the service that it needs before tick `t`.
pub fn is_done(run: &Run, k: u32, t: u64) -> bool
    requires job { k < length run.now.jobs }
    requires tick { t ≤ length run.now.ticks }
    ensures { IsTrue result ↔ IsDone run.now k t }
{
    service(run, k, t) >= run.jobs.as_slice()[k as usize].cost
}

/// Whether job `k` has been released by tick `t` and is not done.
pub fn is_pending(run: &Run, k: u32, t: u64) -> bool
    requires job { k < length run.now.jobs }
    requires tick { t ≤ length run.now.ticks }
    ensures { IsTrue result ↔ IsPending run.now k t }
{
    run.jobs.as_slice()[k as usize].release <= t && !is_done(run, k, t)
}
