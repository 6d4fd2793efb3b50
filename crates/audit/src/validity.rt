//! The rule on what runs.
ghost use Rattle.std.specs.Prelude.{◌≡◌, ◌<◌, ◌↔◌, ℕ, IfOk, IsTrue, length, false};
ghost use Rattle.lists.specs.Searches.{IsFirstBelow};
ghost use Rattle.run_model.specs.Runs.{tick_at};
ghost use Rattle.run_model.specs.declared.run.Tick.TheVariants.{Runs};
ghost use Rattle.schedule_laws.specs.Compliance.{MayRun};
ghost use Rattle.schedule_laws.specs.Tests.{AreOf, is_valid_at};
ghost use Rattle.audit.specs.TickRules.{IsEarlier, IsListed};
ghost use Rattle.audit.specs.UndoneJobs.{AreUndone};
ghost use Rattle.audit.specs.Premises.{IsSmall};

use crate::undone::UndoneJobs;
use run_model::{Run, Tick};
use std::alloc::{AllocError, Global};
use task_sheet::Sheet;

/// Whether the job, if there is one, arrived before tick `t`.
fn is_earlier(run: &Run, job: Option<u32>, t: u64) -> bool
    requires { IsListed run.now job }
    ensures { IsTrue result ↔ IsEarlier run.now t job }
{
    match job {
        Some(k) => run.jobs.as_slice()[k as usize].arrival < t,
        None => false,
    }
}

/// Whether tick `t` may run job `k`.
fn may_run(run: &Run, undone: &mut UndoneJobs, k: u32, t: u64) -> bool
    requires job { k < length run.now.jobs }
    requires undone { AreUndone run.now t undone.old }
    ensures may { IsTrue result ↔ MayRun run.now k t }
    ensures undone { AreUndone run.now t undone.new }
{
    let job = &run.jobs.as_slice()[k as usize];
    let front = undone.front(run, job.task as usize);
    job.release <= t && undone.served[k as usize] < job.cost && !is_earlier(run, front, job.arrival)
}

/// Whether tick `t` runs nothing, or a job that it may run.
fn is_valid(run: &Run, undone: &mut UndoneJobs, t: u64) -> bool
    requires small { IsSmall run.now }
    requires tick { t < length run.now.ticks }
    requires undone { AreUndone run.now t undone.old }
    ensures valid { result ≡ is_valid_at run.now t }
    ensures undone { AreUndone run.now t undone.new }
{
    match run.ticks.as_slice()[t as usize] {
        Tick::Runs(k) => may_run(run, undone, k, t),
        Tick::Off | Tick::Idle => true,
    }
}

/// The least tick that runs what it may not run.
pub fn invalid_tick(alloc: Global, sheet: &Sheet, run: &Run) -> Result<Option<u64>, AllocError>
    requires small { IsSmall run.now }
    requires tasks { AreOf sheet.now run.now }
    ensures { IfOk result (IsFirstBelow (λ t. is_valid_at run.now t ≡ false)
        (length run.now.ticks)) }
{
    let mut undone = UndoneJobs::new(alloc, run, sheet.len())?;
    for t in 0..run.ticks.len() as u64 {
        if !is_valid(run, &mut undone, t) {
            return Ok(Some(t));
        }
        undone.serve(run, t);
    }
    Ok(None)
}
