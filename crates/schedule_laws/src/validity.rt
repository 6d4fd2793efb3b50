//! Which jobs fit their tasks, and which ticks may run what they run.
ghost use Rattle.std.specs.Prelude.{◌≡◌, ◌<◌, ◌^◌, ℕ, length};
ghost use Rattle.schedule_laws.specs.Tests.{does_fit, holds_back as holds_back_by, may_run as may_run_by, is_valid_at};

use crate::releases::is_before;
use preemption::Preemption;
use run_model::{Run, Tick, is_done, is_pending};
use task_sheet::Sheet;

/// Whether job `k` is of a task of the sheet, and fits it.
pub fn fits<M: Preemption>(sheet: &Sheet, run: &Run, k: u32) -> bool
    requires job { k < length run.now.jobs }
    ensures { result ≡ does_fit M.cuts sheet.now run.now k }
{
    let job = &run.jobs.as_slice()[k as usize];
    job.task < sheet.len() && M::fits(sheet.task(job.task), job)
}

/// Whether job `n`, of the same task, arrives before job `k` and is not done at tick `t`.
fn holds_back(run: &Run, k: u32, t: u64, n: u32) -> bool
    requires job { k < length run.now.jobs }
    requires other { n < length run.now.jobs }
    requires tick { t < length run.now.ticks }
    ensures { result ≡ holds_back_by run.now k t n }
{
    is_before(run, n, k) && !is_done(run, n, t)
}

/// Whether job `k` may run at tick `t`: it is pending, and no earlier job of its task is left undone.
fn may_run(run: &Run, k: u32, t: u64) -> bool
    requires few { length run.now.jobs < 2 ^ 32 }
    requires job { k < length run.now.jobs }
    requires tick { t < length run.now.ticks }
    ensures { result ≡ may_run_by run.now k t }
{
    if !is_pending(run, k, t) {
        return false;
    }
    for n in 0..run.jobs.len() as u32 {
        if holds_back(run, k, t, n) {
            return false;
        }
    }
    true
}

/// Whether tick `t` runs nothing, or a pending job whose task's earlier jobs are all done.
pub fn valid_at(run: &Run, t: u64) -> bool
    requires few { length run.now.jobs < 2 ^ 32 }
    requires tick { t < length run.now.ticks }
    ensures { result ≡ is_valid_at run.now t }
{
    match run.ticks.as_slice()[t as usize] {
        Tick::Runs(k) => (k as usize) < run.jobs.len() && may_run(run, k, t),
        Tick::Off | Tick::Idle => true,
    }
}
