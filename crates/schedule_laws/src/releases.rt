//! Whether a job is released as its task allows.
ghost use Rattle.std.specs.Prelude.{◌≡◌, ◌<◌, ◌^◌, length};
ghost use Rattle.task_sheet.specs.Sheets.{IsOf};
ghost use Rattle.run_model.specs.Runs.{job_at};
ghost use Rattle.schedule_laws.specs.Tests.{AreOf, is_before as is_before_by, is_timely as is_timely_by, is_overtaken as is_overtaken_by, is_release_broken};

use run_model::Run;
use task_sheet::Sheet;

/// Whether job `n` is of the task of job `k`, and arrives before it.
pub fn is_before(run: &Run, n: u32, k: u32) -> bool
    requires job { k < length run.now.jobs }
    requires other { n < length run.now.jobs }
    ensures { result ≡ is_before_by run.now n k }
{
    let jobs = run.jobs.as_slice();
    let job = &jobs[k as usize];
    let other = &jobs[n as usize];
    other.task == job.task && other.arrival < job.arrival
}

/// Whether job `k` is released at its arrival or later, by its task's jitter at most.
fn is_timely(sheet: &Sheet, run: &Run, k: u32) -> bool
    requires job { k < length run.now.jobs }
    requires task { IsOf sheet.now (job_at run.now k) }
    ensures { result ≡ is_timely_by sheet.now (job_at run.now k) }
{
    let job = &run.jobs.as_slice()[k as usize];
    job.arrival <= job.release && job.release - job.arrival <= sheet.task(job.task).jitter
}

/// Whether job `n`, of the same task, arrives before job `k` and is released after it.
fn is_overtaken(run: &Run, k: u32, n: u32) -> bool
    requires job { k < length run.now.jobs }
    requires other { n < length run.now.jobs }
    ensures { result ≡ is_overtaken_by run.now k n }
{
    let jobs = run.jobs.as_slice();
    is_before(run, n, k) && jobs[k as usize].release < jobs[n as usize].release
}

/// Whether job `k` is released before its arrival or more than its task's jitter after it, or before
/// a job of its task that arrives earlier.
pub fn release_broken(sheet: &Sheet, run: &Run, k: u32) -> bool
    requires few { length run.now.jobs < 2 ^ 32 }
    requires job { k < length run.now.jobs }
    requires tasks { AreOf sheet.now run.now }
    ensures { result ≡ is_release_broken sheet.now run.now k }
{
    if !is_timely(sheet, run, k) {
        return true;
    }
    for n in 0..run.jobs.len() as u32 {
        if is_overtaken(run, k, n) {
            return true;
        }
    }
    false
}
