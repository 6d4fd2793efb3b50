//! Whether more jobs of a task arrive than its curve says.
ghost use Rattle.std.specs.Prelude.{◌≡◌, ◌≤◌, ◌<◌, ◌^◌, length};
ghost use Rattle.run_model.specs.Runs.{job_at};
ghost use Rattle.schedule_laws.specs.Compliance.{arrives_in as arrives_in_by, arrivals_of};
ghost use Rattle.schedule_laws.specs.Tests.{AreOf, AreEarly, is_within_curve, is_crowded_since as is_crowded_since_by, is_crowded};

use run_model::Run;
use task_sheet::{Job, Sheet};

/// Whether the job is of task `o` and arrives in `[t, u)`.
fn arrives_in(job: &Job, o: u32, t: u64, u: u64) -> bool
    ensures { result ≡ arrives_in_by o t u job.now }
{
    job.task == o && t <= job.arrival && job.arrival < u
}

/// How many jobs of task `o` arrive in `[t, u)`.
#[tactic(auto, unfolding(crate::specs::Compliance::arrivals_of))]
fn arrivals(run: &Run, o: u32, t: u64, u: u64) -> usize
    ensures { result ≡ arrivals_of run.now o t u }
{
    run.jobs
        .as_slice()
        .iter()
        .filter(|job| arrives_in(job, o, t, u))
        .count()
}

/// Whether at most as many jobs of the task of job `k` arrive from tick `t` to its arrival as the
/// curve says.
fn is_within_curve_from(sheet: &Sheet, run: &Run, k: u32, t: u64) -> bool
    requires job { k < length run.now.jobs }
    requires tasks { AreOf sheet.now run.now }
    requires arrivals { AreEarly run.now }
    requires start { t ≤ (job_at run.now k).arrival }
    ensures { result ≡ is_within_curve sheet.now run.now k t }
{
    let job = &run.jobs.as_slice()[k as usize];
    let end = job.arrival + 1;
    arrivals(run, job.task, t, end) as u128 <= sheet.task(job.task).curve.at(end - t)
}

/// Whether job `n` is of the same task and arrives no later, and more jobs arrive from there on than
/// the curve says.
fn is_crowded_since(sheet: &Sheet, run: &Run, k: u32, n: u32) -> bool
    requires job { k < length run.now.jobs }
    requires other { n < length run.now.jobs }
    requires tasks { AreOf sheet.now run.now }
    requires arrivals { AreEarly run.now }
    ensures { result ≡ is_crowded_since_by sheet.now run.now k n }
{
    let jobs = run.jobs.as_slice();
    let job = &jobs[k as usize];
    let other = &jobs[n as usize];
    other.task == job.task
        && other.arrival <= job.arrival
        && !is_within_curve_from(sheet, run, k, other.arrival)
}

/// Whether some window that ends with the arrival of job `k` has more arrivals of its task than the
/// curve says.
///
/// It looks at the windows that begin with the arrival of a job of the task: a curve never falls, so
/// these suffice.
pub fn crowded(sheet: &Sheet, run: &Run, k: u32) -> bool
    requires few { length run.now.jobs < 2 ^ 32 }
    requires job { k < length run.now.jobs }
    requires tasks { AreOf sheet.now run.now }
    requires arrivals { AreEarly run.now }
    ensures { result ≡ is_crowded sheet.now run.now k }
{
    // for the proof: the sheet is valid
    let _valid = sheet.len();
    for n in 0..run.jobs.len() as u32 {
        if is_crowded_since(sheet, run, k, n) {
            return true;
        }
    }
    false
}
