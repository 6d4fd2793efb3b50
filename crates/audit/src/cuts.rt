//! Where jobs can be cut.
ghost use Rattle.std.specs.Prelude.{◌≡◌, ◌<◌, ◌≤◌, IfOk, length, sum, true};
ghost use Rattle.lists.specs.Limits.{greatest_number};
ghost use Rattle.task_sheet.specs.Sheets.{IsTask, task_at};
ghost use Rattle.preemption.specs.CutLaws.{Serves};
ghost use Rattle.run_model.specs.Runs.{job_at};
ghost use Rattle.schedule_laws.specs.Tests.{AreOf};
ghost use Rattle.audit.specs.CutSums.{sums_from, AreSums};
ghost use Rattle.audit.specs.Premises.{AreFitting};

use preemption::Tabled;
use run_model::Run;
use std::alloc::{AllocError, Global};
use task_sheet::{Cut, Job, Sheet, Task};

/// The sums of the first segments: of none, of one, and so on to all.
fn sums_of(alloc: Global, segments: &[u64]) -> Result<Vec<u64>, AllocError>
    requires { sum segments.now ≤ greatest_number }
    ensures { IfOk result (λ v. v.items ≡ sums_from 0 segments.now) }
{
    let mut sums = Vec::with_capacity(alloc, segments.len() + 1)?;
    let mut total = 0;
    for segment in segments {
        sums.push(total)?;
        total += *segment;
    }
    sums.push(total)?;
    Ok(sums)
}

/// For each job the sums of its first segments.
pub fn cut_sums<M: Tabled>(
    alloc: Global,
    sheet: &Sheet,
    run: &Run,
) -> Result<Vec<Vec<u64>>, AllocError>
    requires fit { AreFitting M.cuts sheet.now run.now }
    requires served { Serves M.cuts sheet.now }
    ensures { IfOk result (λ sums. AreSums run.now sums.items) }
{
    // for the proof: the sheet is valid
    let _valid = sheet.len();
    let mut sums = Vec::with_capacity(alloc, run.jobs.len())?;
    for job in run.jobs.as_slice() {
        sums.push(sums_of(alloc, job.segs.as_slice())?)?;
    }
    Ok(sums)
}

/// Whether a job can be cut once it has had `s` ticks of service.
///
/// The sums of its first segments are looked up, and not made again at each tick.
fn can_cut<M: Tabled>(task: &Task, job: &Job, sums: &[u64], s: u64) -> bool
    requires valid { IsTask task.now }
    requires serves { M.cuts.serves task.now ≡ true }
    requires sums { sums.now ≡ sums_from 0 job.now.segs }
    ensures { result ≡ M.cuts.cuttable task.now job.now s }
{
    match task.cut {
        Cut::Fixed(_) | Cut::Floating(_) => sums.binary_search(&s).is_ok() || job.cost <= s,
        Cut::Full | Cut::Never => M::cuttable(task, job, s),
    }
}

/// Whether job `k` can be cut once it has had `s` ticks of service.
pub fn can_cut_job<M: Tabled>(sheet: &Sheet, run: &Run, sums: &[Vec<u64>], k: u32, s: u64) -> bool
    requires job { k < length run.now.jobs }
    requires tasks { AreOf sheet.now run.now }
    requires served { Serves M.cuts sheet.now }
    requires sums { AreSums run.now sums.now }
    ensures { result ≡ M.cuts.cuttable (task_at sheet.now (job_at run.now k).task)
        (job_at run.now k) s }
{
    let job = &run.jobs.as_slice()[k as usize];
    can_cut::<M>(sheet.task(job.task), job, &sums[k as usize], s)
}
