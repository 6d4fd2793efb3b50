//! The service of the jobs, tick by tick.
ghost use Rattle.std.specs.Prelude.{◌≡◌, ◌+◌, ◌<◌, ◌≤◌, IfOk, length, nat_lt, replicate};
ghost use Rattle.run_model.specs.Runs.{job_at};
ghost use Rattle.audit.specs.Premises.{IsSmall};
ghost use Rattle.audit.specs.ServiceCounts.{IsServed};
ghost use Rattle.audit.specs.UndoneJobs.{served_at};

use run_model::{Run, Tick};
use std::alloc::{AllocError, Global};

/// As many zeros.
pub fn zeros(alloc: Global, count: usize) -> Result<Vec<u64>, AllocError>
    ensures { IfOk result (λ v. v.items ≡ replicate count 0) }
{
    vec![in alloc; 0; count]
}

/// The service before tick 0: none.
pub fn no_service(alloc: Global, run: &Run) -> Result<Vec<u64>, AllocError>
    ensures { IfOk result (λ v. IsServed run.now 0 v.items) }
{
    let served = zeros(alloc, run.jobs.len())?;
    Ok(served)
}

/// Counts the service of tick `t`.
pub fn serve(run: &Run, served: &mut [u64], t: u64)
    requires small { IsSmall run.now }
    requires tick { t < length run.now.ticks }
    requires served { IsServed run.now t served.old }
    ensures { IsServed run.now (t + 1) served.new }
{
    if let Tick::Runs(k) = run.ticks.as_slice()[t as usize] {
        served[k as usize] += 1;
    }
}

/// Whether job `k` is not done, by its service.
pub fn is_undone(run: &Run, served: &[u64], k: u32) -> bool
    requires job { k < length run.now.jobs }
    requires count { length served.now ≡ length run.now.jobs }
    ensures { result ≡ nat_lt (served_at served.now k) (job_at run.now k).cost }
{
    served[k as usize] < run.jobs.as_slice()[k as usize].cost
}
