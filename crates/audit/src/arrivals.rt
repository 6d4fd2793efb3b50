//! The jobs in the order of their arrivals, and where these are equal of their releases.
ghost use Rattle.std.specs.Prelude.{IfOk, length};
ghost use Rattle.audit.specs.ArrivalOrder.{AreFirstArrivals, IsOrder, IsReleaseOrder};
ghost use Rattle.audit.specs.Premises.{IsSmall};

use run_model::Run;
use std::alloc::{AllocError, Global};

/// The arrival of a job, and its release.
#[derive(Clone, Copy, PartialEq, Eq, PartialOrd, Ord)]
pub struct Arrival {
    pub tick: u64,
    pub release: u64,
    pub job: u32,
}

/// The arrivals of all jobs, by their numbers.
fn listed_arrivals(alloc: Global, run: &Run) -> Result<Vec<Arrival>, AllocError>
    requires { IsSmall run.now }
    ensures { IfOk result (λ v. AreFirstArrivals run.now (length run.now.jobs) v.items) }
{
    let mut arrivals = Vec::with_capacity(alloc, run.jobs.len())?;
    for k in 0..run.jobs.len() as u32 {
        let job = &run.jobs.as_slice()[k as usize];
        arrivals.push(Arrival {
            tick: job.arrival,
            release: job.release,
            job: k,
        })?;
    }
    Ok(arrivals)
}

/// The jobs in the order of their arrivals, and where these are equal of their releases.
pub fn arrival_order(alloc: Global, run: &Run) -> Result<Vec<Arrival>, AllocError>
    requires { IsSmall run.now }
    ensures { IfOk result (λ v. IsOrder run.now v.items) }
{
    let mut order = listed_arrivals(alloc, run)?;
    order.sort_unstable();
    Ok(order)
}

/// The jobs in the order of their releases.
pub fn release_order(alloc: Global, run: &Run) -> Result<Vec<Arrival>, AllocError>
    requires { IsSmall run.now }
    ensures { IfOk result (λ v. IsReleaseOrder run.now v.items) }
{
    let mut order = listed_arrivals(alloc, run)?;
    order.sort_unstable_by_key(|arrival| arrival.release);
    Ok(order)
}
