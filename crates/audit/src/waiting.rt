//! Whether some job is pending at a tick.
ghost use Rattle.std.specs.Prelude.{◌≡◌, ◌+◌, ◌<◌, ◌≤◌, IfOk, length};
ghost use Rattle.run_model.specs.Runs.{job_at};
ghost use Rattle.audit.specs.ArrivalOrder.{IsReleaseOrder, arrival_at};
ghost use Rattle.audit.specs.Pending.{AreDoneTo, IsSomePending, IsWaiting};
ghost use Rattle.audit.specs.Premises.{IsSmall};
ghost use Rattle.audit.specs.ServiceCounts.{IsServed};
ghost use Rattle.audit.specs.UndoneJobs.{served_at};

use crate::arrivals::{Arrival, release_order};
use crate::service_counts::{is_undone, no_service, serve};
use run_model::Run;
use std::alloc::{AllocError, Global};

/// The service of each job so far, the jobs in the order of their releases, and a place in that order
/// before which they are done.
#[derive(Drop)]
pub struct Waiting {
    pub served: Vec<u64>,
    pub coming: Vec<Arrival>,
    pub place: u64,
}

/// The first place from this one on, in the order of the releases, whose job is not done.
fn next_undone(run: &Run, served: &[u64], coming: &[Arrival], place: u64) -> u64
    requires served { length served.now ≡ length run.now.jobs }
    requires order { IsReleaseOrder run.now coming.now }
    requires done { AreDoneTo run.now served.now coming.now place }
    ensures done { AreDoneTo run.now served.now coming.now result }
    ensures undone { result < length coming.now →
        served_at served.now (arrival_at coming.now result).job
        < (job_at run.now (arrival_at coming.now result).job).cost }
{
    for i in place..coming.len() as u64 {
        if is_undone(run, served, coming[i as usize].job) {
            return i;
        }
    }
    coming.len() as u64
}

/// A job that is pending at tick `t`, if there is one: of the jobs that are not done, the one at this
/// place is released first.
fn pending_at(run: &Run, served: &[u64], coming: &[Arrival], place: u64, t: u64) -> Option<u32>
    requires served { IsServed run.now t served.now }
    requires order { IsReleaseOrder run.now coming.now }
    requires done { AreDoneTo run.now served.now coming.now place }
    requires undone { place < length coming.now →
        served_at served.now (arrival_at coming.now place).job
        < (job_at run.now (arrival_at coming.now place).job).cost }
    ensures { IsSomePending run.now t result }
{
    if place >= coming.len() as u64 {
        return None;
    }
    let arrival = coming[place as usize];
    if arrival.release > t {
        return None;
    }
    Some(arrival.job)
}

impl Waiting {
    /// Before tick 0.
    pub fn new(alloc: Global, run: &Run) -> Result<Waiting, AllocError>
        requires { IsSmall run.now }
        ensures { IfOk result (IsWaiting run.now 0) }
    {
        let served = no_service(alloc, run)?;
        let coming = release_order(alloc, run)?;
        Ok(Waiting {
            served,
            coming,
            place: 0,
        })
    }

    /// A job that is pending at tick `t`, if there is one.
    pub fn some_pending(&mut self, run: &Run, t: u64) -> Option<u32>
        requires { IsWaiting run.now t self.old }
        ensures pending { IsSomePending run.now t result }
        ensures waiting { IsWaiting run.now t self.new }
    {
        self.place = next_undone(run, &self.served, &self.coming, self.place);
        pending_at(run, &self.served, &self.coming, self.place, t)
    }

    /// Counts the service of tick `t`.
    pub fn serve(&mut self, run: &Run, t: u64)
        requires small { IsSmall run.now }
        requires tick { t < length run.now.ticks }
        requires waiting { IsWaiting run.now t self.old }
        ensures { IsWaiting run.now (t + 1) self.new }
    {
        serve(run, &mut self.served, t);
    }
}
