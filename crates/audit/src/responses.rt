//! What is seen of each task in a run that complies.
ghost use Rattle.std.specs.Prelude.{◌≡◌, ◌+◌, ◌<◌, ◌^◌, IfOk, None, length, replicate};
ghost use Rattle.audit.specs.Responses.{seen_below};
ghost use Rattle.audit.specs.Premises.{IsSmall, AreReleased, ArePositive, AreValid};
ghost use Rattle.audit.specs.NotedResponses.{AreResponses, AreSeen, with_response, nothing};
ghost use Rattle.audit.specs.UndoneJobs.{AreBelow};
ghost use Rattle.audit.specs.ServiceCounts.{IsServed};

use crate::service_counts::{no_service, serve};
use crate::verdict::Seen;
use run_model::{Run, Tick};
use std::alloc::{AllocError, Global};

/// The tick `t` is over: notes the response time of the job that is done with it.
fn note_response(run: &Run, served: &[u64], responses: &mut [Option<u64>], t: u64)
    requires small { IsSmall run.now }
    requires released { AreReleased run.now }
    requires tick { t < length run.now.ticks }
    requires valid { AreValid run.now }
    requires served { IsServed run.now (t + 1) served.now }
    requires responses { AreResponses run.now t responses.old }
    ensures { AreResponses run.now (t + 1) responses.new }
{
    if let Tick::Runs(k) = run.ticks.as_slice()[t as usize] {
        let job = &run.jobs.as_slice()[k as usize];
        if served[k as usize] >= job.cost {
            responses[k as usize] = Some(t + 1 - job.arrival);
        }
    }
}

fn no_responses(alloc: Global, count: usize) -> Result<Vec<Option<u64>>, AllocError>
    ensures { IfOk result (λ v. v.items ≡ replicate count None) }
{
    vec![in alloc; None; count]
}

/// The response times of the jobs that are done by the end of the run.
fn response_times(alloc: Global, run: &Run) -> Result<Vec<Option<u64>>, AllocError>
    requires small { IsSmall run.now }
    requires released { AreReleased run.now }
    requires costs { ArePositive run.now }
    requires valid { AreValid run.now }
    ensures { IfOk result (λ v. AreResponses run.now (length run.now.ticks) v.items) }
{
    let mut served = no_service(alloc, run)?;
    let mut responses = no_responses(alloc, run.jobs.len())?;
    for t in 0..run.ticks.len() as u64 {
        serve(run, &mut served, t);
        note_response(run, &served, &mut responses, t);
    }
    Ok(responses)
}

impl Seen {
    /// With one more job of the task, and its response time if it is done.
    fn with_response(self, response: Option<u64>) -> Seen
        requires jobs { self.jobs < 2 ^ 63 }
        requires done { self.done < 2 ^ 63 }
        ensures { result ≡ with_response self response }
    {
        match response {
            Some(ticks) => Seen {
                jobs: self.jobs + 1,
                done: self.done + 1,
                worst: self.worst.max(ticks),
            },
            None => Seen {
                jobs: self.jobs + 1,
                ..self
            },
        }
    }
}

/// Nothing yet is seen of so many tasks.
fn nothing_seen(alloc: Global, count: usize) -> Result<Vec<Seen>, AllocError>
    ensures { IfOk result (λ v. v.items ≡ replicate count nothing) }
{
    let nothing = Seen {
        jobs: 0,
        done: 0,
        worst: 0,
    };
    vec![in alloc; nothing; count]
}

/// Notes job `k` as one of its task, with its response time if it is done.
fn see_job(run: &Run, responses: &[Option<u64>], seen: &mut [Seen], k: u32)
    requires small { IsSmall run.now }
    requires job { k < length run.now.jobs }
    requires below { AreBelow run.now (length seen.old) }
    requires responses { AreResponses run.now (length run.now.ticks) responses.now }
    requires seen { AreSeen run.now k seen.old }
    ensures count { length seen.new ≡ length seen.old }
    ensures seen { AreSeen run.now (k + 1) seen.new }
{
    let o = run.jobs.as_slice()[k as usize].task as usize;
    seen[o] = seen[o].with_response(responses[k as usize]);
}

/// What is seen of each of the first `count` tasks, which have all jobs.
pub fn seen_tasks(alloc: Global, run: &Run, count: u32) -> Result<Vec<Seen>, AllocError>
    requires small { IsSmall run.now }
    requires below { AreBelow run.now count }
    requires released { AreReleased run.now }
    requires costs { ArePositive run.now }
    requires valid { AreValid run.now }
    ensures { IfOk result (λ v. v.items ≡ seen_below run.now count) }
{
    let responses = response_times(alloc, run)?;
    let mut seen = nothing_seen(alloc, count as usize)?;
    for k in 0..run.jobs.len() as u32 {
        see_job(run, &responses, &mut seen, k);
    }
    Ok(seen)
}
