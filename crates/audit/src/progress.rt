//! Which jobs are pending at a tick.
ghost use Rattle.std.specs.Prelude.{◌≡◌, ◌+◌, ◌<◌, ◌≤◌, ℕ, Bool, IfOk, OnOk, cond, length, not};
ghost use Rattle.lists.specs.Limits.{greatest_number};
ghost use Rattle.task_sheet.specs.SheetParts.{SheetParts};
ghost use Rattle.task_sheet.specs.Sheets.{IsOf};
ghost use Rattle.policy.specs.PolicyMeaning.{PolicyMeaning};
ghost use Rattle.run_model.specs.declared.run.Run.{Run as RunValue};
ghost use Rattle.run_model.specs.Runs.{is_pending};
ghost use Rattle.schedule_laws.specs.Tests.{AreOf};
ghost use Rattle.urgency.specs.Queues.{IsQueue, IsMostUrgent, Has, with_member, without};
ghost use Rattle.audit.specs.Pending.{HasCome, IsReady};
ghost use Rattle.audit.specs.Premises.{IsSmall};

use crate::arrivals::{Arrival, release_order};
use crate::service_counts::{is_undone, no_service, serve};
use policy::Policy;
use run_model::{Run, Tick};
use std::alloc::{AllocError, Global};
use task_sheet::{Job, Sheet};
use urgency::Queue;

/// The service of each job so far, the jobs in the order of their releases, how many of these have
/// come, and a queue of those that came and are not done.
#[derive(Drop)]
pub struct Progress {
    pub served: Vec<u64>,
    pub coming: Vec<Arrival>,
    pub next: u64,
    pub queue: Queue,
}

/// Puts a job into the queue, if it waits.
fn enter<P: Policy>(
    sheet: &Sheet,
    queue: &mut Queue,
    job: &Job,
    k: u32,
    waits: bool,
) -> Result<(), AllocError>
    requires task { IsOf sheet.now job.now }
    requires arrival { job.now.arrival ≤ greatest_number }
    ensures { OnOk result ((run : RunValue) (test : ℕ → Bool) → Has run.jobs k job.now →
        IsQueue P.meaning sheet.now run.jobs test queue.old.jobs →
        IsQueue P.meaning sheet.now run.jobs (cond waits (with_member test k) test) queue.new.jobs) }
{
    if !waits {
        return Ok(());
    }
    queue.insert::<P>(sheet, job, k)?;
    Ok(())
}

/// Takes a job out of the queue, if it is done.
fn leave<P: Policy>(sheet: &Sheet, queue: &mut Queue, job: &Job, k: u32, done: bool)
    requires task { IsOf sheet.now job.now }
    requires arrival { job.now.arrival ≤ greatest_number }
    ensures { (run : RunValue) (test : ℕ → Bool) → Has run.jobs k job.now →
        IsQueue P.meaning sheet.now run.jobs test queue.old.jobs →
        IsQueue P.meaning sheet.now run.jobs (cond done (without test k) test) queue.new.jobs }
{
    if !done {
        return;
    }
    queue.remove::<P>(sheet, job, k);
}

/// Lets in the jobs that are released by tick `t`, and tells how many have come then.
fn let_in<P: Policy>(
    sheet: &Sheet,
    run: &Run,
    served: &[u64],
    coming: &[Arrival],
    queue: &mut Queue,
    next: u64,
    t: u64,
) -> Result<u64, AllocError>
    requires small { IsSmall run.now }
    requires tasks { AreOf sheet.now run.now }
    requires come { HasCome P.meaning sheet.now run.now t served.now coming.now next
        queue.old.jobs }
    ensures { IfOk result (λ n.
        IsReady P.meaning sheet.now run.now t served.now coming.now n queue.new.jobs) }
{
    for i in next..coming.len() as u64 {
        let arrival = coming[i as usize];
        if arrival.release > t {
            return Ok(i);
        }
        let k = arrival.job;
        let job = &run.jobs.as_slice()[k as usize];
        let waits = is_undone(run, served, k);
        enter::<P>(sheet, queue, job, k, waits)?;
    }
    Ok(coming.len() as u64)
}

impl Progress {
    /// Before tick 0.
    pub fn new(alloc: Global, run: &Run) -> Result<Progress, AllocError>
        requires small { IsSmall run.now }
        ensures { IfOk result (λ progress. (p : PolicyMeaning) (sheet : SheetParts) →
            HasCome p sheet run.now 0 progress.served.items progress.coming.items progress.next
            progress.queue.jobs) }
    {
        let served = no_service(alloc, run)?;
        let coming = release_order(alloc, run)?;
        Ok(Progress {
            served,
            coming,
            next: 0,
            queue: Queue::new(alloc),
        })
    }

    /// Lets in the jobs that are released by tick `t`.
    pub fn let_in<P: Policy>(&mut self, sheet: &Sheet, run: &Run, t: u64) -> Result<(), AllocError>
        requires small { IsSmall run.now }
        requires tasks { AreOf sheet.now run.now }
        requires come { HasCome P.meaning sheet.now run.now t self.old.served.items
            self.old.coming.items self.old.next self.old.queue.jobs }
        ensures { OnOk result (IsReady P.meaning sheet.now run.now t self.new.served.items
            self.new.coming.items self.new.next self.new.queue.jobs) }
    {
        self.next = let_in::<P>(
            sheet,
            run,
            &self.served,
            &self.coming,
            &mut self.queue,
            self.next,
            t,
        )?;
        Ok(())
    }

    /// The first of the jobs that are pending at tick `t`.
    pub fn first<P: Policy>(&self, sheet: &Sheet, run: &Run, t: u64) -> Option<u32>
        requires ready { IsReady P.meaning sheet.now run.now t self.now.served.items
            self.now.coming.items self.now.next self.now.queue.jobs }
        ensures { IsMostUrgent P.meaning sheet.now run.now.jobs
            (λ k. is_pending run.now k t) result }
    {
        self.queue.first()
    }

    /// Counts the service of tick `t`.
    pub fn serve<P: Policy>(&mut self, sheet: &Sheet, run: &Run, t: u64)
        requires small { IsSmall run.now }
        requires tasks { AreOf sheet.now run.now }
        requires tick { t < length run.now.ticks }
        requires ready { IsReady P.meaning sheet.now run.now t self.old.served.items
            self.old.coming.items self.old.next self.old.queue.jobs }
        ensures { HasCome P.meaning sheet.now run.now (t + 1) self.new.served.items
            self.new.coming.items self.new.next self.new.queue.jobs }
    {
        serve(run, &mut self.served, t);
        if let Tick::Runs(k) = run.ticks.as_slice()[t as usize] {
            let job = &run.jobs.as_slice()[k as usize];
            let done = !is_undone(run, &self.served, k);
            leave::<P>(sheet, &mut self.queue, job, k, done);
        }
    }
}
