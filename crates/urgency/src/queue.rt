//! A queue of jobs.
ghost use Rattle.std.specs.Prelude.{◌≡◌, ◌≤◌, ◌<◌, ℕ, List, Bool, false, length, OnOk, MatchOption};
ghost use Rattle.lists.specs.Limits.{greatest_number};
ghost use Rattle.task_sheet.specs.SheetParts.{SheetParts};
ghost use Rattle.task_sheet.specs.declared.tasks.Job.{Job as JobValue};
ghost use Rattle.policy.specs.PolicyMeaning.{PolicyMeaning};
ghost use Rattle.urgency.specs.Queues.{IsQueue, IsMostUrgent, IsFirstEntry, Has, with_member, without};

use crate::rank::{Rank, rank_of};
use policy::Policy;
use std::alloc::{AllocError, Global};
use std::collections::BTreeMap;
use task_sheet::{Job, Sheet};

/// Jobs by their numbers, the most urgent first.
#[derive(Drop)]
pub struct Queue {
    pub jobs: BTreeMap<Rank, u32>,
}

/// The job of the first entry.
pub fn first_entry(jobs: &BTreeMap<Rank, u32>) -> Option<u32>
    ensures { MatchOption result (length jobs.now.entries ≡ 0) (IsFirstEntry jobs.now) }
{
    match jobs.first_key_value() {
        Some((_, k)) => {
            let number = *k;
            Some(number)
        }
        None => None,
    }
}

impl Queue {
    /// With no job.
    pub fn new(alloc: Global) -> Queue
        ensures { (p : PolicyMeaning) (sheet : SheetParts) (jobs : List JobValue)
            (test : ℕ → Bool) →
            ((k : ℕ) → k < length jobs → test k ≡ false) → IsQueue p sheet jobs test result.jobs }
    {
        Queue {
            jobs: BTreeMap::new(alloc),
        }
    }

    /// Adds a job with this number. The only error is want of memory.
    pub fn insert<P: Policy>(
        &mut self,
        sheet: &Sheet,
        job: &Job,
        number: u32,
    ) -> Result<(), AllocError>
        requires task { job.now.task < length sheet.now.tasks }
        requires arrival { job.now.arrival ≤ greatest_number }
        ensures { OnOk result ((jobs : List JobValue) (test : ℕ → Bool) → Has jobs number job.now →
            IsQueue P.meaning sheet.now jobs test self.old.jobs →
            IsQueue P.meaning sheet.now jobs (with_member test number) self.new.jobs) }
    {
        let rank = rank_of::<P>(sheet, job, number);
        self.jobs.insert(rank, number)?;
        Ok(())
    }

    /// Takes the job with this number out, if it is there.
    pub fn remove<P: Policy>(&mut self, sheet: &Sheet, job: &Job, number: u32)
        requires task { job.now.task < length sheet.now.tasks }
        requires arrival { job.now.arrival ≤ greatest_number }
        ensures { (jobs : List JobValue) (test : ℕ → Bool) → Has jobs number job.now →
            IsQueue P.meaning sheet.now jobs test self.old.jobs →
            IsQueue P.meaning sheet.now jobs (without test number) self.new.jobs }
    {
        let rank = rank_of::<P>(sheet, job, number);
        self.jobs.remove(&rank);
    }

    /// The first job: no other comes before it by key, task, arrival and number.
    pub fn first(&self) -> Option<u32>
        ensures { (p : PolicyMeaning) (sheet : SheetParts) (jobs : List JobValue)
            (test : ℕ → Bool) →
            IsQueue p sheet jobs test self.now.jobs → IsMostUrgent p sheet jobs test result }
    {
        first_entry(&self.jobs)
    }
}
