//! Arrivals.
ghost use Rattle.task_sheet.specs.declared.tasks.PolicyKind.TheVariants as kind;
ghost use Rattle.task_sheet.specs.Words.{policy_word};
ghost use Rattle.policy.specs.Policies.{fifo_meaning};
ghost use Rattle.policy.specs.Lawful.{fifo_lawful};

use crate::keys::{Cap, Key};
use crate::policy::Policy;
use task_sheet::{Job, Sheet};

/// First in, first out: a job that arrived earlier is more urgent.
pub struct Fifo;

impl Policy for Fifo {
    const NAME: &'static str = "fifo";

    ghost word = { policy_word kind.Fifo };

    ghost meaning = { fifo_meaning };

    ghost lawful = { fifo_lawful };

    fn word() -> &'static str {
        Self::NAME
    }

    fn key(_sheet: &Sheet, job: &Job) -> Key {
        Key {
            high: job.arrival as i64,
            low: 0,
        }
    }

    fn class(_sheet: &Sheet, _i: u32, _o: u32) -> bool {
        true
    }

    fn cap(sheet: &Sheet, _i: u32, o: u32, a: u64) -> Cap {
        Cap::At((a + 1 + sheet.task(o).jitter) as i64)
    }

    fn may_block(sheet: &Sheet, i: u32, _o: u32, a: u64) -> bool {
        a < sheet.task(i).jitter
    }

    fn may_delay(sheet: &Sheet, i: u32, _o: u32) -> bool {
        0 < sheet.task(i).jitter
    }
}
