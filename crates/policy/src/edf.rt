//! Deadlines.
ghost use Rattle.task_sheet.specs.declared.tasks.PolicyKind.TheVariants as kind;
ghost use Rattle.task_sheet.specs.Words.{policy_word};
ghost use Rattle.policy.specs.Policies.{edf_meaning};
ghost use Rattle.policy.specs.Lawful.{edf_lawful};

use crate::keys::{Cap, Key};
use crate::policy::Policy;
use task_sheet::{Job, Sheet};

/// Earliest deadline first: a job whose absolute deadline is earlier is more urgent.
pub struct Edf;

impl Policy for Edf {
    const NAME: &'static str = "edf";

    ghost word = { policy_word kind.Edf };

    ghost meaning = { edf_meaning };

    ghost lawful = { edf_lawful };

    fn word() -> &'static str {
        Self::NAME
    }

    fn key(sheet: &Sheet, job: &Job) -> Key {
        Key {
            high: (job.arrival + sheet.task(job.task).deadline) as i64,
            low: 0,
        }
    }

    fn class(_sheet: &Sheet, _i: u32, _o: u32) -> bool {
        true
    }

    fn cap(sheet: &Sheet, i: u32, o: u32, a: u64) -> Cap {
        let own = sheet.task(i).deadline;
        let other = sheet.task(o);
        Cap::At((a + 1 + own + other.jitter) as i64 - other.deadline as i64)
    }

    fn may_block(sheet: &Sheet, i: u32, o: u32, a: u64) -> bool {
        let own = sheet.task(i);
        sheet.task(o).deadline + own.jitter > own.deadline + a
    }

    fn may_delay(sheet: &Sheet, i: u32, o: u32) -> bool {
        let own = sheet.task(i);
        let other = sheet.task(o);
        other.deadline + own.jitter > own.deadline && own.jitter + other.jitter > 0
    }
}
