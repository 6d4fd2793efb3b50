//! Fixed priorities.
ghost use Rattle.task_sheet.specs.declared.tasks.PolicyKind.TheVariants as kind;
ghost use Rattle.task_sheet.specs.Words.{policy_word};
ghost use Rattle.policy.specs.Policies.{fp_meaning};
ghost use Rattle.policy.specs.Lawful.{fp_lawful};

use crate::keys::{Cap, Key};
use crate::policy::Policy;
use lists::limits::GREATEST_NUMBER;
use task_sheet::{Job, Sheet};

/// Fixed priority: a task of a greater priority is more urgent.
pub struct Fp;

impl Policy for Fp {
    const NAME: &'static str = "fp";

    ghost word = { policy_word kind.Fp };

    ghost meaning = { fp_meaning };

    ghost lawful = { fp_lawful };

    fn word() -> &'static str {
        Self::NAME
    }

    fn key(sheet: &Sheet, job: &Job) -> Key {
        Key {
            high: GREATEST_NUMBER as i64 - sheet.task(job.task).priority as i64,
            low: 0,
        }
    }

    fn class(sheet: &Sheet, i: u32, o: u32) -> bool {
        sheet.task(o).priority >= sheet.task(i).priority
    }

    fn cap(sheet: &Sheet, i: u32, o: u32, _a: u64) -> Cap {
        if Fp::class(sheet, i, o) {
            Cap::All
        } else {
            Cap::Nothing
        }
    }

    fn may_block(sheet: &Sheet, i: u32, o: u32, _a: u64) -> bool {
        Fp::may_delay(sheet, i, o)
    }

    fn may_delay(sheet: &Sheet, i: u32, o: u32) -> bool {
        sheet.task(o).priority < sheet.task(i).priority
    }
}
