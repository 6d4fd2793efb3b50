//! Numbers.
ghost use Rattle.std.specs.Prelude.{codes};
ghost use Rattle.toy_policy.specs.Numbered.{by_number_meaning};
ghost use Rattle.toy_policy.specs.Lawful.{by_number_lawful};

use policy::{Cap, Key, Policy};
use task_sheet::{Job, Sheet};

/// The order of the sheet: a job of an earlier task is more urgent, and of two jobs of one task
/// the one that arrived earlier.
pub struct ByNumber;

impl Policy for ByNumber {
    const NAME: &'static str = "by-number";

    ghost word = { codes "by-number" };

    ghost meaning = { by_number_meaning };

    ghost lawful = { by_number_lawful };

    fn word() -> &'static str {
        Self::NAME
    }

    fn key(_sheet: &Sheet, job: &Job) -> Key {
        Key {
            high: job.task as i64,
            low: job.arrival as i64,
        }
    }

    fn class(_sheet: &Sheet, i: u32, o: u32) -> bool {
        o <= i
    }

    fn cap(_sheet: &Sheet, i: u32, o: u32, _a: u64) -> Cap {
        if o < i { Cap::All } else { Cap::Nothing }
    }

    fn may_block(sheet: &Sheet, i: u32, o: u32, _a: u64) -> bool {
        ByNumber::may_delay(sheet, i, o)
    }

    fn may_delay(_sheet: &Sheet, i: u32, o: u32) -> bool {
        o > i
    }
}
