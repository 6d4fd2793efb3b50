//! Arrivals and priority points.
ghost use Rattle.task_sheet.specs.declared.tasks.PolicyKind.TheVariants as kind;
ghost use Rattle.task_sheet.specs.Words.{policy_word};
ghost use Rattle.policy_more.specs.PointPolicies.{gel_meaning};
ghost use Rattle.policy_more.specs.Lawful.{gel_lawful};

use crate::points::point_of;
use policy::{Cap, Key, Policy};
use task_sheet::{Job, Sheet};

/// By priority points: a job whose arrival plus its task's point is earlier is more urgent.
pub struct Gel;

impl Policy for Gel {
    const NAME: &'static str = "gel";

    ghost word = { policy_word kind.Gel };

    ghost meaning = { gel_meaning };

    ghost lawful = { gel_lawful };

    fn word() -> &'static str {
        Self::NAME
    }

    fn key(sheet: &Sheet, job: &Job) -> Key {
        Key {
            high: job.arrival as i64 + point_of(sheet, job.task),
            low: 0,
        }
    }

    fn class(_sheet: &Sheet, _i: u32, _o: u32) -> bool {
        true
    }

    fn cap(sheet: &Sheet, i: u32, o: u32, a: u64) -> Cap {
        let arrived = (a + 1 + sheet.task(o).jitter) as i64;
        Cap::At(arrived + point_of(sheet, i) - point_of(sheet, o))
    }

    fn may_block(sheet: &Sheet, i: u32, o: u32, a: u64) -> bool {
        let late = sheet.task(i).jitter as i64;
        point_of(sheet, o) + late > point_of(sheet, i) + a as i64
    }

    fn may_delay(sheet: &Sheet, i: u32, o: u32) -> bool {
        let own = sheet.task(i).jitter;
        let other = sheet.task(o).jitter;
        point_of(sheet, o) + own as i64 > point_of(sheet, i) && own + other > 0
    }
}
