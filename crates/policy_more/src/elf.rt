//! Priorities, then arrivals and priority points.
ghost use Rattle.task_sheet.specs.declared.tasks.PolicyKind.TheVariants as kind;
ghost use Rattle.task_sheet.specs.Words.{policy_word};
ghost use Rattle.policy_more.specs.PointPolicies.{elf_meaning};
ghost use Rattle.policy_more.specs.Lawful.{elf_lawful};

use crate::gel::Gel;
use crate::points::point_of;
use lists::limits::GREATEST_NUMBER;
use policy::{Cap, Key, Policy};
use std::cmp::Ordering;
use task_sheet::{Job, Sheet};

/// By priorities, and among tasks of equal priority by priority points.
pub struct Elf;

impl Policy for Elf {
    const NAME: &'static str = "elf";

    ghost word = { policy_word kind.Elf };

    ghost meaning = { elf_meaning };

    ghost lawful = { elf_lawful };

    fn word() -> &'static str {
        Self::NAME
    }

    fn key(sheet: &Sheet, job: &Job) -> Key {
        Key {
            high: GREATEST_NUMBER as i64 - sheet.task(job.task).priority as i64,
            low: job.arrival as i64 + point_of(sheet, job.task),
        }
    }

    fn class(sheet: &Sheet, i: u32, o: u32) -> bool {
        sheet.task(o).priority >= sheet.task(i).priority
    }

    fn cap(sheet: &Sheet, i: u32, o: u32, a: u64) -> Cap {
        match sheet.task(o).priority.cmp(&sheet.task(i).priority) {
            Ordering::Greater => Cap::All,
            Ordering::Equal => Gel::cap(sheet, i, o, a),
            Ordering::Less => Cap::Nothing,
        }
    }

    fn may_block(sheet: &Sheet, i: u32, o: u32, a: u64) -> bool {
        match sheet.task(o).priority.cmp(&sheet.task(i).priority) {
            Ordering::Greater => false,
            Ordering::Equal => Gel::may_block(sheet, i, o, a),
            Ordering::Less => true,
        }
    }

    fn may_delay(sheet: &Sheet, i: u32, o: u32) -> bool {
        match sheet.task(o).priority.cmp(&sheet.task(i).priority) {
            Ordering::Greater => false,
            Ordering::Equal => Gel::may_delay(sheet, i, o),
            Ordering::Less => true,
        }
    }
}
