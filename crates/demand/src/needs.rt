//! What the tasks of a sheet can ask for.
ghost use Rattle.std.specs.Prelude.{◌≡◌, ◌≤◌, ◌<◌, ◌^◌, length};
ghost use Rattle.lists.specs.Limits.{greatest_number};
ghost use Rattle.lists.specs.Sums.{sum_below, max_below};
ghost use Rattle.preemption.specs.CutLaws.{Serves};
ghost use Rattle.demand.specs.Demand.{rest_of, own_of, others_of, blocking_of, need_of, delay_of, class_part_of, window_need_of};

use crate::parts::{asked, asked_within, block, delay};
use policy::Policy;
use preemption::Preemption;
use task_sheet::Sheet;

/// What is left of a job of task `i`, in ticks, once it is not cut any more: its cost less its
/// threshold.
pub fn rest<M: Preemption>(sheet: &Sheet, i: u32) -> u64
    requires task { i < length sheet.now.tasks }
    requires served { Serves M.cuts sheet.now }
    ensures exact { result ≡ rest_of M.cuts sheet.now i }
    ensures bound { result ≤ greatest_number }
{
    let task = sheet.task(i);
    task.cost - M::threshold(task)
}

/// The demand of task `i` itself, in ticks, up to a job that is released `a` ticks into its
/// window and to where that job is not cut any more.
#[tactic(auto, using(crate::proofs::DemandFacts::rest_fits, task_sheet::specs::Limits::jitter_high), unfolding(crate::specs::Demand::own_of))]
pub fn own<M: Preemption>(sheet: &Sheet, i: u32, a: u64) -> u128
    requires task { i < length sheet.now.tasks }
    requires offset { a ≤ greatest_number }
    requires served { Serves M.cuts sheet.now }
    ensures exact { result ≡ own_of M.cuts sheet.now i a }
    ensures bound { result ≤ 2 ^ 81 }
{
    let task = sheet.task(i);
    asked(task, a + 1 + task.jitter) - rest::<M>(sheet, i) as u128
}

/// The demand of the other tasks, in ticks, within `x` ticks of the window's begin.
#[tactic(auto, unfolding(crate::specs::Demand::others_of))]
pub fn others<P: Policy>(sheet: &Sheet, i: u32, a: u64, x: u64) -> u128
    requires task { i < length sheet.now.tasks }
    requires offset { a ≤ greatest_number }
    requires within { x ≤ greatest_number }
    ensures exact { result ≡ others_of P.meaning sheet.now i a x }
    ensures bound { result ≤ 2 ^ 92 }
{
    let mut sum = 0;
    for o in 0..sheet.len() {
        if o != i {
            sum += asked_within(sheet.task(o), P::cap(sheet, i, o, a), x);
        }
    }
    sum
}

/// The longest, in ticks, that a segment that began before the window can block a job of task `i`
/// that is released `a` ticks into it.
#[tactic(auto, unfolding(crate::specs::Demand::blocking_of))]
pub fn blocking<P: Policy, M: Preemption>(sheet: &Sheet, i: u32, a: u64) -> u128
    requires task { i < length sheet.now.tasks }
    requires offset { a ≤ greatest_number }
    requires served { Serves M.cuts sheet.now }
    ensures exact { result ≡ blocking_of P.meaning M.cuts sheet.now i a }
    ensures bound { result ≤ greatest_number }
{
    let mut longest: u64 = 0;
    for o in 0..sheet.len() {
        longest = longest.max(block::<P, M>(sheet, i, a, o));
    }
    longest as u128
}

/// The demand of a job of task `i` that is released `a` ticks into its window, in ticks, within
/// `x` ticks of the window's begin.
#[tactic(auto, unfolding(crate::specs::Demand::need_of))]
pub fn need<P: Policy, M: Preemption>(sheet: &Sheet, i: u32, a: u64, x: u64) -> u128
    requires task { i < length sheet.now.tasks }
    requires offset { a ≤ greatest_number }
    requires within { x ≤ greatest_number }
    requires served { Serves M.cuts sheet.now }
    ensures exact { result ≡ need_of P.meaning M.cuts sheet.now i a x }
    ensures bound { result ≤ 2 ^ 93 }
{
    blocking::<P, M>(sheet, i, a) + own::<M>(sheet, i, a) + others::<P>(sheet, i, a, x)
}

/// How long, in ticks, a segment of any other task can delay the window of task `i`.
fn longest_delay<P: Policy, M: Preemption>(sheet: &Sheet, i: u32) -> u64
    requires task { i < length sheet.now.tasks }
    requires served { Serves M.cuts sheet.now }
    ensures exact { result ≡ max_below (delay_of P.meaning M.cuts sheet.now i)
        (length sheet.now.tasks) }
    ensures bound { result ≤ greatest_number }
{
    let mut longest: u64 = 0;
    for o in 0..sheet.len() {
        longest = longest.max(delay::<P, M>(sheet, i, o));
    }
    longest
}

/// The demand of the class of task `i`, in ticks, within `l` ticks.
#[tactic(auto, using(task_sheet::specs::Limits::jitter_high))]
fn class_demand<P: Policy>(sheet: &Sheet, i: u32, l: u64) -> u128
    requires task { i < length sheet.now.tasks }
    requires window { l ≤ greatest_number }
    ensures exact { result ≡ sum_below (class_part_of P.meaning sheet.now i l)
        (length sheet.now.tasks) }
    ensures bound { result ≤ 2 ^ 92 }
{
    let mut sum = 0;
    for o in 0..sheet.len() {
        if P::class(sheet, i, o) {
            let task = sheet.task(o);
            sum += asked(task, l + task.jitter);
        }
    }
    sum
}

/// The demand of the whole class of task `i`, in ticks, within `l` ticks.
#[tactic(auto, unfolding(crate::specs::Demand::window_need_of))]
pub fn window_need<P: Policy, M: Preemption>(sheet: &Sheet, i: u32, l: u64) -> u128
    requires task { i < length sheet.now.tasks }
    requires window { l ≤ greatest_number }
    requires served { Serves M.cuts sheet.now }
    ensures exact { result ≡ window_need_of P.meaning M.cuts sheet.now i l }
    ensures bound { result ≤ 2 ^ 93 }
{
    longest_delay::<P, M>(sheet, i) as u128 + class_demand::<P>(sheet, i, l)
}
