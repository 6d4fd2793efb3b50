//! What one task can ask for.
ghost use Rattle.std.specs.Prelude.{◌≡◌, ◌≤◌, ◌+◌, ◌-◌, ◌*◌, ◌^◌, ◌<◌, length, true};
ghost use Rattle.lists.specs.Limits.{greatest_number};
ghost use Rattle.curve.specs.Curves.{alpha_of};
ghost use Rattle.task_sheet.specs.Sheets.{task_at, IsTask};
ghost use Rattle.preemption.specs.CutLaws.{Serves};
ghost use Rattle.demand.specs.Demand.{capped_count, block_of, delay_of};

use policy::{Cap, Policy};
use preemption::Preemption;
use task_sheet::{Sheet, Task};

/// The ticks that the jobs of a task can ask for in a window of `d` ticks.
pub fn asked(task: &Task, d: u64) -> u128
    requires valid { IsTask task.now }
    requires window { d ≤ 2000000001 }
    ensures exact { result ≡ task.now.cost * alpha_of task.now.curve d }
    ensures bound { result ≤ 2 ^ 81 }
{
    task.cost as u128 * task.curve.at(d)
}

/// The ticks that those jobs of a task can ask for that are released within `x` ticks and arrive
/// within the cap.
#[tactic(auto, using(task_sheet::specs::Limits::jitter_high))]
pub fn asked_within(task: &Task, cap: Cap, x: u64) -> u128
    requires valid { IsTask task.now }
    requires window { x ≤ greatest_number }
    ensures exact { result ≡ task.now.cost * capped_count task.now.curve task.now.jitter cap x }
    ensures bound { result ≤ 2 ^ 81 }
{
    let released = x + task.jitter;
    match cap {
        Cap::Nothing => 0,
        Cap::At(c) => {
            let within = if c <= 0 { 0 } else { released.min(c as u64) };
            asked(task, within)
        }
        Cap::All => asked(task, released),
    }
}

/// One less than the longest segment of task `o`, in ticks: what is left of it once it has begun.
fn begun<M: Preemption>(sheet: &Sheet, o: u32) -> u64
    requires task { o < length sheet.now.tasks }
    requires served { Serves M.cuts sheet.now }
    ensures exact { result ≡ M.cuts.longest (task_at sheet.now o) - 1 }
    ensures bound { result ≤ greatest_number }
{
    M::longest(sheet.task(o)) - 1
}

/// How long, in ticks, a segment of task `o` that began before the window can block a job of task
/// `i` that is released `a` ticks into it.
pub fn block<P: Policy, M: Preemption>(sheet: &Sheet, i: u32, a: u64, o: u32) -> u64
    requires i { i < length sheet.now.tasks }
    requires o { o < length sheet.now.tasks }
    requires offset { a ≤ greatest_number }
    requires served { Serves M.cuts sheet.now }
    ensures exact { result ≡ block_of P.meaning M.cuts sheet.now i a o }
    ensures bound { result ≤ greatest_number }
{
    if o != i && P::may_block(sheet, i, o, a) {
        begun::<M>(sheet, o)
    } else {
        0
    }
}

/// How long, in ticks, a segment of task `o` can delay the window of task `i`.
pub fn delay<P: Policy, M: Preemption>(sheet: &Sheet, i: u32, o: u32) -> u64
    requires i { i < length sheet.now.tasks }
    requires o { o < length sheet.now.tasks }
    requires served { Serves M.cuts sheet.now }
    ensures exact { result ≡ delay_of P.meaning M.cuts sheet.now i o }
    ensures bound { result ≤ greatest_number }
{
    if o != i && P::may_delay(sheet, i, o) {
        begun::<M>(sheet, o)
    } else {
        0
    }
}
