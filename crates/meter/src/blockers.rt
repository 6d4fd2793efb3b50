//! Which segment that began before the window blocks longest.
ghost use Rattle.std.specs.Prelude.{◌≡◌, ◌≤◌, ◌<◌, length, IfOk};
ghost use Rattle.lists.specs.Limits.{greatest_number};
ghost use Rattle.preemption.specs.CutLaws.{Serves};
ghost use Rattle.demand.specs.Demand.{block_of};
ghost use Rattle.meter.specs.Blockers.{AreBegun, IsLeft, IsBlocker};

use policy::Policy;
use preemption::Preemption;
use std::alloc::{AllocError, Global};
use task_sheet::Sheet;

/// The task that blocks longest, and how long it does.
#[derive(Clone, Copy, Debug, PartialEq, Eq)]
pub struct Blocker {
    /// Its number in the sheet; any where nothing blocks.
    pub task: u32,
    /// In ticks.
    pub block: u64,
}

/// What is left of the longest segment of task `o`, in ticks, once it has begun.
fn left<M: Preemption>(sheet: &Sheet, o: u32) -> u64
    requires task { o < length sheet.now.tasks }
    requires served { Serves M.cuts sheet.now }
    ensures { IsLeft M.cuts sheet.now o result }
{
    M::longest(sheet.task(o)) - 1
}

/// What is left of each task's longest segment, in ticks, once it has begun.
pub fn begun_segments<M: Preemption>(alloc: Global, sheet: &Sheet) -> Result<Vec<u64>, AllocError>
    requires { Serves M.cuts sheet.now }
    ensures { IfOk result (λ begun. AreBegun M.cuts sheet.now begun.items) }
{
    let mut begun = vec![in alloc; 0; sheet.len() as usize]?;
    for o in 0..sheet.len() {
        begun[o as usize] = left::<M>(sheet, o);
    }
    Ok(begun)
}

/// How long, in ticks, a segment of task `o` that began before the window can block a job of task
/// `i` that is released `a` ticks into it.
fn block_at<P: Policy, M: Preemption>(sheet: &Sheet, i: u32, a: u64, o: u32, begun: &[u64]) -> u64
    requires i { i < length sheet.now.tasks }
    requires o { o < length sheet.now.tasks }
    requires offset { a ≤ greatest_number }
    requires begun { AreBegun M.cuts sheet.now begun.now }
    ensures exact { result ≡ block_of P.meaning M.cuts sheet.now i a o }
    ensures bound { result ≤ greatest_number }
{
    if o == i {
        return 0;
    }
    if P::may_block(sheet, i, o, a) {
        begun[o as usize]
    } else {
        0
    }
}

/// The task that blocks longest at this offset, of all.
pub fn find_blocker<P: Policy, M: Preemption>(
    sheet: &Sheet,
    i: u32,
    a: u64,
    begun: &[u64],
) -> Blocker
    requires i { i < length sheet.now.tasks }
    requires offset { a ≤ greatest_number }
    requires begun { AreBegun M.cuts sheet.now begun.now }
    ensures { IsBlocker P.meaning M.cuts sheet.now i a result }
{
    let mut longest = Blocker { task: 0, block: 0 };
    for o in 0..sheet.len() {
        let block = block_at::<P, M>(sheet, i, a, o, begun);
        if block > longest.block {
            longest = Blocker { task: o, block };
        }
    }
    longest
}

/// The same from the one at an earlier offset: at later ones fewer tasks block, so it stays the
/// longest while it blocks at all.
pub fn keep_blocker<P: Policy, M: Preemption>(
    sheet: &Sheet,
    i: u32,
    from: u64,
    a: u64,
    begun: &[u64],
    before: Blocker,
) -> Blocker
    requires i { i < length sheet.now.tasks }
    requires order { from ≤ a }
    requires offset { a ≤ greatest_number }
    requires begun { AreBegun M.cuts sheet.now begun.now }
    requires before { IsBlocker P.meaning M.cuts sheet.now i from before }
    ensures { IsBlocker P.meaning M.cuts sheet.now i a result }
{
    // for the proof: the sheet is valid
    let _valid = sheet.len();
    if before.block == 0 {
        return before;
    }
    if block_at::<P, M>(sheet, i, a, before.task, begun) == before.block {
        return before;
    }
    find_blocker::<P, M>(sheet, i, a, begun)
}
