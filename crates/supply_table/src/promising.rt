//! The promise that a table implies.
ghost use Rattle.std.specs.Prelude.{◌≡◌, ℕ, ◌+◌, ◌*◌, ◌≤◌, ◌++◌, length, true, IfOk, OnOk};
ghost use Rattle.std.specs.List.{flat_map, list_all};
ghost use Rattle.lists.specs.Sums.{max_below};
ghost use Rattle.task_sheet.specs.Sheets.{IsPromise};
ghost use Rattle.task_sheet.specs.declared.tasks.SupplySpec.TheVariants.{Promised as PromisedBy};
ghost use Rattle.supply.specs.Promises.{promised};
ghost use Rattle.supply_table.specs.Limits.{most_cycle};
ghost use Rattle.supply_table.specs.Validity.{is_slot};
ghost use Rattle.supply_table.specs.Floors.{is_supplied, floor_of, times_of};
ghost use Rattle.supply_table.specs.Ticks.{numbers_from, slot_ticks, passing_below, wait_of};

use crate::table::{Slot, Table};
use std::alloc::{AllocError, Global};

/// Puts `count` ticks from tick `from` on behind the others.
fn push_ticks(ticks: &mut Vec<u64>, from: u64, count: u64) -> Result<(), AllocError>
    requires { from + count ≤ 4 * most_cycle }
    ensures { OnOk result (ticks.new.items ≡ ticks.old.items ++ numbers_from from count) }
{
    for k in 0..count {
        ticks.push(from + k)?;
    }
    Ok(())
}

/// Puts the ticks of the slots of a cycle that begins at tick `begin` behind the others.
fn push_cycle(ticks: &mut Vec<u64>, begin: u64, slots: &[Slot]) -> Result<(), AllocError>
    requires begin { begin ≤ most_cycle }
    requires slots { list_all is_slot slots.now ≡ true }
    ensures { OnOk result (ticks.new.items ≡ ticks.old.items ++
        flat_map (slot_ticks begin) slots.now) }
{
    for slot in slots {
        push_ticks(ticks, begin + slot.start, slot.length)?;
    }
    Ok(())
}

/// The supplied ticks of two cycles.
fn ticks_of_two(alloc: Global, table: &Table) -> Result<Vec<u64>, AllocError>
    ensures { IfOk result (λ ticks. ticks.items ≡
        passing_below (is_supplied table.now) (table.now.cycle + table.now.cycle)) }
{
    let mut ticks = Vec::new(alloc);
    push_cycle(&mut ticks, 0, table.slots())?;
    push_cycle(&mut ticks, table.cycle(), table.slots())?;
    Ok(ticks)
}

/// The longest wait from one of the first `once` ticks to the `n`-th tick after it.
fn longest_wait(ticks: &[u64], once: usize, n: usize) -> u64
    requires { once + n ≤ length ticks.now }
    ensures { result ≡ max_below (wait_of ticks.now n) once }
{
    let mut longest = 0;
    for i in 0..once {
        longest = longest.max(ticks[i + n].saturating_sub(ticks[i]));
    }
    longest
}

/// The times of the promise whose horizon is the cycle: in every window of as many ticks, whatever
/// tick of the cycle it begins with, the table supplies as many as times are at most that.
///
/// The `n`-th time is the longest that the `n`-th supplied tick after a supplied one can be away.
pub fn promise(alloc: Global, table: &Table) -> Result<Vec<u64>, AllocError>
    ensures times { IfOk result (λ times. times.items ≡ times_of table.now) }
    ensures valid { IfOk result (λ times. IsPromise (PromisedBy table.now.cycle times.items)) }
    ensures floor { IfOk result (λ times.
        (d : ℕ) → promised table.now.cycle times.items d ≡ floor_of table.now d) }
{
    // for the proof: the table is valid
    let _valid = table.cycle();
    let ticks = ticks_of_two(alloc, table)?;
    let once = ticks.len() / 2;
    let mut times = Vec::new(alloc);
    for n in 0..once {
        times.push(longest_wait(&ticks, once, n + 1))?;
    }
    Ok(times)
}
