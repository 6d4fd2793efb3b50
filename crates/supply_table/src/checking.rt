//! The rules that a table has to keep.
ghost use Rattle.std.specs.Prelude.{◌≡◌, ◌≤◌, ◌<◌, nat_le, true};
ghost use Rattle.std.specs.List.{list_all};
ghost use Rattle.supply_table.specs.Validity.{is_slot as is_slot_of, are_slots as are_slots_of, are_in_order as are_in_order_of, supplied_sum};

use crate::table::Slot;

/// The longest cycle, in ticks.
pub const LONGEST_CYCLE: u64 = 100_000;

/// The most slots of a table.
const MOST_SLOTS: usize = 1_000;

/// The most ticks that a table may supply in a cycle.
const MOST_SUPPLIED: u64 = 1_000;

fn is_slot(slot: &Slot) -> bool
    ensures { result ≡ is_slot_of slot.now }
{
    slot.start < LONGEST_CYCLE && 1 <= slot.length && slot.length <= MOST_SUPPLIED
}

fn are_each_slots(slots: &[Slot]) -> bool
    ensures { result ≡ list_all is_slot_of slots.now }
{
    for slot in slots {
        if !is_slot(slot) {
            return false;
        }
    }
    true
}

/// Whether the slots have at most so many ticks together.
fn supply_within(slots: &[Slot], most: u64) -> bool
    ensures { result ≡ nat_le (supplied_sum slots.now) most }
{
    let mut left = most;
    for slot in slots {
        if slot.length > left {
            return false;
        }
        left -= slot.length;
    }
    true
}

pub fn are_slots(slots: &[Slot]) -> bool
    ensures { result ≡ are_slots_of slots.now }
{
    1 <= slots.len()
        && slots.len() <= MOST_SLOTS
        && are_each_slots(slots)
        && supply_within(slots, MOST_SUPPLIED)
}

/// Whether each slot starts at the end of the one before it or later, and the last ends by the end
/// of the cycle.
pub fn are_in_order(slots: &[Slot], cycle: u64) -> bool
    requires { are_slots_of slots.now ≡ true }
    ensures { result ≡ are_in_order_of 0 slots.now cycle }
{
    let mut end = 0;
    for slot in slots {
        if slot.start < end {
            return false;
        }
        end = slot.start + slot.length;
    }
    end <= cycle
}
