//! A cyclic time table.
ghost use Rattle.std.specs.Prelude.{◌≡◌, ◌↔◌, IsOk};
ghost use Rattle.supply_table.specs.Validity.{FailsCycle, FailsSlots, FailsOrder, IsTable, table_check_of};

use crate::checking::{LONGEST_CYCLE, are_in_order, are_slots};
use std::marker::Model;

/// Ticks of the cycle that are supplied: `length` of them, from tick `start` on.
#[derive(Clone, Copy, Debug, PartialEq, Eq)]
pub struct Slot {
    /// A tick of the cycle, counted from 0.
    pub start: u64,
    /// In ticks.
    pub length: u64,
}

/// The first rule that the parts of a table break.
#[derive(Clone, Copy, Debug, PartialEq, Eq)]
pub enum TableRefusal {
    /// The cycle is 0 or above 100,000.
    Cycle,
    /// There is no slot or more than 1,000, a start is above 99,999, a length is outside 1..1,000,
    /// or the lengths' sum is above 1,000.
    Slots,
    /// A slot starts before the end of the one before it, or the last ends after the cycle.
    Order,
}

/// A cycle in ticks, and the slots of it in which the processor is supplied, as in the partitions of
/// ARINC 653 and in time division.
#[derive(Debug, Drop)]
pub struct Table {
    cycle: u64,
    slots: Vec<Slot>,
}

impl Model for Table {
    ghost use Rattle.supply_table.specs.TableParts.{TableParts};

    ghost Value = { TableParts };

    ghost use Rattle.supply_table.specs.Validity.{IsTable};

    ghost view = { λ t. record { cycle = t.cycle; slots = t.slots.items } };

    ghost invariant = { λ t. IsTable (record { cycle = t.cycle; slots = t.slots.items }) };
}

impl Table {
    /// The table of these parts, or the first rule that they break.
    pub fn check(cycle: u64, slots: Vec<Slot>) -> Result<Table, TableRefusal>
        ensures checked { result ≡ table_check_of cycle slots.items }
        ensures valid { IsOk result ↔ IsTable (record { cycle = cycle; slots = slots.items }) }
        ensures cycle { (result ≡ Err TableRefusal.Cycle) ↔ FailsCycle cycle }
        ensures slots { (result ≡ Err TableRefusal.Slots) ↔ FailsSlots cycle slots.items }
        ensures order { (result ≡ Err TableRefusal.Order) ↔ FailsOrder cycle slots.items }
    {
        if cycle == 0 || cycle > LONGEST_CYCLE {
            return Err(TableRefusal::Cycle);
        }
        if !are_slots(&slots) {
            return Err(TableRefusal::Slots);
        }
        if !are_in_order(&slots, cycle) {
            return Err(TableRefusal::Order);
        }
        Ok(Table { cycle, slots })
    }

    /// In ticks.
    pub fn cycle(&self) -> u64
        ensures cycle { result ≡ self.now.cycle }
        ensures valid { IsTable self.now }
    {
        self.cycle
    }

    pub fn slots(&self) -> &[Slot]
        ensures slots { result.now ≡ self.now.slots }
        ensures valid { IsTable self.now }
    {
        self.slots.as_slice()
    }
}
