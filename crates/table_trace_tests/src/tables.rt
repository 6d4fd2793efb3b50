//! Time tables, and what they promise.
use std::alloc::{AllocError, Global};
use std::test::Fail;
use supply::{Promised, Supply};
use supply_table::{Slot, Table, TableRefusal, promise};

/// A cycle, the slots by start and length, and the first rule that they break.
const CHECKED: [(u64, &[(u64, u64)], Option<TableRefusal>); 14] = [
    (0, &[], Some(TableRefusal::Cycle)),
    (100_001, &[(0, 1)], Some(TableRefusal::Cycle)),
    (100_000, &[], Some(TableRefusal::Slots)),
    (100_000, &[(100_000, 1)], Some(TableRefusal::Slots)),
    (100_000, &[(99_999, 1)], None),
    (100_000, &[(0, 0)], Some(TableRefusal::Slots)),
    (100_000, &[(0, 1001)], Some(TableRefusal::Slots)),
    (100_000, &[(0, 1000)], None),
    (100_000, &[(0, 999), (1000, 2)], Some(TableRefusal::Slots)),
    (6, &[(3, 2), (0, 1)], Some(TableRefusal::Order)),
    (6, &[(0, 2), (1, 1)], Some(TableRefusal::Order)),
    (6, &[(0, 2), (2, 4)], None),
    (5, &[(0, 2), (2, 4)], Some(TableRefusal::Order)),
    (5, &[(0, 2), (9, 1000)], Some(TableRefusal::Slots)),
];

/// A cycle, its slots, the times of its promise, and the least supply of windows of 0 to 12 ticks.
const PROMISED: [(u64, &[(u64, u64)], &[u64], [u64; 13]); 3] = [
    (
        4,
        &[(2, 2)],
        &[3, 4],
        [0, 0, 0, 1, 2, 2, 2, 3, 4, 4, 4, 5, 6],
    ),
    (
        6,
        &[(0, 1), (3, 2)],
        &[3, 5, 6],
        [0, 0, 0, 1, 1, 2, 3, 3, 3, 4, 4, 5, 6],
    ),
    (
        3,
        &[(0, 1), (1, 2)],
        &[1, 2, 3],
        [0, 1, 2, 3, 4, 5, 6, 7, 8, 9, 10, 11, 12],
    ),
];

fn make_slots(alloc: Global, slots: &[(u64, u64)]) -> Result<Vec<Slot>, AllocError> {
    let mut all = Vec::new(alloc);
    for (start, length) in slots {
        all.push(Slot {
            start: *start,
            length: *length,
        })?;
    }
    Ok(all)
}

#[test]
fn names_the_first_broken_rule(rt: HostRuntime) -> Result<(), Fail> {
    for (cycle, slots, want) in CHECKED {
        let found = Table::check(cycle, make_slots(rt.alloc(), slots)?).err();
        assert_eq!(rt; found, want, "cycle {cycle}");
    }
    Ok(())
}

#[test]
fn promises_the_least_supply(rt: HostRuntime) -> Result<(), Fail> {
    for (cycle, slots, want, amounts) in PROMISED {
        let table = Table::check(cycle, make_slots(rt.alloc(), slots)?)?;
        let times = promise(rt.alloc(), &table)?;
        assert_eq!(rt; times.as_slice(), want, "cycle {cycle}");
        let supply = Promised::new(table.cycle(), times);
        for (d, amount) in amounts.iter().enumerate() {
            assert_eq!(rt; supply.sbf(d as u64), *amount, "at {d}");
        }
    }
    Ok(())
}

/// One tick of each hundred: the n-th time is n hundreds.
#[test]
fn promises_a_thousand_slots(rt: HostRuntime) -> Result<(), Fail> {
    let mut slots = Vec::new(rt.alloc());
    for k in 0..1000u64 {
        slots.push(Slot {
            start: 100 * k,
            length: 1,
        })?;
    }
    let table = Table::check(100_000, slots)?;
    assert_eq!(rt; table.slots().len(), 1000);
    let times = promise(rt.alloc(), &table)?;
    assert_eq!(rt; times.len(), 1000);
    for (k, time) in times.iter().enumerate() {
        assert_eq!(rt; *time, 100 * (k as u64 + 1));
    }
    Ok(())
}
