//! A promise of horizon 4 and times 3 and 4, by itself and as a sheet's, and a whole processor.
use lists::Items;
use small_tasks::{PLAIN, make_tasks};
use std::alloc::Global;
use std::process::Abort;
use std::test::Fail;
use supply::{Promised, Supply, Unit};
use task_sheet::{PolicyKind, Sheet, SupplySpec};

fn make_sheet(alloc: Global, supply: SupplySpec) -> Result<Sheet, Fail> {
    let tasks = make_tasks(alloc, &[PLAIN])?;
    Ok(Sheet::check(PolicyKind::Fp, supply, tasks)?)
}

fn two_of_four(alloc: Global) -> Result<SupplySpec, Fail> {
    let times = vec![in alloc; 3, 4]?;
    Ok(SupplySpec::Promised {
        horizon: 4,
        times: Items::new(times),
    })
}

/// The supply of windows of 0 to 9 ticks.
const HALF: [u64; 10] = [0, 0, 0, 1, 2, 2, 2, 3, 4, 4];

/// An amount, a limit, and the least window up to it with so much supply.
const HALF_LEAST: [(u128, u64, Option<u64>); 5] = [
    (1, 100, Some(3)),
    (2, 100, Some(4)),
    (3, 100, Some(7)),
    (8, 16, Some(16)),
    (8, 15, None),
];

const WHOLE: [u64; 10] = [0, 1, 2, 3, 4, 5, 6, 7, 8, 9];

const WHOLE_LEAST: [(u128, u64, Option<u64>); 6] = [
    (1, 100, Some(1)),
    (2, 100, Some(2)),
    (3, 100, Some(3)),
    (8, 16, Some(8)),
    (8, 15, Some(8)),
    (8, 7, None),
];

fn supplies<S: Supply>(
    rt: &impl Abort,
    supply: &S,
    amounts: &[u64],
    least: &[(u128, u64, Option<u64>)],
) {
    supply.known();
    for (d, amount) in amounts.iter().enumerate() {
        assert_eq!(rt; supply.sbf(d as u64), *amount, "at {d}");
    }
    for (amount, limit, window) in least {
        assert_eq!(rt; supply.least(*amount, *limit), *window, "up to {limit}");
    }
}

#[test]
fn two_of_four_ticks(rt: HostRuntime) -> Result<(), Fail> {
    let sheet = make_sheet(rt.alloc(), two_of_four(rt.alloc())?)?;
    supplies(&rt, &sheet, &HALF, &HALF_LEAST);
    let SupplySpec::Promised { horizon, times } = sheet.supply() else {
        return Err("another supply").map_err(Fail::from);
    };
    let copy = times.as_slice().to_vec(rt.alloc())?;
    let promised = Promised::new(*horizon, copy);
    supplies(&rt, &promised, &HALF, &HALF_LEAST);
    assert!(rt; !Promised::WHOLE);
    Ok(())
}

#[test]
fn every_tick(rt: HostRuntime) -> Result<(), Fail> {
    let sheet = make_sheet(rt.alloc(), SupplySpec::Unit)?;
    supplies(&rt, &sheet, &WHOLE, &WHOLE_LEAST);
    supplies(&rt, &Unit, &WHOLE, &WHOLE_LEAST);
    assert!(rt; Unit::WHOLE);
    Ok(())
}
