//! Worked sheets with the places of their tasks, and one that has no order.
use assign::{AssignRefusal, Placed, assign};
use preemption::PerTask;
use small_sheets::{EIGHT_TASKS, sheet_of};
use std::alloc::{AllocError, Global};
use std::test::Fail;
use supply::Unit;

/// A sheet, a horizon, and the level and bound of each task, or the cause why there is no order.
type Row = (
    &'static str,
    u64,
    Result<&'static [(u64, u64)], AssignRefusal>,
);

const ROWS: [Row; 4] = [
    (
        "policy = 'fp'
task = [
    { name = 'slow', cost = 3, deadline = 10, priority = 1, period = 10 },
    { name = 'fast', cost = 1, deadline = 2, priority = 1, period = 4 },
]",
        100,
        Ok(&[(1, 4), (2, 1)]),
    ),
    (
        "policy = 'fp'
task = [
    { name = 'x', cost = 1, deadline = 1, priority = 1, period = 4 },
    { name = 'y', cost = 1, deadline = 1, priority = 1, period = 4 },
]",
        100,
        Err(AssignRefusal::NoOrder { level: 1 }),
    ),
    (
        "policy = 'fp'
task = [
    { name = 'x', cost = 1, deadline = 2, priority = 1, period = 4 },
    { name = 'y', cost = 1, deadline = 2, priority = 1, period = 4 },
]",
        100,
        Ok(&[(1, 2), (2, 1)]),
    ),
    (
        EIGHT_TASKS,
        1_000_000,
        Ok(&[
            (8, 619),
            (6, 1839),
            (4, 2919),
            (5, 2759),
            (7, 1639),
            (2, 19879),
            (1, 29820),
            (3, 17939),
        ]),
    ),
];

/// The levels and bounds as places.
fn placed(alloc: Global, wanted: &[(u64, u64)]) -> Result<Vec<Placed>, AllocError> {
    let mut places = Vec::new(alloc);
    for (priority, bound) in wanted {
        places.push(Placed {
            priority: *priority,
            bound: *bound,
        })?;
    }
    Ok(places)
}

#[test]
fn worked_sheets(rt: HostRuntime) -> Result<(), Fail> {
    let alloc = rt.alloc();
    for (sheet, horizon, wanted) in ROWS.as_slice() {
        let sheet = sheet_of(alloc, sheet)?;
        let wanted = match wanted {
            Ok(places) => Ok(placed(alloc, places)?),
            Err(cause) => Err(*cause),
        };
        assert_eq!(rt;
            assign::<PerTask, Unit>(alloc, &sheet, &Unit, *horizon),
            wanted
        );
    }
    Ok(())
}
