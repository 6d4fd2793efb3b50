//! Sheets whose supply is a cyclic time table.
use sheet_print::print_sheet;
use sheet_text::read_sheet;
use std::alloc::{AllocError, Global};
use std::process::Abort;
use std::test::Fail;
use task_sheet::{Field, Place, SheetRefusal};

const NO_CYCLE: SheetRefusal = SheetRefusal::Missing {
    place: Place::Supply,
    field: Field::Cycle,
};

const CYCLE_KIND: SheetRefusal = SheetRefusal::Kind {
    place: Place::Supply,
    field: Field::Cycle,
};

const CYCLE_RANGE: SheetRefusal = SheetRefusal::Range {
    place: Place::Supply,
    field: Field::Cycle,
};

const NO_SLOTS: SheetRefusal = SheetRefusal::Missing {
    place: Place::Supply,
    field: Field::Slots,
};

const SLOTS_KIND: SheetRefusal = SheetRefusal::Kind {
    place: Place::Supply,
    field: Field::Slots,
};

const SLOTS_RANGE: SheetRefusal = SheetRefusal::Range {
    place: Place::Supply,
    field: Field::Slots,
};

const SLOTS_ORDER: SheetRefusal = SheetRefusal::Order {
    place: Place::Supply,
    field: Field::Slots,
};

/// What is refused next where the supply is as it should be.
const NO_TASK: SheetRefusal = SheetRefusal::Missing {
    place: Place::Top,
    field: Field::Task,
};

/// Lines of a supply, and the first rule that they break.
const REFUSED: [(&str, SheetRefusal); 33] = [
    (
        "cycle = 6\nslots = [[0, 1]]\nphase = 1\nhorizon = 6\n",
        SheetRefusal::Unknown {
            place: Place::Supply,
        },
    ),
    (
        "cycle = 6\nslots = [[0, 1], [3, 2]]\nhorizon = 6\n",
        SheetRefusal::Mixed,
    ),
    ("cycle = 6\ntimes = [3]\n", SheetRefusal::Mixed),
    ("slots = [[0, 1]]\nhorizon = 6\n", SheetRefusal::Mixed),
    ("slots = 1\ntimes = 1\n", SheetRefusal::Mixed),
    ("slots = [[0, 1]]\n", NO_CYCLE),
    ("slots = 1\n", NO_CYCLE),
    ("cycle = 6.0\n", CYCLE_KIND),
    ("cycle = 0\n", CYCLE_RANGE),
    ("cycle = -1\n", CYCLE_RANGE),
    ("cycle = 100001\nslots = 1\n", CYCLE_RANGE),
    ("cycle = 100000\n", NO_SLOTS),
    ("cycle = 1\nslots = 1\n", SLOTS_KIND),
    ("cycle = 6\nslots = [0, 1]\n", SLOTS_KIND),
    ("cycle = 6\nslots = [[]]\n", SLOTS_KIND),
    ("cycle = 6\nslots = [[0]]\n", SLOTS_KIND),
    ("cycle = 6\nslots = [[0, 1, 2]]\n", SLOTS_KIND),
    ("cycle = 6\nslots = [[0, 1.0]]\n", SLOTS_KIND),
    ("cycle = 6\nslots = [[-1, 0], ['0', 1]]\n", SLOTS_KIND),
    ("cycle = 6\nslots = []\n", SLOTS_RANGE),
    ("cycle = 6\nslots = [[-1, 2]]\n", SLOTS_RANGE),
    ("cycle = 6\nslots = [[100000, 1]]\n", SLOTS_RANGE),
    ("cycle = 6\nslots = [[0, 0]]\n", SLOTS_RANGE),
    ("cycle = 6\nslots = [[0, -1]]\n", SLOTS_RANGE),
    ("cycle = 6\nslots = [[0, 1001]]\n", SLOTS_RANGE),
    ("cycle = 6\nslots = [[3, 999], [0, 2]]\n", SLOTS_RANGE),
    ("cycle = 6\nslots = [[3, 2], [0, 1]]\n", SLOTS_ORDER),
    ("cycle = 6\nslots = [[0, 2], [1, 1]]\n", SLOTS_ORDER),
    ("cycle = 6\nslots = [[5, 2]]\n", SLOTS_ORDER),
    ("cycle = 6\nslots = [[99999, 1]]\n", SLOTS_ORDER),
    ("cycle = 6\nslots = [[5, 1]]\n", NO_TASK),
    ("cycle = 1\nslots = [[0, 1]]\n", NO_TASK),
    ("cycle = 100000\nslots = [[99999, 1]]\n", NO_TASK),
];

/// Lines of a supply, and the promise that a sheet with them has, as it is printed.
const PROMISED: [(&str, &str); 3] = [
    (
        "cycle = 4\nslots = [[2, 2]]\n",
        "horizon = 4\ntimes = [3, 4]\n",
    ),
    (
        "cycle = 6\nslots = [[0, 1], [3, 2]]\n",
        "horizon = 6\ntimes = [3, 5, 6]\n",
    ),
    (
        "cycle = 3\nslots = [[0, 1], [1, 2]]\n",
        "horizon = 3\ntimes = [1, 2, 3]\n",
    ),
];

const BEFORE: &str = "policy = \"edf\"\n\n[supply]\n";

const AFTER: &str = "\n[[task]]\ncost = 1\ndeadline = 9\nname = \"a\"\npreemption = \"full\"\n\
    priority = 0\n\n[task.curve]\nhorizon = 8\nsteps = [[1, 1]]\n";

/// A sheet whose supply has these lines, with what comes after them.
fn with_supply(alloc: Global, lines: &str, after: &str) -> Result<String, AllocError> {
    let mut text = String::from_str(alloc, BEFORE)?;
    text.push_str(lines)?;
    text.push_str(after)?;
    Ok(text)
}

/// The sheet whose supply has these lines is none, by this rule.
fn assert_refused(
    rt: &impl Abort,
    alloc: Global,
    lines: &str,
    refusal: SheetRefusal,
) -> Result<(), Fail> {
    let text = with_supply(alloc, lines, "")?;
    let found = read_sheet(alloc, text.as_bytes()).err();
    assert_eq!(rt; found, Some(refusal));
    Ok(())
}

#[test]
fn time_table_refused(rt: HostRuntime) -> Result<(), Fail> {
    for (lines, refusal) in REFUSED {
        assert_refused(&rt, rt.alloc(), lines, refusal)?;
    }
    Ok(())
}

/// A thousand slots may be given, which here all begin with the cycle.
#[test]
fn too_many_slots(rt: HostRuntime) -> Result<(), Fail> {
    for (count, refusal) in [(1000, SLOTS_ORDER), (1001, SLOTS_RANGE)] {
        let mut lines = String::from_str(rt.alloc(), "cycle = 6\nslots = [")?;
        for _ in 0..count {
            lines.push_str("[0, 1],")?;
        }
        lines.push_str("]\n")?;
        assert_refused(&rt, rt.alloc(), lines.as_str(), refusal)?;
    }
    Ok(())
}

/// The sheet whose supply has the lines of this table is printed with this promise.
fn assert_promised(rt: &impl Abort, alloc: Global, table: &str, promise: &str) -> Result<(), Fail> {
    let text = with_supply(alloc, table, AFTER)?;
    let sheet = read_sheet(alloc, text.as_bytes())?;
    let printed = print_sheet(alloc, &sheet)?;
    let want = with_supply(alloc, promise, AFTER)?;
    assert_eq!(rt; printed.as_slice(), want.as_bytes());
    Ok(())
}

/// A table is read as the promise that it implies, and printed as that.
#[test]
fn time_table(rt: HostRuntime) -> Result<(), Fail> {
    for (table, promise) in PROMISED {
        assert_promised(&rt, rt.alloc(), table, promise)?;
    }
    Ok(())
}
