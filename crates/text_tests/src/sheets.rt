//! Sheets written by hand.
use sheet_print::print_sheet;
use sheet_text::read_sheet;
use std::alloc::{AllocError, Global};
use std::process::Abort;
use std::test::Fail;
use task_sheet::{Field, Place, PolicyKind, Sheet, SheetRefusal};

/// Texts with the first rule that each breaks.
const REFUSED: [(&[u8], SheetRefusal); 23] = [
    (
        b"",
        SheetRefusal::Missing {
            place: Place::Top,
            field: Field::Policy,
        },
    ),
    (
        b"policy = \"fp\"",
        SheetRefusal::Missing {
            place: Place::Top,
            field: Field::Task,
        },
    ),
    (
        b"policy = \"fp\"\ntask = []\n",
        SheetRefusal::Range {
            place: Place::Top,
            field: Field::Task,
        },
    ),
    (
        b"policy = \"edf\"\n[[task]]\nname = \"a\"\ncost = 2.0\n",
        SheetRefusal::Kind {
            place: Place::Task(0),
            field: Field::Cost,
        },
    ),
    (
        b"policy = \"edf\"\n[[task]]\nname = \"a\"\ncolour = 1\n",
        SheetRefusal::Unknown {
            place: Place::Task(0),
        },
    ),
    (
        b"policy = \"edf\"\n[[task]]\nname = \"a\"\ncost = 1000000001\n",
        SheetRefusal::Range {
            place: Place::Task(0),
            field: Field::Cost,
        },
    ),
    (
        b"policy = \"edf\"\n[[task]]\nname = \"a\"\ncost = 9223372036854775807\n",
        SheetRefusal::Range {
            place: Place::Task(0),
            field: Field::Cost,
        },
    ),
    (
        b"policy = \"edf\"\n[[task]]\nname = \"a\"\ncost = 9223372036854775808\n",
        SheetRefusal::Text,
    ),
    (
        b"policy = \"edf\"\n[[task]]\nname = \"a\"\ncost = 2\ndeadline = 9\njitter = -1\n",
        SheetRefusal::Range {
            place: Place::Task(0),
            field: Field::Jitter,
        },
    ),
    (
        b"policy = \"edf\"\n[[task]]\nname = \"a\"\ncost = 2\ndeadline = 9\njitter = 1000000001\n",
        SheetRefusal::Range {
            place: Place::Task(0),
            field: Field::Jitter,
        },
    ),
    (
        b"policy = \"edf\"\n[[task]]\nname = \"a\"\ncost = 2\ndeadline = 9\njitter = 3.0\n",
        SheetRefusal::Kind {
            place: Place::Task(0),
            field: Field::Jitter,
        },
    ),
    (
        b"policy = \"edf\"\n[[task]]\njitter = -1\npriority = -1\nname = \"a\"\ncost = 2\ndeadline = 9\n",
        SheetRefusal::Range {
            place: Place::Task(0),
            field: Field::Priority,
        },
    ),
    (
        b"policy = \"edf\"\n[[task]]\nname = \"a\"\ncost = 2\ndeadline = 9\njitter = 1000000000\n",
        SheetRefusal::Missing {
            place: Place::Task(0),
            field: Field::Curve,
        },
    ),
    (
        b"policy = \"gel\"\n[[task]]\nname = \"a\"\ncost = 2\ndeadline = 9\npoint = 1.0\n",
        SheetRefusal::Kind {
            place: Place::Task(0),
            field: Field::Point,
        },
    ),
    (
        b"policy = \"gel\"\n[[task]]\nname = \"a\"\ncost = 2\ndeadline = 9\npoint = 1000000001\n",
        SheetRefusal::Range {
            place: Place::Task(0),
            field: Field::Point,
        },
    ),
    (
        b"policy = \"edf\"\n[[task]]\nname = \"a\"\ncost = 2\ndeadline = 9\npoint = -1000000001\n",
        SheetRefusal::Range {
            place: Place::Task(0),
            field: Field::Point,
        },
    ),
    (
        b"policy = \"gel\"\n[[task]]\nname = \"a\"\ncost = 2\ndeadline = 9\npoint = 1.0\njitter = -1\n",
        SheetRefusal::Range {
            place: Place::Task(0),
            field: Field::Jitter,
        },
    ),
    (
        b"policy = \"gel\"\n[[task]]\nname = \"a\"\ncost = 2\ndeadline = 9\npoint = -1000000000\n",
        SheetRefusal::Missing {
            place: Place::Task(0),
            field: Field::Curve,
        },
    ),
    (
        b"policy = \"elf\"\n[[task]]\nname = \"a\"\ncost = 2\ndeadline = 9\npoint = 1.0\n",
        SheetRefusal::Missing {
            place: Place::Task(0),
            field: Field::Priority,
        },
    ),
    (
        b"policy = \"edf\"\n[[task]]\nname = \"a\"\ncost = 2\ndeadline = 9\n\
        curve = { horizon = 5, steps = [[0, 1]] }\n",
        SheetRefusal::Range {
            place: Place::Task(0),
            field: Field::CurveSteps,
        },
    ),
    (
        b"policy = \"edf\"\n[[task]]\nname = \"a\"\ncost = 4\ndeadline = 9\nperiod = 9\n\
        preemption = { fixed = [1, 2] }\n",
        SheetRefusal::Sum { task: 0 },
    ),
    (
        b"policy = \"edf\"\n[[task]]\nname = \"a\"\ncost = 4\ndeadline = 9\nperiod = 9\n\
        [[task]]\nname = \"a\"\n",
        SheetRefusal::Twice { task: 1 },
    ),
    (b"\xFF", SheetRefusal::Text),
];

/// One sheet: with CR LF, with a mark of the byte order, in line, and with a point of 0.
const SPELLINGS: [&[u8]; 4] = [
    b"policy = \"edf\"\r\n[[task]]\r\nname = \"a\"\r\ncost = 1\r\ndeadline = 4\r\nperiod = 4\r\n",
    b"\xEF\xBB\xBFpolicy = \"edf\"\n[[task]]\nname = \"a\"\ncost = 1\ndeadline = 4\nperiod = 4\n",
    b"policy = \"edf\"\ntask = [{ name = \"a\", cost = 1, deadline = 4, period = 4 }]",
    b"policy = \"gel\"\ntask = [{ name = \"a\", cost = 1, deadline = 4, period = 4, point = -0 }]",
];

const TWO_TASKS: &[u8] = b"policy = \"fp\"\n
[[task]]\nname = \"a\"\ncost = 1\ndeadline = 4\npriority = 2\nperiod = 4\n
[[task]]\nname = \"b\"\ncost = 2\ndeadline = 6\npriority = 1\nperiod = 6\n";

const FIRST_PRINTED: &[u8] = b"policy = \"fp\"\n
[[task]]\ncost = 1\ndeadline = 4\nname = \"a\"\npreemption = \"full\"\npriority = 2\n
[task.curve]\nhorizon = 4\nsteps = [[1, 1]]\n
[[task]]\ncost = 2\n";

const EVERY_FORM: &[u8] = b"policy = \"elf\"\n
[supply]\nhorizon = 4\ntimes = [3, 4]\n
[[task]]\ncost = 3\ndeadline = 9\njitter = 1000000000\nname = \"x'y\"\npoint = -1000000000\npreemption = \"never\"\npriority = 0\n
[task.curve]\nhorizon = 50\nsteps = [[1, 2], [25, 4]]\n
[[task]]\ncost = 3\ndeadline = 9\njitter = 1\nname = \"y\"\npriority = 0\n
[task.curve]\nhorizon = 9\nsteps = [[1, 1]]\n
[task.preemption]\nfixed = [1, 2]\n
[[task]]\ncost = 3\ndeadline = 9\nname = \"z\"\npoint = 1\npriority = 1000000000\n
[task.curve]\nhorizon = 9\nsteps = [[1, 1]]\n
[task.preemption]\nfloating = 3\n";

/// The text is no sheet, by this rule.
fn assert_refused(rt: &impl Abort, alloc: Global, text: &[u8], refusal: SheetRefusal) {
    let found = read_sheet(alloc, text).err();
    assert_eq!(rt; found, Some(refusal));
}

#[test]
fn refused_sheets(rt: HostRuntime) {
    for (text, refusal) in REFUSED {
        assert_refused(&rt, rt.alloc(), text, refusal);
    }
}

/// So many pieces, and so many others behind them.
fn pieces(
    alloc: Global,
    front: &[u8],
    piece: &[u8],
    back: &[u8],
    count: u32,
) -> Result<Vec<u8>, AllocError> {
    let mut text = Vec::from_slice(alloc, front)?;
    for _ in 0..count {
        text.extend_from_slice(piece)?;
    }
    for _ in 0..count {
        text.extend_from_slice(back)?;
    }
    Ok(text)
}

#[test]
fn too_many_tasks_and_brackets(rt: HostRuntime) -> Result<(), Fail> {
    let alloc = rt.alloc();
    let place = Place::Top;
    let tasks = pieces(alloc, b"policy = \"fp\"\n", b"[[task]]\n", b"", 257)?;
    let many = SheetRefusal::Range {
        place,
        field: Field::Task,
    };
    assert_refused(&rt, alloc, &tasks, many);
    let nested = pieces(alloc, b"policy = ", b"[", b"]", 80)?;
    let list = SheetRefusal::Kind {
        place,
        field: Field::Policy,
    };
    assert_refused(&rt, alloc, &nested, list);
    let deep = pieces(alloc, b"policy = ", b"[", b"]", 81)?;
    assert_refused(&rt, alloc, &deep, SheetRefusal::Text);
    Ok(())
}

#[test]
fn reads_other_spellings(rt: HostRuntime) -> Result<(), Fail> {
    for text in SPELLINGS {
        let sheet = read_sheet(rt.alloc(), text)?;
        assert_eq!(rt; sheet.len(), 1);
        assert_eq!(rt; sheet.task(0).point, 0);
    }
    Ok(())
}

fn assert_two_tasks(rt: &impl Abort, sheet: &Sheet) {
    assert_eq!(rt; sheet.len(), 2);
    assert_eq!(rt; sheet.task(1).name.as_str(), "b");
    assert_eq!(rt; sheet.task(1).curve.at(7), 2);
}

#[test]
fn prints_two_tasks(rt: HostRuntime) -> Result<(), Fail> {
    let sheet = read_sheet(rt.alloc(), TWO_TASKS)?;
    let text = print_sheet(rt.alloc(), &sheet)?;
    assert!(rt; text.as_slice().starts_with(FIRST_PRINTED));
    let again = read_sheet(rt.alloc(), text.as_slice())?;
    assert_two_tasks(&rt, &again);
    Ok(())
}

fn assert_every_form(rt: &impl Abort, sheet: &Sheet) {
    assert_eq!(rt; sheet.len(), 3);
    assert_eq!(rt; sheet.task(0).jitter, 1_000_000_000);
    assert_eq!(rt; sheet.task(2).jitter, 0);
    assert_eq!(rt; sheet.policy(), PolicyKind::Elf);
    assert_eq!(rt; sheet.task(0).point, -1_000_000_000);
    assert_eq!(rt; sheet.task(1).point, 0);
    assert_eq!(rt; sheet.task(2).point, 1);
}

#[test]
fn prints_every_form(rt: HostRuntime) -> Result<(), Fail> {
    let sheet = read_sheet(rt.alloc(), EVERY_FORM)?;
    let text = print_sheet(rt.alloc(), &sheet)?;
    assert_eq!(rt; text.as_slice(), EVERY_FORM);
    assert_every_form(&rt, &sheet);
    Ok(())
}
