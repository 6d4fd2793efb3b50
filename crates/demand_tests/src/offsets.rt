//! Worked offsets of two tasks under their deadlines, and of tasks with jitters.
ghost use Rattle.std.specs.Prelude.{◌≡◌, length};

use crate::assert_same;
use policy::{Edf, Fifo, Fp};
use search_space::{compared, is_point, is_same, next_point};
use small_sheets::{JITTER, JITTER_BLOCKING, JITTER_POINTS, TWO_DEADLINES, sheet_of};
use std::test::Fail;
use task_sheet::Sheet;

/// A job of `b` that arrives with the window counts from offset 2 of `a` on.
fn compared_numbers(sheet: &Sheet) -> [u128; 4]
    requires { length sheet.now.tasks ≡ 2 }
{
    [
        compared::<Edf>(sheet, 0, 1, 1),
        compared::<Edf>(sheet, 0, 2, 1),
        compared::<Edf>(sheet, 0, 3, 0),
        compared::<Edf>(sheet, 0, 4, 0),
    ]
}

/// Whether offsets of `a` are the same, and whether they are points.
fn same_and_points(sheet: &Sheet) -> [bool; 5]
    requires { length sheet.now.tasks ≡ 2 }
{
    [
        is_same::<Edf>(sheet, 0, 0, 1),
        is_same::<Edf>(sheet, 0, 0, 2),
        is_point::<Edf>(sheet, 0, 0),
        is_point::<Edf>(sheet, 0, 1),
        is_point::<Edf>(sheet, 0, 2),
    ]
}

/// Under fixed priorities, as in the last, only the task's own jobs count.
fn next_points(sheet: &Sheet) -> [Option<u64>; 4]
    requires { length sheet.now.tasks ≡ 2 }
{
    [
        next_point::<Edf>(sheet, 0, 0, 4),
        next_point::<Edf>(sheet, 0, 0, 2),
        next_point::<Edf>(sheet, 1, 0, 4),
        next_point::<Fp>(sheet, 1, 0, 100),
    ]
}

#[test]
fn two_deadlines(rt: HostRuntime) -> Result<(), Fail> {
    let sheet = sheet_of(rt.alloc(), TWO_DEADLINES)?;
    assert_eq!(rt; sheet.len(), 2);
    assert_same(&rt, &compared_numbers(&sheet), &[0, 1, 1, 2]);
    assert_same(
        &rt,
        &same_and_points(&sheet),
        &[true, false, true, false, true],
    );
    let wanted = [Some(2), None, Some(2), Some(6)];
    assert_same(&rt, &next_points(&sheet), &wanted);
    Ok(())
}

#[test]
fn jitters(rt: HostRuntime) -> Result<(), Fail> {
    for (text, wanted) in [(JITTER, Some(2)), (JITTER_POINTS, Some(1))] {
        let sheet = sheet_of(rt.alloc(), text)?;
        assert_eq!(rt; sheet.len(), 1);
        assert_eq!(rt; next_point::<Fp>(&sheet, 0, 0, 4), wanted, "{text}");
    }
    let sheet = sheet_of(rt.alloc(), JITTER_BLOCKING)?;
    assert_eq!(rt; sheet.len(), 2);
    let next = [
        // A second job of `u` counts 2 ticks before the period is over, for `u` and for `v`.
        next_point::<Fifo>(&sheet, 0, 0, 100),
        next_point::<Fifo>(&sheet, 1, 0, 100),
    ];
    assert_same(&rt, &next, &[Some(8), Some(8)]);
    Ok(())
}
