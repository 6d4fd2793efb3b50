//! Each refusal of a sheet at its first place, beside sheets that pass.
use lists::Items;
use small_tasks::{Draft, PLAIN, Pieces, make_tasks};
use std::alloc::Global;
use std::test::Fail;
use task_sheet::{Field, Place, PolicyKind, Sheet, SheetRefusal, SupplySpec};

const NAME: Option<SheetRefusal> = Some(SheetRefusal::Range {
    place: Place::Task(0),
    field: Field::Name,
});

const COST: Option<SheetRefusal> = Some(SheetRefusal::Range {
    place: Place::Task(0),
    field: Field::Cost,
});

const DEADLINE: Option<SheetRefusal> = Some(SheetRefusal::Range {
    place: Place::Task(0),
    field: Field::Deadline,
});

const PRIORITY: Option<SheetRefusal> = Some(SheetRefusal::Range {
    place: Place::Task(0),
    field: Field::Priority,
});

const PREEMPTION: Option<SheetRefusal> = Some(SheetRefusal::Range {
    place: Place::Task(0),
    field: Field::Preemption,
});

const SUM: Option<SheetRefusal> = Some(SheetRefusal::Sum { task: 0 });

/// A name, the cost, the deadline, the priority, the segments, and what is refused.
type Row = (
    &'static str,
    u64,
    u64,
    u64,
    Pieces<'static>,
    Option<SheetRefusal>,
);

const TASKS: [Row; 15] = [
    ("a", 5, 5, 1, Pieces::Full, None),
    ("", 5, 5, 1, Pieces::Full, NAME),
    ("a b", 5, 5, 1, Pieces::Full, NAME),
    (
        "abcdefghijklmnopqrstuvwxyz0123456",
        5,
        5,
        1,
        Pieces::Full,
        NAME,
    ),
    ("a", 0, 5, 1, Pieces::Full, COST),
    ("a", 1_000_000_000, 5, 1, Pieces::Full, None),
    ("a", 1_000_000_001, 5, 1, Pieces::Full, COST),
    ("a", 5, 0, 1, Pieces::Full, DEADLINE),
    ("a", 5, 5, 1_000_000_000, Pieces::Full, None),
    ("a", 5, 5, 1_000_000_001, Pieces::Full, PRIORITY),
    ("a", 5, 5, 1, Pieces::Fixed(&[2, 3]), None),
    ("a", 5, 5, 1, Pieces::Fixed(&[0, 5]), PREEMPTION),
    ("a", 5, 5, 1, Pieces::Fixed(&[2, 2]), SUM),
    ("a", 5, 5, 1, Pieces::Floating(5), None),
    ("a", 5, 5, 1, Pieces::Floating(6), SUM),
];

const HORIZON: Option<SheetRefusal> = Some(SheetRefusal::Range {
    place: Place::Supply,
    field: Field::Horizon,
});

const TIMES: Option<SheetRefusal> = Some(SheetRefusal::Range {
    place: Place::Supply,
    field: Field::Times,
});

const ORDER: Option<SheetRefusal> = Some(SheetRefusal::Order {
    place: Place::Supply,
    field: Field::Times,
});

/// A horizon, the times, and what is refused.
const SUPPLIES: [(u64, &[u64], Option<SheetRefusal>); 7] = [
    (4, &[3, 4], None),
    (0, &[3, 4], HORIZON),
    (1_000_000_001, &[3, 4], HORIZON),
    (4, &[], TIMES),
    (4, &[0, 4], TIMES),
    (4, &[3, 3], ORDER),
    (4, &[3, 5], ORDER),
];

fn refusal_of(
    alloc: Global,
    supply: SupplySpec,
    drafts: &[Draft<'_>],
) -> Result<Option<SheetRefusal>, Fail> {
    let tasks = make_tasks(alloc, drafts)?;
    Ok(Sheet::check(PolicyKind::Fp, supply, tasks).err())
}

#[test]
fn each_task_rule(rt: HostRuntime) -> Result<(), Fail> {
    for (name, cost, deadline, priority, pieces, want) in TASKS {
        let draft = Draft {
            name,
            cost,
            deadline,
            priority,
            pieces,
            ..PLAIN
        };
        let found = refusal_of(rt.alloc(), SupplySpec::Unit, &[draft])?;
        assert_eq!(rt; found, want);
    }
    Ok(())
}

/// A jitter may be up to 10^9, and a priority point so far from 0.
#[test]
fn jitters_and_points(rt: HostRuntime) -> Result<(), Fail> {
    for (jitter, point, wrong) in [
        (1_000_000_000, 0, None),
        (1_000_000_001, 0, Some(Field::Jitter)),
        (0, 1_000_000_000, None),
        (0, -1_000_000_000, None),
        (0, 1_000_000_001, Some(Field::Point)),
        (0, -1_000_000_001, Some(Field::Point)),
        (1_000_000_001, 1_000_000_001, Some(Field::Jitter)),
    ] {
        let draft = Draft {
            jitter,
            point,
            ..PLAIN
        };
        let found = refusal_of(rt.alloc(), SupplySpec::Unit, &[draft])?;
        let place = Place::Task(0);
        let wanted = wrong.map(|field| SheetRefusal::Range { place, field });
        assert_eq!(rt; found, wanted, "{jitter} and {point}");
    }
    Ok(())
}

#[test]
fn each_supply_rule(rt: HostRuntime) -> Result<(), Fail> {
    for (horizon, times, want) in SUPPLIES {
        let times = Items::new(times.to_vec(rt.alloc())?);
        let supply = SupplySpec::Promised { horizon, times };
        let found = refusal_of(rt.alloc(), supply, &[PLAIN])?;
        assert_eq!(rt; found, want);
    }
    Ok(())
}

#[test]
fn no_task_and_twins(rt: HostRuntime) -> Result<(), Fail> {
    let none = refusal_of(rt.alloc(), SupplySpec::Unit, &[])?;
    let place = Place::Top;
    let field = Field::Task;
    assert_eq!(rt; none, Some(SheetRefusal::Range { place, field }));
    let other = Draft { name: "b", ..PLAIN };
    let twice = refusal_of(rt.alloc(), SupplySpec::Unit, &[PLAIN, other, PLAIN])?;
    assert_eq!(rt; twice, Some(SheetRefusal::Twice { task: 2 }));
    Ok(())
}
