//! What the policies mean, on two tasks of priorities 2 and 1 and deadlines 4 and 6, and with points.
use lists::Items;
use policy::{Cap, Edf, Fifo, Fp, Key, Policy};
use policy_more::{Elf, Gel, by_policy};
use small_tasks::{Draft, PLAIN, make_tasks};
use std::alloc::Global;
use std::process::Abort;
use std::test::Fail;
use task_sheet::{Job, PolicyKind, Sheet, SupplySpec};

/// Two tasks, an offset, the class, the cap, and whether the other may block or delay.
type Row = (u32, u32, u64, (bool, Cap, bool, bool));

const FP: [Row; 2] = [
    (0, 1, 0, (false, Cap::Nothing, true, true)),
    (1, 0, 0, (true, Cap::All, false, false)),
];

const EDF: [Row; 4] = [
    (0, 1, 0, (true, Cap::At(-1), true, false)),
    (0, 1, 1, (true, Cap::At(0), true, false)),
    (0, 1, 2, (true, Cap::At(1), false, false)),
    (1, 0, 0, (true, Cap::At(3), false, false)),
];

const FIFO: [Row; 2] = [
    (0, 1, 2, (true, Cap::At(3), false, false)),
    (1, 0, 0, (true, Cap::At(1), false, false)),
];

/// As `EDF`, where the first task has the point -4 and a jitter of 3 ticks, and the second the point 6.
const GEL: [Row; 4] = [
    (0, 1, 0, (true, Cap::At(-9), true, true)),
    (0, 1, 12, (true, Cap::At(3), true, true)),
    (0, 1, 13, (true, Cap::At(4), false, true)),
    (1, 0, 0, (true, Cap::At(14), false, false)),
];

/// Two tasks of priority 1 with the points 4 and 6, and one of priority 2.
const ELF: [Row; 6] = [
    (0, 1, 0, (true, Cap::At(-1), true, false)),
    (0, 1, 2, (true, Cap::At(1), false, false)),
    (1, 0, 0, (true, Cap::At(3), false, false)),
    (0, 2, 0, (true, Cap::All, false, false)),
    (2, 0, 0, (false, Cap::Nothing, true, true)),
    (2, 1, 9, (false, Cap::Nothing, true, true)),
];

/// Two keys, and whether the first is at most the second.
const KEYS: [(Key, Key, bool); 4] = [
    (Key { high: 1, low: 9 }, Key { high: 2, low: 0 }, true),
    (Key { high: 1, low: 0 }, Key { high: 1, low: 0 }, true),
    (Key { high: 1, low: 1 }, Key { high: 1, low: 0 }, false),
    (Key { high: 2, low: 0 }, Key { high: 1, low: 9 }, false),
];

const FIRST: Draft<'static> = Draft {
    deadline: 4,
    priority: 2,
    ..PLAIN
};

const SECOND: Draft<'static> = Draft {
    name: "b",
    deadline: 6,
    ..PLAIN
};

fn make_sheet(alloc: Global, drafts: &[Draft<'_>]) -> Result<Sheet, Fail> {
    let tasks = make_tasks(alloc, drafts)?;
    Ok(Sheet::check(PolicyKind::Fp, SupplySpec::Unit, tasks)?)
}

/// Asserts how urgent jobs of the tasks are that arrive at 5.
fn keys_are<P: Policy>(rt: &impl Abort, alloc: Global, sheet: &Sheet, keys: &[Key]) {
    for task in 0..sheet.len() {
        let segs = Items::new(Vec::new(alloc));
        let job = Job {
            task,
            arrival: 5,
            release: 5,
            cost: 1,
            segs,
        };
        assert!(rt; (task as usize) < keys.len());
        assert_eq!(rt; P::key(sheet, &job), keys[task as usize]);
    }
}

fn rows_are<P: Policy>(rt: &impl Abort, sheet: &Sheet, rows: &[Row]) {
    for (i, o, a, want) in rows {
        let (i, o, a) = (*i, *o, *a);
        assert!(rt; i < sheet.len() && o < sheet.len() && i != o && a <= 1_000_000_000);
        let found = (
            P::class(sheet, i, o),
            P::cap(sheet, i, o, a),
            P::may_block(sheet, i, o, a),
            P::may_delay(sheet, i, o),
        );
        assert_eq!(rt; found, *want, "task {i} and task {o} at {a}");
    }
}

/// A key whose second number is 0.
fn only(high: i64) -> Key {
    Key { high, low: 0 }
}

#[test]
fn the_table(rt: HostRuntime) -> Result<(), Fail> {
    let alloc = rt.alloc();
    let sheet = make_sheet(alloc, &[FIRST, SECOND])?;
    let names = [Fp::NAME, Edf::NAME, Fifo::NAME, Gel::NAME, Elf::NAME];
    assert_eq!(rt; names, ["fp", "edf", "fifo", "gel", "elf"]);
    keys_are::<Fp>(&rt, alloc, &sheet, &[only(999_999_998), only(999_999_999)]);
    keys_are::<Edf>(&rt, alloc, &sheet, &[only(9), only(11)]);
    keys_are::<Fifo>(&rt, alloc, &sheet, &[only(5), only(5)]);
    rows_are::<Fp>(&rt, &sheet, &FP);
    rows_are::<Edf>(&rt, &sheet, &EDF);
    rows_are::<Fifo>(&rt, &sheet, &FIFO);
    Ok(())
}

/// Where all points are 0, arrivals decide under `gel`, and priorities under `elf`.
#[test]
fn no_points(rt: HostRuntime) -> Result<(), Fail> {
    let alloc = rt.alloc();
    let sheet = make_sheet(alloc, &[FIRST, SECOND])?;
    keys_are::<Gel>(&rt, alloc, &sheet, &[only(5), only(5)]);
    rows_are::<Gel>(&rt, &sheet, &FIFO);
    rows_are::<Elf>(&rt, &sheet, &FP);
    Ok(())
}

/// Where the points are the deadlines, `gel` is `edf`.
#[test]
fn points_as_deadlines(rt: HostRuntime) -> Result<(), Fail> {
    let alloc = rt.alloc();
    let sheet = make_sheet(
        alloc,
        &[Draft { point: 4, ..FIRST }, Draft { point: 6, ..SECOND }],
    )?;
    keys_are::<Gel>(&rt, alloc, &sheet, &[only(9), only(11)]);
    rows_are::<Gel>(&rt, &sheet, &EDF);
    Ok(())
}

#[test]
fn points_with_jitter(rt: HostRuntime) -> Result<(), Fail> {
    let alloc = rt.alloc();
    let first = Draft {
        point: -4,
        jitter: 3,
        ..FIRST
    };
    let sheet = make_sheet(alloc, &[first, Draft { point: 6, ..SECOND }])?;
    keys_are::<Gel>(&rt, alloc, &sheet, &[only(1), only(11)]);
    rows_are::<Gel>(&rt, &sheet, &GEL);
    Ok(())
}

#[test]
fn points_within_a_priority(rt: HostRuntime) -> Result<(), Fail> {
    let alloc = rt.alloc();
    let early = Draft { point: 4, ..PLAIN };
    let late = Draft { point: 6, ..SECOND };
    let urgent = Draft { name: "c", ..FIRST };
    let sheet = make_sheet(alloc, &[early, late, urgent])?;
    let keys = [
        Key {
            high: 999_999_999,
            low: 9,
        },
        Key {
            high: 999_999_999,
            low: 11,
        },
        Key {
            high: 999_999_998,
            low: 5,
        },
    ];
    keys_are::<Elf>(&rt, alloc, &sheet, &keys);
    rows_are::<Elf>(&rt, &sheet, &ELF);
    Ok(())
}

fn word_of<P: Policy>() -> &'static str {
    P::word()
}

/// The policy of each kind is the one that its word names.
#[test]
fn the_choice(rt: HostRuntime) {
    for kind in [
        PolicyKind::Fp,
        PolicyKind::Edf,
        PolicyKind::Fifo,
        PolicyKind::Gel,
        PolicyKind::Elf,
    ] {
        assert_eq!(rt; by_policy!(kind => word_of::<_>()), kind.word());
    }
}

#[test]
fn keys_in_order(rt: HostRuntime) {
    for (left, right, want) in KEYS {
        assert_eq!(rt; left.is_at_most(right), want);
    }
}
