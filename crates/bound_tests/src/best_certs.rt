//! Worked sheets with their best certificates, and the refusals.
ghost use Rattle.std.specs.Prelude.{◌≤◌, ◌<◌, length};

use certificate::{Cert, read_cert};
use policy::Fp;
use policy_more::by_policy;
use preemption::PerTask;
use small_sheets::{
    EIGHT_TASKS, JITTER, JITTER_BLOCKING, JITTER_POINTS, POINTS_AS_DEADLINES,
    POINTS_WITHIN_A_PRIORITY, TWO_DEADLINES, sheet_of,
};
use solver::{AnalyseRefusal, Part, analyse, least_bound, least_end, least_window};
use std::alloc::Global;
use std::test::Fail;
use supply::Unit;
use task_sheet::Sheet;

const OF_EIGHT_TASKS: &str = "poet-cert 1
tasks 8
task 0 619 619 1
p 0 619
task 1 819 819 1
p 0 620
task 2 979 979 1
p 0 979
task 3 1699 1699 1
p 0 1600
task 4 3199 3199 1
p 0 3199
task 5 5899 5899 1
p 0 5899
task 6 13140 10440 1
p 0 9941
task 7 29820 29820 1
p 0 29820
end
";

/// A sheet, a horizon, and the text of its best certificate, or the cause why there is none.
type Row = (&'static str, u64, Result<&'static str, AnalyseRefusal>);

const BEST: [Row; 16] = [
    (
        "policy = 'fp'
task = [{ name = 'a', cost = 2, deadline = 5, priority = 1, period = 5 }]",
        100,
        Ok("poet-cert 1\ntasks 1\ntask 0 2 2 1\np 0 2\nend\n"),
    ),
    (
        "policy = 'fp'
task = [{ name = 'a', cost = 2, deadline = 5, priority = 1, curve = { horizon = 5, steps = [[1, 2]] } }]",
        100,
        Ok("poet-cert 1\ntasks 1\ntask 0 4 4 1\np 0 4\nend\n"),
    ),
    (
        "policy = 'fp'
task = [{ name = 'a', cost = 1, deadline = 1, priority = 1, period = 1 }]",
        100,
        Ok("poet-cert 1\ntasks 1\ntask 0 1 1 1\np 0 1\nend\n"),
    ),
    (
        "policy = 'fp'
task = [
    { name = 'high', cost = 1, deadline = 4, priority = 2, period = 4 },
    { name = 'low', cost = 2, deadline = 6, priority = 1, period = 6 },
]",
        100,
        Ok("poet-cert 1\ntasks 2\ntask 0 1 1 1\np 0 1\ntask 1 3 3 1\np 0 3\nend\n"),
    ),
    (
        "policy = 'fp'
task = [
    { name = 'high', cost = 1, deadline = 4, priority = 2, period = 4 },
    { name = 'low', cost = 2, deadline = 6, priority = 1, period = 6, preemption = 'never' },
]",
        100,
        Ok("poet-cert 1\ntasks 2\ntask 0 2 2 1\np 0 2\ntask 1 3 3 1\np 0 2\nend\n"),
    ),
    (
        TWO_DEADLINES,
        100,
        Ok("poet-cert 1\ntasks 2\ntask 0 4 2 2\np 0 2\np 2 4\ntask 1 4 4 2\np 0 4\np 2 4\nend\n"),
    ),
    (
        "policy = 'fifo'
task = [
    { name = 'a', cost = 2, deadline = 4, period = 4 },
    { name = 'b', cost = 2, deadline = 6, period = 6 },
]",
        100,
        Ok("poet-cert 1\ntasks 2\ntask 0 4 4 1\np 0 4\ntask 1 4 4 1\np 0 4\nend\n"),
    ),
    (
        "policy = 'fp'
supply = { horizon = 4, times = [3, 4] }
task = [{ name = 'a', cost = 2, deadline = 10, priority = 1, period = 10 }]",
        100,
        Ok("poet-cert 1\ntasks 1\ntask 0 4 4 1\np 0 4\nend\n"),
    ),
    (
        "policy = 'fp'
supply = { horizon = 4, times = [3, 4] }
task = [{ name = 'a', cost = 2, deadline = 10, priority = 1, period = 10, preemption = 'never' }]",
        100,
        Ok("poet-cert 1\ntasks 1\ntask 0 4 4 1\np 0 3\nend\n"),
    ),
    (EIGHT_TASKS, 1_000_000, Ok(OF_EIGHT_TASKS)),
    (
        JITTER,
        100,
        Ok("poet-cert 1\ntasks 1\ntask 0 2 5 1\np 0 2\nend\n"),
    ),
    (
        JITTER_POINTS,
        7,
        Ok("poet-cert 1\ntasks 1\ntask 0 4 7 2\np 0 2\np 1 4\nend\n"),
    ),
    (
        JITTER_BLOCKING,
        100,
        Ok("poet-cert 1\ntasks 2\ntask 0 6 8 1\np 0 6\ntask 1 4 4 1\np 0 2\nend\n"),
    ),
    (
        "policy = 'fp'
task = [{ name = 'a', cost = 1, deadline = 1, priority = 1, jitter = 999999999, period = 1000000000 }]",
        1_000_000_000,
        Ok("poet-cert 1\ntasks 1\ntask 0 1 1000000000 1\np 0 1\nend\n"),
    ),
    (
        POINTS_AS_DEADLINES,
        100,
        Ok("poet-cert 1\ntasks 2\ntask 0 4 2 2\np 0 2\np 2 4\ntask 1 4 4 2\np 0 4\np 2 4\nend\n"),
    ),
    (
        POINTS_WITHIN_A_PRIORITY,
        100,
        Ok(
            "poet-cert 1\ntasks 3\ntask 0 1 1 1\np 0 1\ntask 1 6 4 2\np 0 3\np 2 6\ntask 2 6 6 1\np 0 6\nend\n",
        ),
    ),
];

const REFUSED: [Row; 5] = [
    (
        "policy = 'fp'
task = [
    { name = 'high', cost = 3, deadline = 4, priority = 2, period = 4 },
    { name = 'low', cost = 2, deadline = 4, priority = 1, period = 4 },
]",
        1000,
        Err(AnalyseRefusal::NoBound {
            task: 1,
            part: Part::Window,
        }),
    ),
    (
        JITTER_POINTS,
        3,
        Err(AnalyseRefusal::NoBound {
            task: 0,
            part: Part::Window,
        }),
    ),
    (
        JITTER_POINTS,
        6,
        Err(AnalyseRefusal::NoBound {
            task: 0,
            part: Part::Bound,
        }),
    ),
    (
        "policy = 'fp'
task = [{ name = 'a', cost = 1, deadline = 1, priority = 1, jitter = 1000000000, period = 1000000000 }]",
        1_000_000_000,
        Err(AnalyseRefusal::NoBound {
            task: 0,
            part: Part::Bound,
        }),
    ),
    (
        "policy = 'fifo'
task = [
    { name = 'a', cost = 2000000, deadline = 1000000000, period = 1000000000 },
    { name = 'b', cost = 1, deadline = 2, period = 2 },
]",
        10_000_000,
        Err(AnalyseRefusal::Points { task: 0 }),
    ),
];

/// The best certificate by the sheet's policy up to the horizon, or to 10^9.
fn analysed(alloc: Global, sheet: &Sheet, horizon: u64) -> Result<Cert, AnalyseRefusal> {
    let horizon = horizon.min(1_000_000_000);
    by_policy!(sheet.policy() => analyse::<_, PerTask, Sheet>(alloc, sheet, sheet, horizon))
}

#[test]
fn best_certificates_and_causes(rt: HostRuntime) -> Result<(), Fail> {
    let alloc = rt.alloc();
    for rows in [BEST.as_slice(), REFUSED.as_slice()] {
        for (sheet, horizon, wanted) in rows {
            let found = analysed(alloc, &sheet_of(alloc, sheet)?, *horizon);
            let wanted = match wanted {
                Ok(text) => Ok(read_cert(alloc, text.as_bytes())?),
                Err(cause) => Err(*cause),
            };
            assert_eq!(rt; found, wanted, "{sheet}");
        }
    }
    Ok(())
}

/// The least window, end and bound of the first task up to a limit.
fn least(sheet: &Sheet, limit: u64) -> [Option<u64>; 3]
    requires task { 0 < length sheet.now.tasks }
    requires limit { limit ≤ 1000000000 }
{
    [
        least_window::<Fp, PerTask, Unit>(sheet, &Unit, 0, limit),
        least_end::<Fp, PerTask, Unit>(sheet, &Unit, 0, 0, limit),
        least_bound::<Fp, PerTask, Unit>(sheet, &Unit, 0, 0, 1_000_000_000, limit),
    ]
}

#[test]
fn searches_at_limits(rt: HostRuntime) -> Result<(), Fail> {
    let sheet = sheet_of(
        rt.alloc(),
        "policy = 'fp'
task = [{ name = 'a', cost = 1000000000, deadline = 1000000000, priority = 1, period = 1000000000 }]",
    )?;
    assert_eq!(rt; sheet.len(), 1);
    let longest = 1_000_000_000;
    assert_eq!(rt;
        least(&sheet, longest),
        [Some(longest), Some(longest), Some(longest)]
    );
    assert_eq!(rt; least(&sheet, longest - 1), [None, None, None]);
    Ok(())
}
