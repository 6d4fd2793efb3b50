//! Rows of sheets with a time table, and of `promise`.
use std::test::Fail;
use top_cases::files::{ONE_TASK, PROMISED};
use top_cases::{Case, first_unsaid};

/// Two ticks of each four.
const HALF: &str =
    "policy = \"fp\"\n\n[supply]\ncycle = 4\nslots = [[2, 2]]\n\n[[task]]\nname = \"a\"\ncost = 2\ndeadline = 10\npriority = 1\nperiod = 10\n";

/// Two slots of six ticks.
const TWO_SLOTS: &str =
    "policy = \"fp\"\n\n[supply]\ncycle = 6\nslots = [[0, 1], [3, 2]]\n\n[[task]]\nname = \"a\"\ncost = 2\ndeadline = 10\npriority = 1\nperiod = 10\n";

const CERT: &str = "poet-cert 1\ntasks 1\ntask 0 4 4 1\np 0 4\nend\n";

const PROMISES: [Case; 8] = [
    Case {
        words: "promise s",
        sheet: HALF,
        other: "",
        status: 0,
        out: "horizon 4 times 3 4\n",
        err: "",
    },
    Case {
        words: "promise s",
        sheet: PROMISED,
        other: "",
        status: 0,
        out: "horizon 4 times 3 4\n",
        err: "",
    },
    Case {
        words: "promise s",
        sheet: TWO_SLOTS,
        other: "",
        status: 0,
        out: "horizon 6 times 3 5 6\n",
        err: "",
    },
    Case {
        words: "promise s",
        sheet: ONE_TASK,
        other: "",
        status: 0,
        out: "unit\n",
        err: "",
    },
    Case {
        words: "promise x",
        sheet: ONE_TASK,
        other: "",
        status: 3,
        out: "",
        err: "read failed: sheet\n",
    },
    Case {
        words: "analyse s 100",
        sheet: HALF,
        other: "",
        status: 0,
        out: CERT,
        err: "",
    },
    Case {
        words: "check s c deadlines",
        sheet: HALF,
        other: CERT,
        status: 0,
        out: "accepted\ntask a bound 4 deadline 10 met\n",
        err: "",
    },
    Case {
        words: "simulate s dense 8",
        sheet: HALF,
        other: "",
        status: 0,
        out: "poet-run 2\njobs 1 ticks 8\nj 0 0 0 2\noff 2\nrun 0 2\noff 2\nidle 2\nend\n",
        err: "",
    },
];

const REFUSED: [Case; 5] = [
    Case {
        words: "promise s",
        sheet: "policy = \"fp\"\nsupply = { cycle = 6, slots = [[3, 2], [0, 1]] }\n",
        other: "",
        status: 5,
        out: "",
        err: "sheet: slots out of order in supply\n",
    },
    Case {
        words: "promise s",
        sheet: "policy = \"fp\"\nsupply = { cycle = 6, slots = [[0, 1], [3, 2]], horizon = 6 }\n",
        other: "",
        status: 5,
        out: "",
        err: "sheet: both promise and table in supply\n",
    },
    Case {
        words: "promise s",
        sheet: "policy = \"fp\"\nsupply = { slots = [[0, 1]], times = [1] }\n",
        other: "",
        status: 5,
        out: "",
        err: "sheet: both promise and table in supply\n",
    },
    Case {
        words: "promise s",
        sheet: "policy = \"fp\"\nsupply = { cycle = 100001, slots = [[0, 1]] }\n",
        other: "",
        status: 5,
        out: "",
        err: "sheet: cycle out of range in supply\n",
    },
    Case {
        words: "promise s",
        sheet: "policy = \"fp\"\nsupply = { slots = [[0, 1]] }\n",
        other: "",
        status: 5,
        out: "",
        err: "sheet: missing cycle in supply\n",
    },
];

#[test]
fn promises(rt: HostRuntime) -> Result<(), Fail> {
    assert_eq!(rt; first_unsaid(rt.alloc(), &PROMISES)?, None);
    Ok(())
}

#[test]
fn refused_tables(rt: HostRuntime) -> Result<(), Fail> {
    assert_eq!(rt; first_unsaid(rt.alloc(), &REFUSED)?, None);
    Ok(())
}
