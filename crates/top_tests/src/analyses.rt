//! Rows of `analyse`.
use std::test::Fail;
use top_cases::files::*;
use top_cases::{Case, first_unsaid};

const BEST_CERTIFICATES: [Case; 12] = [
    Case {
        words: "analyse s 100",
        sheet: ONE_TASK,
        other: "",
        status: 0,
        out: ONE_TASK_CERT,
        err: "",
    },
    Case {
        words: "analyse s 100",
        sheet: BURST,
        other: "",
        status: 0,
        out: "poet-cert 1\ntasks 1\ntask 0 4 4 1\np 0 4\nend\n",
        err: "",
    },
    Case {
        words: "analyse s 1",
        sheet: FULL_LOAD,
        other: "",
        status: 0,
        out: "poet-cert 1\ntasks 1\ntask 0 1 1 1\np 0 1\nend\n",
        err: "",
    },
    Case {
        words: "analyse s 100",
        sheet: TWO_TASKS,
        other: "",
        status: 0,
        out: TWO_TASKS_CERT,
        err: "",
    },
    Case {
        words: "analyse s 100",
        sheet: TWO_DEADLINES,
        other: "",
        status: 0,
        out: TWO_DEADLINES_CERT,
        err: "",
    },
    Case {
        words: "analyse s 100",
        sheet: NEVER_PREEMPTED,
        other: "",
        status: 0,
        out: "poet-cert 1\ntasks 2\ntask 0 2 2 1\np 0 2\ntask 1 3 3 1\np 0 2\nend\n",
        err: "",
    },
    Case {
        words: "analyse s 100",
        sheet: IN_ARRIVAL_ORDER,
        other: "",
        status: 0,
        out: "poet-cert 1\ntasks 2\ntask 0 4 4 1\np 0 4\ntask 1 4 4 1\np 0 4\nend\n",
        err: "",
    },
    Case {
        words: "analyse s 100",
        sheet: PROMISED,
        other: "",
        status: 0,
        out: "poet-cert 1\ntasks 1\ntask 0 4 4 1\np 0 4\nend\n",
        err: "",
    },
    Case {
        words: "analyse s 100",
        sheet: PROMISED_NEVER,
        other: "",
        status: 0,
        out: "poet-cert 1\ntasks 1\ntask 0 4 4 1\np 0 3\nend\n",
        err: "",
    },
    Case {
        words: "analyse s 1000",
        sheet: HIGH_ALONE,
        other: "",
        status: 0,
        out: "poet-cert 1\ntasks 1\ntask 0 3 3 1\np 0 3\nend\n",
        err: "",
    },
    Case {
        words: "analyse s 1000000",
        sheet: EIGHT_TASKS,
        other: "",
        status: 0,
        out: EIGHT_TASKS_CERT,
        err: "",
    },
    Case {
        words: "analyse s 1000000000",
        sheet: LONGEST,
        other: "",
        status: 0,
        out: "poet-cert 1\ntasks 1\ntask 0 1000000000 1000000000 1\np 0 1000000000\nend\n",
        err: "",
    },
];

#[test]
fn best_certificates(rt: HostRuntime) -> Result<(), Fail> {
    assert_eq!(rt; first_unsaid(rt.alloc(), &BEST_CERTIFICATES)?, None);
    Ok(())
}

const NO_CERTIFICATES: [Case; 4] = [
    Case {
        words: "analyse s 1000",
        sheet: OVERLOAD,
        other: "",
        status: 1,
        out: "no bound task low window\n",
        err: "",
    },
    Case {
        words: "analyse s 999999999",
        sheet: LONGEST,
        other: "",
        status: 1,
        out: "no bound task a window\n",
        err: "",
    },
    Case {
        words: "analyse s 10000000",
        sheet: MANY_POINTS,
        other: "",
        status: 7,
        out: "",
        err: "limit: points exceed 1000000 at task u\n",
    },
    Case {
        words: "analyse s 100",
        sheet: "",
        other: "",
        status: 5,
        out: "",
        err: "sheet: missing policy in top\n",
    },
];

#[test]
fn no_certificates(rt: HostRuntime) -> Result<(), Fail> {
    assert_eq!(rt; first_unsaid(rt.alloc(), &NO_CERTIFICATES)?, None);
    Ok(())
}
