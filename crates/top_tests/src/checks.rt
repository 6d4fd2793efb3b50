//! Rows of `check`.
use std::test::Fail;
use top_cases::files::*;
use top_cases::{Case, first_unsaid};

const WORKED_EXAMPLES: [Case; 14] = [
    Case {
        words: "check s c",
        sheet: ONE_TASK,
        other: ONE_TASK_CERT,
        status: 0,
        out: "accepted\ntask a bound 2 deadline 5 met\n",
        err: "",
    },
    Case {
        words: "check s c",
        sheet: ONE_TASK,
        other: "poet-cert 1\ntasks 1\ntask 0 2 1 1\np 0 2\nend\n",
        status: 1,
        out: "refused K6 task a point 0\n",
        err: "",
    },
    Case {
        words: "check s c",
        sheet: BURST,
        other: "poet-cert 1\ntasks 1\ntask 0 4 4 1\np 0 4\nend\n",
        status: 0,
        out: "accepted\ntask a bound 4 deadline 5 met\n",
        err: "",
    },
    Case {
        words: "check s c",
        sheet: FULL_LOAD,
        other: "poet-cert 1\ntasks 1\ntask 0 1 1 1\np 0 1\nend\n",
        status: 0,
        out: "accepted\ntask a bound 1 deadline 1 met\n",
        err: "",
    },
    Case {
        words: "check s c",
        sheet: TWO_TASKS,
        other: TWO_TASKS_CERT,
        status: 0,
        out: "accepted\ntask a bound 1 deadline 4 met\ntask b bound 3 deadline 6 met\n",
        err: "",
    },
    Case {
        words: "check s c",
        sheet: TWO_DEADLINES,
        other: TWO_DEADLINES_CERT,
        status: 0,
        out: "accepted\ntask a bound 2 deadline 4 met\ntask b bound 4 deadline 6 met\n",
        err: "",
    },
    Case {
        words: "check s c",
        sheet: TWO_DEADLINES,
        other: "poet-cert 1\ntasks 2\ntask 0 4 2 1\np 0 2\ntask 1 4 4 2\np 0 4\np 2 4\nend\n",
        status: 1,
        out: "refused K5 task a point 0\n",
        err: "",
    },
    Case {
        words: "check s c",
        sheet: TWO_DEADLINES,
        other: "poet-cert 1\ntasks 2\ntask 0 4 2 2\np 0 2\np 2 3\ntask 1 4 4 2\np 0 4\np 2 4\nend\n",
        status: 1,
        out: "refused K7 task a point 2\n",
        err: "",
    },
    Case {
        words: "check s c",
        sheet: NEVER_PREEMPTED,
        other: "poet-cert 1\ntasks 2\ntask 0 2 2 1\np 0 2\ntask 1 3 3 1\np 0 2\nend\n",
        status: 0,
        out: "accepted\ntask a bound 2 deadline 4 met\ntask b bound 3 deadline 6 met\n",
        err: "",
    },
    Case {
        words: "check s c",
        sheet: NEVER_PREEMPTED,
        other: "poet-cert 1\ntasks 2\ntask 0 1 1 1\np 0 1\ntask 1 3 3 1\np 0 2\nend\n",
        status: 1,
        out: "refused K3 task a\n",
        err: "",
    },
    Case {
        words: "check s c",
        sheet: IN_ARRIVAL_ORDER,
        other: "poet-cert 1\ntasks 2\ntask 0 4 4 1\np 0 4\ntask 1 4 4 1\np 0 4\nend\n",
        status: 0,
        out: "accepted\ntask a bound 4 deadline 4 met\ntask b bound 4 deadline 6 met\n",
        err: "",
    },
    Case {
        words: "check s c",
        sheet: PROMISED,
        other: "poet-cert 1\ntasks 1\ntask 0 4 4 1\np 0 4\nend\n",
        status: 0,
        out: "accepted\ntask a bound 4 deadline 10 met\n",
        err: "",
    },
    Case {
        words: "check s c",
        sheet: PROMISED_NEVER,
        other: "poet-cert 1\ntasks 1\ntask 0 4 4 1\np 0 3\nend\n",
        status: 0,
        out: "accepted\ntask a bound 4 deadline 10 met\n",
        err: "",
    },
    Case {
        words: "check s c",
        sheet: PROMISED_NEVER,
        other: "poet-cert 1\ntasks 1\ntask 0 4 3 1\np 0 3\nend\n",
        status: 1,
        out: "refused K8 task a point 0\n",
        err: "",
    },
];

#[test]
fn worked_examples(rt: HostRuntime) -> Result<(), Fail> {
    assert_eq!(rt; first_unsaid(rt.alloc(), &WORKED_EXAMPLES)?, None);
    Ok(())
}

const FIRST_FAILED_CONDITIONS: [Case; 11] = [
    Case {
        words: "check s c",
        sheet: ONE_TASK,
        other: "poet-cert 1\ntasks 1\ntask 0 7 2 2\np 0 2\np 5 7\nend\n",
        status: 0,
        out: "accepted\ntask a bound 2 deadline 5 met\n",
        err: "",
    },
    Case {
        words: "check s c",
        sheet: ONE_TASK,
        other: "poet-cert 1\ntasks 1\ntask 0 7 2 1\np 0 2\nend\n",
        status: 1,
        out: "refused K5 task a point 0\n",
        err: "",
    },
    Case {
        words: "check s c",
        sheet: SHORT_DEADLINE,
        other: ONE_TASK_CERT,
        status: 0,
        out: "accepted\ntask a bound 2 deadline 1 missed\n",
        err: "",
    },
    Case {
        words: "check s c deadlines",
        sheet: SHORT_DEADLINE,
        other: ONE_TASK_CERT,
        status: 1,
        out: "refused K9 task a\n",
        err: "",
    },
    Case {
        words: "check s c deadlines",
        sheet: ONE_TASK,
        other: ONE_TASK_CERT,
        status: 0,
        out: "accepted\ntask a bound 2 deadline 5 met\n",
        err: "",
    },
    Case {
        words: "check s c",
        sheet: ONE_TASK,
        other: TWO_TASKS_CERT,
        status: 1,
        out: "refused K1\n",
        err: "",
    },
    Case {
        words: "check s c",
        sheet: ONE_TASK,
        other: "poet-cert 1\ntasks 1\ntask 0 1 2 1\np 0 2\nend\n",
        status: 1,
        out: "refused K3 task a\n",
        err: "",
    },
    Case {
        words: "check s c",
        sheet: ONE_TASK,
        other: "poet-cert 1\ntasks 1\ntask 0 2 2 1\np 1 2\nend\n",
        status: 1,
        out: "refused K4 task a point 1\n",
        err: "",
    },
    Case {
        words: "check s c",
        sheet: ONE_TASK,
        other: "poet-cert 1\ntasks 1\ntask 0 2 2 1\np 0 1\nend\n",
        status: 1,
        out: "refused K7 task a point 0\n",
        err: "",
    },
    Case {
        words: "check s c",
        sheet: EIGHT_TASKS,
        other: EIGHT_TASKS_CERT,
        status: 0,
        out: EIGHT_TASKS_ACCEPTED,
        err: "",
    },
    Case {
        words: "check s c deadlines",
        sheet: EIGHT_TASKS,
        other: EIGHT_TASKS_CERT,
        status: 0,
        out: EIGHT_TASKS_ACCEPTED,
        err: "",
    },
];

#[test]
fn first_failed_conditions(rt: HostRuntime) -> Result<(), Fail> {
    assert_eq!(rt; first_unsaid(rt.alloc(), &FIRST_FAILED_CONDITIONS)?, None);
    Ok(())
}

const MALFORMED_CERTIFICATES: [Case; 8] = [
    Case {
        words: "check s c",
        sheet: ONE_TASK,
        other: "poet-cert 1\ntasks 1\ntask 0 2 2 1\np 0 2\n",
        status: 6,
        out: "",
        err: "certificate: line 5 is not of the format\n",
    },
    Case {
        words: "check s c",
        sheet: ONE_TASK,
        other: "poet-cert 1\ntasks 1\ntask 0 2 2 1\np 0 2\nend",
        status: 6,
        out: "",
        err: "certificate: line 5 is not of the format\n",
    },
    Case {
        words: "check s c",
        sheet: ONE_TASK,
        other: "poet-cert 1\ntasks 1\ntask 0 2 2 1\np 0 02\nend\n",
        status: 6,
        out: "",
        err: "certificate: line 4 is not of the format\n",
    },
    Case {
        words: "check s c",
        sheet: ONE_TASK,
        other: "poet-cert 1\ntasks 1\ntask 0 2 2 1\np 0 2 \nend\n",
        status: 6,
        out: "",
        err: "certificate: line 4 is not of the format\n",
    },
    Case {
        words: "check s c",
        sheet: ONE_TASK,
        other: "poet-cert 1\ntasks 1\ntask 0 2 2 1\np 0 2\nend\n\n",
        status: 6,
        out: "",
        err: "certificate: line 6 is not of the format\n",
    },
    Case {
        words: "check s c",
        sheet: ONE_TASK,
        other: "poet-cert 1\r\ntasks 1\r\ntask 0 2 2 1\r\np 0 2\r\nend\r\n",
        status: 6,
        out: "",
        err: "certificate: line 1 is not of the format\n",
    },
    Case {
        words: "check s c",
        sheet: ONE_TASK,
        other: "",
        status: 6,
        out: "",
        err: "certificate: line 1 is not of the format\n",
    },
    Case {
        words: "check s c",
        sheet: ONE_TASK,
        other: "poet-cert 1\ntasks 1\ntask 0 2 2 1000001\np 0 2\nend\n",
        status: 6,
        out: "",
        err: "certificate: line 3 is not of the format\n",
    },
];

#[test]
fn malformed_certificates(rt: HostRuntime) -> Result<(), Fail> {
    assert_eq!(rt; first_unsaid(rt.alloc(), &MALFORMED_CERTIFICATES)?, None);
    Ok(())
}

const REFUSED_SHEETS: [Case; 10] = [
    Case {
        words: "check s c",
        sheet: "",
        other: ONE_TASK_CERT,
        status: 5,
        out: "",
        err: "sheet: missing policy in top\n",
    },
    Case {
        words: "check s c",
        sheet: "policy = \"fp\"\n",
        other: ONE_TASK_CERT,
        status: 5,
        out: "",
        err: "sheet: missing task in top\n",
    },
    Case {
        words: "check s c",
        sheet: "policy = \"fp\"\ntask = []\n",
        other: ONE_TASK_CERT,
        status: 5,
        out: "",
        err: "sheet: task out of range in top\n",
    },
    Case {
        words: "check s c",
        sheet: "policy = \"fp\"\n\n[[task]]\nname = \"a\"\ncost = 2.0\ndeadline = 5\npriority = 1\nperiod = 5\n",
        other: ONE_TASK_CERT,
        status: 5,
        out: "",
        err: "sheet: wrong kind of cost in task 0\n",
    },
    Case {
        words: "check s c",
        sheet: "policy = \"fp\"\n\n[[task]]\nname = \"a\"\ncost = 2\ndeadline = 5\npriority = 1\nperiod = 5\ncolour = 1\n",
        other: ONE_TASK_CERT,
        status: 5,
        out: "",
        err: "sheet: unknown key in task 0\n",
    },
    Case {
        words: "check s c",
        sheet: "policy = \"fp\"\n\n[[task]]\nname = \"a\"\ncost = 2\ndeadline = 5\npriority = 1\nperiod = 5\n\n[[task]]\nname = \"a\"\ncost = 2\ndeadline = 5\npriority = 1\nperiod = 5\n",
        other: ONE_TASK_CERT,
        status: 5,
        out: "",
        err: "sheet: name repeated in task 1\n",
    },
    Case {
        words: "check s c",
        sheet: "policy = \"fp\"\n\n[[task]]\nname = \"a\"\ncost = 2\ndeadline = 5\npriority = 1\ncurve = { horizon = 5, steps = [[0, 1]] }\n",
        other: ONE_TASK_CERT,
        status: 5,
        out: "",
        err: "sheet: curve.steps out of range in task 0\n",
    },
    Case {
        words: "check s c",
        sheet: "policy = \"fp\"\n\n[[task]]\nname = \"a\"\ncost = 4\ndeadline = 5\npriority = 1\nperiod = 5\npreemption = { fixed = [1, 2] }\n",
        other: ONE_TASK_CERT,
        status: 5,
        out: "",
        err: "sheet: preemption does not fit cost in task 0\n",
    },
    Case {
        words: "check s c",
        sheet: "policy = \"fp\"\n\n[supply]\nhorizon = 4\ntimes = [4, 3]\n\n[[task]]\nname = \"a\"\ncost = 2\ndeadline = 5\npriority = 1\nperiod = 5\n",
        other: ONE_TASK_CERT,
        status: 5,
        out: "",
        err: "sheet: times out of order in supply\n",
    },
    Case {
        words: "check s c",
        sheet: "policy = \"fp\"\n\n[[task]]\nname = \"a\"\ncost = 2\ndeadline = 5\npriority = 1\nperiod = 5\ncurve = { horizon = 5, steps = [[1, 1]] }\n",
        other: ONE_TASK_CERT,
        status: 5,
        out: "",
        err: "sheet: both period and curve in task 0\n",
    },
];

#[test]
fn refused_sheets(rt: HostRuntime) -> Result<(), Fail> {
    assert_eq!(rt; first_unsaid(rt.alloc(), &REFUSED_SHEETS)?, None);
    Ok(())
}
