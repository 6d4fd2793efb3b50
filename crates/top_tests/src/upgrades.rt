//! Rows of certificates with terms, and of `upgrade`.
use std::test::Fail;
use top_cases::files::*;
use top_cases::{Case, first_unsaid};

const TERMS: [Case; 9] = [
    Case {
        words: "check s c",
        sheet: NEVER_PREEMPTED,
        other: NEVER_PREEMPTED_TERMS,
        status: 0,
        out: "accepted\ntask a bound 2 deadline 4 met\ntask b bound 3 deadline 6 met\n",
        err: "",
    },
    Case {
        words: "check s c deadlines",
        sheet: EIGHT_TASKS,
        other: EIGHT_TASKS_TERMS,
        status: 0,
        out: EIGHT_TASKS_ACCEPTED,
        err: "",
    },
    Case {
        words: "check s c",
        sheet: NEVER_PREEMPTED,
        other: "poet-cert 2\ntasks 2\ntask 0 2 2 1\np 0 2 1 1 0 3\ntask 1 3 3 1\np 0 2 0 1 1 2\nend\n",
        status: 1,
        out: "refused K10 task a point 0\n",
        err: "",
    },
    Case {
        words: "check s c",
        sheet: NEVER_PREEMPTED,
        other: "poet-cert 2\ntasks 2\ntask 0 2 2 1\np 0 2 1 1 0 2\ntask 1 3 3 1\np 0 2 1 0 1 2\nend\n",
        status: 1,
        out: "refused K10 task b point 0\n",
        err: "",
    },
    Case {
        words: "check s c",
        sheet: TWO_DEADLINES,
        other: "poet-cert 2\ntasks 2\ntask 0 4 2 2\np 0 2 0 2 0 2\np 2 4 0 2 0 2\ntask 1 4 4 2\np 0 4 0 2 2 4\np 2 4 0 2 2 4\nend\n",
        status: 1,
        out: "refused K10 task a point 2\n",
        err: "",
    },
    Case {
        words: "check s c",
        sheet: PROMISED_NEVER,
        other: "poet-cert 2\ntasks 1\ntask 0 4 3 1\np 0 3 0 0 0 0\nend\n",
        status: 1,
        out: "refused K8 task a point 0\n",
        err: "",
    },
    Case {
        words: "check s c",
        sheet: TWO_DEADLINES,
        other: "poet-cert 2\ntasks 2\ntask 0 4 2 1\np 0 2 0 0 0 0\ntask 1 4 4 1\np 0 4 0 0 0 0\nend\n",
        status: 1,
        out: "refused K10 task a point 0\n",
        err: "",
    },
    Case {
        words: "report s c text",
        sheet: NEVER_PREEMPTED,
        other: "poet-cert 2\ntasks 2\ntask 0 2 2 1\np 0 2 1 1 0 3\ntask 1 3 3 1\np 0 2 0 1 1 2\nend\n",
        status: 1,
        out: "refused K10 task a point 0\n",
        err: "",
    },
    Case {
        words: "check s c",
        sheet: NEVER_PREEMPTED,
        other: "poet-cert 2\ntasks 2\ntask 0 2 2 1\np 0 2\ntask 1 3 3 1\np 0 2\nend\n",
        status: 6,
        out: "",
        err: "certificate: line 4 is not of the format\n",
    },
];

#[test]
fn terms_are_judged(rt: HostRuntime) -> Result<(), Fail> {
    assert_eq!(rt; first_unsaid(rt.alloc(), &TERMS)?, None);
    Ok(())
}

const UPGRADES: [Case; 12] = [
    Case {
        words: "upgrade s c",
        sheet: NEVER_PREEMPTED,
        other: NEVER_PREEMPTED_CERT,
        status: 0,
        out: NEVER_PREEMPTED_TERMS,
        err: "",
    },
    Case {
        words: "upgrade s c",
        sheet: NEVER_PREEMPTED,
        other: NEVER_PREEMPTED_TERMS,
        status: 0,
        out: NEVER_PREEMPTED_TERMS,
        err: "",
    },
    Case {
        words: "upgrade s c",
        sheet: NEVER_PREEMPTED,
        other: "poet-cert 2\ntasks 2\ntask 0 2 2 1\np 0 2 1 1 0 3\ntask 1 3 3 1\np 0 2 0 1 1 2\nend\n",
        status: 0,
        out: NEVER_PREEMPTED_TERMS,
        err: "",
    },
    Case {
        words: "upgrade s c",
        sheet: EIGHT_TASKS,
        other: EIGHT_TASKS_CERT,
        status: 0,
        out: EIGHT_TASKS_TERMS,
        err: "",
    },
    Case {
        words: "upgrade s c",
        sheet: EIGHT_TASKS,
        other: EIGHT_TASKS_TERMS,
        status: 0,
        out: EIGHT_TASKS_TERMS,
        err: "",
    },
    Case {
        words: "upgrade s c",
        sheet: ONE_TASK,
        other: "poet-cert 1\ntasks 1\ntask 0 2 1 1\np 0 2\nend\n",
        status: 0,
        out: "poet-cert 2\ntasks 1\ntask 0 2 1 1\np 0 2 0 2 0 2\nend\n",
        err: "",
    },
    Case {
        words: "upgrade s c",
        sheet: ONE_TASK,
        other: "poet-cert 1\ntasks 1\ntask 0 0 0 1\np 5 0\nend\n",
        status: 0,
        out: "poet-cert 2\ntasks 1\ntask 0 0 0 1\np 5 0 0 4 0 4\nend\n",
        err: "",
    },
    Case {
        words: "upgrade s c",
        sheet: ONE_TASK,
        other: TWO_TASKS_CERT,
        status: 1,
        out: "refused K1\n",
        err: "",
    },
    Case {
        words: "upgrade s c",
        sheet: ONE_TASK,
        other: "poet-cert 3\ntasks 1\ntask 0 2 2 1\np 0 2\nend\n",
        status: 6,
        out: "",
        err: "certificate: line 1 is not of the format\n",
    },
    Case {
        words: "upgrade s c",
        sheet: ONE_TASK,
        other: "poet-cert 2\ntasks 1\ntask 0 2 2 1\np 0 2\nend\n",
        status: 6,
        out: "",
        err: "certificate: line 4 is not of the format\n",
    },
    Case {
        words: "upgrade s x",
        sheet: ONE_TASK,
        other: "",
        status: 3,
        out: "",
        err: "read failed: certificate\n",
    },
    Case {
        words: "upgrade s x",
        sheet: "",
        other: "",
        status: 5,
        out: "",
        err: "sheet: missing policy in top\n",
    },
];

#[test]
fn upgrades(rt: HostRuntime) -> Result<(), Fail> {
    assert_eq!(rt; first_unsaid(rt.alloc(), &UPGRADES)?, None);
    Ok(())
}
