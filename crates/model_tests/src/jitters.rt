//! Rows of sheets whose jobs may be released after their arrival.
use std::test::Fail;
use top_cases::files::{ONE_TASK, PERIODIC_RUN};
use top_cases::{Case, first_unsaid};

const JITTER: &str =
    "policy = \"fp\"\n\n[[task]]\nname = \"a\"\ncost = 2\ndeadline = 5\npriority = 1\njitter = 3\nperiod = 5\n";

const JITTER_CERT: &str = "poet-cert 1\ntasks 1\ntask 0 2 5 1\np 0 2\nend\n";

/// The first job is released by its jitter after its arrival.
const JITTER_RUN: &str =
    "poet-run 2\njobs 2 ticks 8\nj 0 0 3 2\nj 0 5 5 2\nidle 3\nrun 0 2\nrun 1 2\nidle 1\nend\n";

/// Two jobs can be released one tick after the other.
const JITTER_POINTS: &str =
    "policy = \"fp\"\n\n[[task]]\nname = \"a\"\ncost = 2\ndeadline = 5\npriority = 1\njitter = 4\nperiod = 5\n";

const JITTER_POINTS_CERT: &str = "poet-cert 1\ntasks 1\ntask 0 4 7 2\np 0 2\np 1 4\nend\n";

/// A job of `v` that arrives after one of `u` can run first, and is not preempted.
const JITTER_BLOCKING: &str =
    "policy = \"fifo\"\n\n[[task]]\nname = \"u\"\ncost = 1\ndeadline = 10\njitter = 2\nperiod = 10\n\n[[task]]\nname = \"v\"\ncost = 3\ndeadline = 10\nperiod = 10\npreemption = \"never\"\n";

const JITTER_BLOCKING_CERT: &str =
    "poet-cert 1\ntasks 2\ntask 0 6 8 1\np 0 6\ntask 1 4 4 1\np 0 2\nend\n";

const JITTER_BLOCKING_RUN: &str =
    "poet-run 2\njobs 2 ticks 10\nj 0 0 2 1\nj 1 0 0 3\nrun 1 3\nrun 0 1\nidle 6\nend\n";

/// The bound is the greatest number.
const LATEST: &str =
    "policy = \"fp\"\n\n[[task]]\nname = \"a\"\ncost = 1\ndeadline = 1\npriority = 1\njitter = 999999999\nperiod = 1000000000\n";

/// The jitter is the greatest number, and no bound is so small.
const TOO_LATE: &str =
    "policy = \"fp\"\n\n[[task]]\nname = \"a\"\ncost = 1\ndeadline = 1\npriority = 1\njitter = 1000000000\nperiod = 1000000000\n";

const CERTIFICATES: [Case; 19] = [
    Case {
        words: "analyse s 100",
        sheet: JITTER,
        other: "",
        status: 0,
        out: JITTER_CERT,
        err: "",
    },
    Case {
        words: "check s c",
        sheet: JITTER,
        other: JITTER_CERT,
        status: 0,
        out: "accepted\ntask a bound 5 deadline 5 met\n",
        err: "",
    },
    Case {
        words: "check s c",
        sheet: JITTER,
        other: "poet-cert 1\ntasks 1\ntask 0 2 2 1\np 0 2\nend\n",
        status: 1,
        out: "refused K2 task a\n",
        err: "",
    },
    Case {
        words: "check s c",
        sheet: JITTER,
        other: "poet-cert 1\ntasks 1\ntask 0 2 4 1\np 0 2\nend\n",
        status: 1,
        out: "refused K6 task a point 0\n",
        err: "",
    },
    Case {
        words: "analyse s 100",
        sheet: JITTER_POINTS,
        other: "",
        status: 0,
        out: JITTER_POINTS_CERT,
        err: "",
    },
    Case {
        words: "analyse s 7",
        sheet: JITTER_POINTS,
        other: "",
        status: 0,
        out: JITTER_POINTS_CERT,
        err: "",
    },
    Case {
        words: "analyse s 6",
        sheet: JITTER_POINTS,
        other: "",
        status: 1,
        out: "no bound task a bound\n",
        err: "",
    },
    Case {
        words: "analyse s 3",
        sheet: JITTER_POINTS,
        other: "",
        status: 1,
        out: "no bound task a window\n",
        err: "",
    },
    Case {
        words: "check s c",
        sheet: JITTER_POINTS,
        other: JITTER_POINTS_CERT,
        status: 0,
        out: "accepted\ntask a bound 7 deadline 5 missed\n",
        err: "",
    },
    Case {
        words: "check s c deadlines",
        sheet: JITTER_POINTS,
        other: JITTER_POINTS_CERT,
        status: 1,
        out: "refused K9 task a\n",
        err: "",
    },
    Case {
        words: "check s c",
        sheet: JITTER_POINTS,
        other: "poet-cert 1\ntasks 1\ntask 0 4 7 1\np 0 2\nend\n",
        status: 1,
        out: "refused K5 task a point 0\n",
        err: "",
    },
    Case {
        words: "check s c",
        sheet: JITTER_POINTS,
        other: "poet-cert 1\ntasks 1\ntask 0 4 7 2\np 0 2\np 1 3\nend\n",
        status: 1,
        out: "refused K7 task a point 1\n",
        err: "",
    },
    Case {
        words: "analyse s 100",
        sheet: JITTER_BLOCKING,
        other: "",
        status: 0,
        out: JITTER_BLOCKING_CERT,
        err: "",
    },
    Case {
        words: "check s c",
        sheet: JITTER_BLOCKING,
        other: JITTER_BLOCKING_CERT,
        status: 0,
        out: "accepted\ntask u bound 8 deadline 10 met\ntask v bound 4 deadline 10 met\n",
        err: "",
    },
    Case {
        words: "check s c",
        sheet: JITTER_BLOCKING,
        other: "poet-cert 1\ntasks 2\ntask 0 5 7 1\np 0 5\ntask 1 4 4 1\np 0 2\nend\n",
        status: 1,
        out: "refused K3 task u\n",
        err: "",
    },
    Case {
        words: "check s c",
        sheet: JITTER_BLOCKING,
        other: "poet-cert 1\ntasks 2\ntask 0 6 8 1\np 0 5\ntask 1 4 4 1\np 0 2\nend\n",
        status: 1,
        out: "refused K7 task u point 0\n",
        err: "",
    },
    Case {
        words: "check s c",
        sheet: JITTER_BLOCKING,
        other: "poet-cert 1\ntasks 2\ntask 0 6 8 1\np 0 6\ntask 1 4 3 1\np 0 2\nend\n",
        status: 1,
        out: "refused K8 task v point 0\n",
        err: "",
    },
    Case {
        words: "analyse s 1000000000",
        sheet: LATEST,
        other: "",
        status: 0,
        out: "poet-cert 1\ntasks 1\ntask 0 1 1000000000 1\np 0 1\nend\n",
        err: "",
    },
    Case {
        words: "analyse s 1000000000",
        sheet: TOO_LATE,
        other: "",
        status: 1,
        out: "no bound task a bound\n",
        err: "",
    },
];

#[test]
fn certificates(rt: HostRuntime) -> Result<(), Fail> {
    assert_eq!(rt; first_unsaid(rt.alloc(), &CERTIFICATES)?, None);
    Ok(())
}

const REFUSED_SHEETS: [Case; 5] = [
    Case {
        words: "check s c",
        sheet: "policy = \"fp\"\n\n[[task]]\nname = \"a\"\ncost = 2\ndeadline = 5\npriority = 1\njitter = 1000000001\nperiod = 5\n",
        other: JITTER_CERT,
        status: 5,
        out: "",
        err: "sheet: jitter out of range in task 0\n",
    },
    Case {
        words: "analyse s 100",
        sheet: "policy = \"fp\"\n\n[[task]]\nname = \"a\"\ncost = 2\ndeadline = 5\npriority = 1\njitter = -1\nperiod = 5\n",
        other: "",
        status: 5,
        out: "",
        err: "sheet: jitter out of range in task 0\n",
    },
    Case {
        words: "check s c",
        sheet: "policy = \"fp\"\n\n[[task]]\nname = \"a\"\ncost = 2\ndeadline = 5\npriority = 1\njitter = 2.0\nperiod = 5\n",
        other: JITTER_CERT,
        status: 5,
        out: "",
        err: "sheet: wrong kind of jitter in task 0\n",
    },
    Case {
        words: "check s c",
        sheet: "policy = \"fp\"\n\n[[task]]\nname = \"a\"\ncost = 2\ndeadline = 5\npriority = -1\njitter = -1\nperiod = 5\n",
        other: JITTER_CERT,
        status: 5,
        out: "",
        err: "sheet: priority out of range in task 0\n",
    },
    Case {
        words: "check s c",
        sheet: "policy = \"fp\"\njitter = 3\n",
        other: JITTER_CERT,
        status: 5,
        out: "",
        err: "sheet: unknown key in top\n",
    },
];

#[test]
fn refused_sheets(rt: HostRuntime) -> Result<(), Fail> {
    assert_eq!(rt; first_unsaid(rt.alloc(), &REFUSED_SHEETS)?, None);
    Ok(())
}

const RUNS: [Case; 10] = [
    Case {
        words: "simulate s dense 8",
        sheet: JITTER,
        other: "",
        status: 0,
        out: JITTER_RUN,
        err: "",
    },
    Case {
        words: "audit s c",
        sheet: JITTER,
        other: JITTER_RUN,
        status: 0,
        out: "compliant\ntask a jobs 2 done 2 worst 5\n",
        err: "",
    },
    Case {
        words: "audit s c",
        sheet: JITTER,
        other: "poet-run 2\njobs 2 ticks 8\nj 0 0 4 2\nj 0 5 5 2\nidle 3\nrun 0 2\nrun 1 2\nidle 1\nend\n",
        status: 1,
        out: "broken release job 0\n",
        err: "",
    },
    Case {
        words: "audit s c",
        sheet: JITTER,
        other: "poet-run 2\njobs 2 ticks 8\nj 0 0 3 2\nj 0 5 4 2\nidle 3\nrun 0 2\nrun 1 2\nidle 1\nend\n",
        status: 1,
        out: "broken release job 1\n",
        err: "",
    },
    Case {
        words: "audit s c",
        sheet: JITTER,
        other: "poet-run 2\njobs 2 ticks 8\nj 0 0 3 2\nj 0 5 5 2\nidle 4\nrun 0 2\nrun 1 2\nend\n",
        status: 1,
        out: "broken idle job 0 tick 3\n",
        err: "",
    },
    Case {
        words: "audit s c",
        sheet: JITTER,
        other: PERIODIC_RUN,
        status: 0,
        out: "compliant\ntask a jobs 2 done 2 worst 2\n",
        err: "",
    },
    Case {
        words: "audit s c",
        sheet: ONE_TASK,
        other: JITTER_RUN,
        status: 1,
        out: "broken release job 0\n",
        err: "",
    },
    Case {
        words: "simulate s dense 8",
        sheet: JITTER_POINTS,
        other: "",
        status: 0,
        out: "poet-run 2\njobs 2 ticks 8\nj 0 0 4 2\nj 0 5 5 2\nidle 4\nrun 0 2\nrun 1 2\nend\n",
        err: "",
    },
    Case {
        words: "simulate s dense 10",
        sheet: JITTER_BLOCKING,
        other: "",
        status: 0,
        out: JITTER_BLOCKING_RUN,
        err: "",
    },
    Case {
        words: "audit s c",
        sheet: JITTER_BLOCKING,
        other: JITTER_BLOCKING_RUN,
        status: 0,
        out: "compliant\ntask u jobs 1 done 1 worst 4\ntask v jobs 1 done 1 worst 3\n",
        err: "",
    },
];

#[test]
fn runs(rt: HostRuntime) -> Result<(), Fail> {
    assert_eq!(rt; first_unsaid(rt.alloc(), &RUNS)?, None);
    Ok(())
}
