//! Rows of `simulate`, `audit`, `report` and `exercise`.
use std::test::Fail;
use top_cases::files::*;
use top_cases::{Case, first_unsaid};

const SIMULATED_RUNS: [Case; 9] = [
    Case {
        words: "simulate s dense 8",
        sheet: ONE_TASK,
        other: "",
        status: 0,
        out: PERIODIC_RUN,
        err: "",
    },
    Case {
        words: "simulate s dense 12",
        sheet: NEVER_PREEMPTED,
        other: "",
        status: 0,
        out: DENSE_RUN,
        err: "",
    },
    Case {
        words: "simulate s seed 7 20",
        sheet: NEVER_PREEMPTED,
        other: "",
        status: 0,
        out: "poet-run 2\njobs 8 ticks 20\nj 0 0 0 1\nj 1 1 1 1\nj 0 4 4 1\nj 0 8 8 1\nj 1 8 8 1\nj 0 15 15 1\nj 1 15 15 1\nj 0 19 19 1\nrun 0 1\nrun 1 1\nidle 2\nrun 2 1\nidle 3\nrun 3 1\nrun 4 1\nidle 5\nrun 5 1\nrun 6 1\nidle 2\nrun 7 1\nend\n",
        err: "",
    },
    Case {
        words: "simulate s dense 8",
        sheet: PROMISED,
        other: "",
        status: 0,
        out: "poet-run 2\njobs 1 ticks 8\nj 0 0 0 2\noff 2\nrun 0 2\noff 2\nidle 2\nend\n",
        err: "",
    },
    Case {
        words: "simulate s dense 6",
        sheet: FIXED_SEGMENTS,
        other: "",
        status: 0,
        out: "poet-run 2\njobs 1 ticks 6\nj 0 0 0 5 2 3\nrun 0 5\nidle 1\nend\n",
        err: "",
    },
    Case {
        words: "simulate s dense 6",
        sheet: FLOATING_SEGMENTS,
        other: "",
        status: 0,
        out: "poet-run 2\njobs 1 ticks 6\nj 0 0 0 5 2 2 1\nrun 0 5\nidle 1\nend\n",
        err: "",
    },
    Case {
        words: "simulate s dense 3",
        sheet: CROWD,
        other: "",
        status: 7,
        out: "",
        err: "limit: jobs exceed 20000\n",
    },
    Case {
        words: "simulate s dense 1",
        sheet: SEGMENTED,
        other: "",
        status: 7,
        out: "",
        err: "limit: segments exceed 1000000\n",
    },
    Case {
        words: "simulate x dense 1",
        sheet: ONE_TASK,
        other: "",
        status: 3,
        out: "",
        err: "read failed: sheet\n",
    },
];

#[test]
fn simulated_runs(rt: HostRuntime) -> Result<(), Fail> {
    assert_eq!(rt; first_unsaid(rt.alloc(), &SIMULATED_RUNS)?, None);
    Ok(())
}

const AUDITED_RUNS: [Case; 11] = [
    Case {
        words: "audit s c",
        sheet: ONE_TASK,
        other: PERIODIC_RUN,
        status: 0,
        out: "compliant\ntask a jobs 2 done 2 worst 2\n",
        err: "",
    },
    Case {
        words: "audit s c",
        sheet: ONE_TASK,
        other: "poet-run 1\njobs 2 ticks 8\nj 0 0 2\nj 0 4 2\nrun 0 2\nidle 3\nrun 1 2\nidle 1\nend\n",
        status: 1,
        out: "broken curve job 1 tick 4\n",
        err: "",
    },
    Case {
        words: "audit s c",
        sheet: NEVER_PREEMPTED,
        other: DENSE_RUN,
        status: 0,
        out: "compliant\ntask a jobs 3 done 3 worst 1\ntask b jobs 2 done 2 worst 3\n",
        err: "",
    },
    Case {
        words: "audit s c",
        sheet: NEVER_PREEMPTED,
        other: "poet-run 1\njobs 2 ticks 3\nj 1 0 2\nj 0 1 1\nrun 0 1\nrun 1 1\nrun 0 1\nend\n",
        status: 1,
        out: "broken segment job 0 tick 1\n",
        err: "",
    },
    Case {
        words: "audit s c",
        sheet: ONE_TASK,
        other: "poet-run 1\njobs 2 ticks 5\nj 0 0 2\nj 0 3 2\nrun 0 2\nidle 1\nrun 1 2\nend\n",
        status: 1,
        out: "broken curve job 1 tick 3\n",
        err: "",
    },
    Case {
        words: "audit s c",
        sheet: ONE_TASK,
        other: "poet-run 1\njobs 2 ticks 5\nj 0 0 2\nj 0 5 2\nrun 0 2\nidle 3\nend\n",
        status: 0,
        out: "compliant\ntask a jobs 2 done 1 worst 2\n",
        err: "",
    },
    Case {
        words: "audit s c",
        sheet: ONE_TASK,
        other: "poet-run 1\njobs 1 ticks 0\nj 1 0 2\nend\n",
        status: 1,
        out: "broken fit job 0\n",
        err: "",
    },
    Case {
        words: "audit s c",
        sheet: ONE_TASK,
        other: "poet-run 1\njobs 0 ticks 1\noff 1\nend\n",
        status: 1,
        out: "broken supply tick 0\n",
        err: "",
    },
    Case {
        words: "audit s c",
        sheet: ONE_TASK,
        other: "poet-run 1\njobs 0 ticks 2\nidle 3\nend\n",
        status: 6,
        out: "",
        err: "run: line 3 is not of the format\n",
    },
    Case {
        words: "audit s x",
        sheet: ONE_TASK,
        other: "",
        status: 3,
        out: "",
        err: "read failed: run\n",
    },
    Case {
        words: "audit x c",
        sheet: ONE_TASK,
        other: "",
        status: 3,
        out: "",
        err: "read failed: sheet\n",
    },
];

#[test]
fn audited_runs(rt: HostRuntime) -> Result<(), Fail> {
    assert_eq!(rt; first_unsaid(rt.alloc(), &AUDITED_RUNS)?, None);
    Ok(())
}

const REPORTS: [Case; 8] = [
    Case {
        words: "report s c text",
        sheet: ONE_TASK,
        other: ONE_TASK_CERT,
        status: 0,
        out: "task                   cost   deadline      bound     window  points result use\na                         2          5          2          2       1 met    ########............\ntasks 1 missed 0\n",
        err: "",
    },
    Case {
        words: "report s c json",
        sheet: ONE_TASK,
        other: ONE_TASK_CERT,
        status: 0,
        out: "{\"missed\":0,\"policy\":\"fp\",\"tasks\":[{\"bound\":2,\"cost\":2,\"deadline\":5,\"met\":true,\"name\":\"a\",\"points\":1,\"window\":2}]}\n",
        err: "",
    },
    Case {
        words: "report s c text",
        sheet: TWO_TASKS,
        other: TWO_TASKS_CERT,
        status: 0,
        out: TWO_TASKS_TABLE,
        err: "",
    },
    Case {
        words: "report s c json",
        sheet: TWO_TASKS,
        other: TWO_TASKS_CERT,
        status: 0,
        out: TWO_TASKS_JSON,
        err: "",
    },
    Case {
        words: "report s c json",
        sheet: SHORT_DEADLINE,
        other: ONE_TASK_CERT,
        status: 0,
        out: "{\"missed\":1,\"policy\":\"fp\",\"tasks\":[{\"bound\":2,\"cost\":2,\"deadline\":1,\"met\":false,\"name\":\"a\",\"points\":1,\"window\":2}]}\n",
        err: "",
    },
    Case {
        words: "report s c text",
        sheet: ONE_TASK,
        other: "poet-cert 1\ntasks 1\ntask 0 2 1 1\np 0 2\nend\n",
        status: 1,
        out: "refused K6 task a point 0\n",
        err: "",
    },
    Case {
        words: "report s c json",
        sheet: ONE_TASK,
        other: "poet-cert 1\n",
        status: 6,
        out: "",
        err: "certificate: line 2 is not of the format\n",
    },
    Case {
        words: "report s x text",
        sheet: ONE_TASK,
        other: "",
        status: 3,
        out: "",
        err: "read failed: certificate\n",
    },
];

#[test]
fn reports(rt: HostRuntime) -> Result<(), Fail> {
    assert_eq!(rt; first_unsaid(rt.alloc(), &REPORTS)?, None);
    Ok(())
}

const EXERCISES: [Case; 2] = [
    Case {
        words: "exercise 7 64",
        sheet: "",
        other: "",
        status: 0,
        out: "exercise seed 7 tasks 64 points 448 greatest 861 jobs 499 done 493 worst 861\n",
        err: "",
    },
    Case {
        words: "exercise 1 8",
        sheet: "",
        other: "",
        status: 0,
        out: "exercise seed 1 tasks 8 points 23 greatest 97 jobs 225 done 224 worst 97\n",
        err: "",
    },
];

#[test]
fn exercises(rt: HostRuntime) -> Result<(), Fail> {
    assert_eq!(rt; first_unsaid(rt.alloc(), &EXERCISES)?, None);
    Ok(())
}
