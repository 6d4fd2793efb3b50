//! Rows of `infer`, and curves of simulated arrivals.
use curve_infer::{Trace, infer};
use policy::Fp;
use preemption::PerTask;
use run_model::Run;
use sheet_text::read_sheet;
use simulated_run::Mode;
use simulator::simulate;
use std::alloc::{AllocError, Global};
use std::test::Fail;
use task_sheet::Sheet;
use top_cases::files::EIGHT_TASKS;
use top_cases::{Case, first_unsaid};

const FOUR_ARRIVALS: &str = "poet-trace 1\narrivals 4\na 0\na 0\na 4\na 5\nend\n";

const INFERRED: [Case; 5] = [
    Case {
        words: "infer s 6",
        sheet: FOUR_ARRIVALS,
        other: "",
        status: 0,
        out: "curve = { horizon = 6, steps = [[1, 2], [5, 3], [6, 4]] }\n",
        err: "",
    },
    Case {
        words: "infer s 4",
        sheet: FOUR_ARRIVALS,
        other: "",
        status: 0,
        out: "curve = { horizon = 4, steps = [[1, 2]] }\n",
        err: "",
    },
    Case {
        words: "infer s 1",
        sheet: "poet-trace 1\narrivals 1\na 1000000000\nend\n",
        other: "",
        status: 0,
        out: "curve = { horizon = 1, steps = [[1, 1]] }\n",
        err: "",
    },
    Case {
        words: "infer s 1000000000",
        sheet: "poet-trace 1\narrivals 2\na 0\na 999999999\nend\n",
        other: "",
        status: 0,
        out: "curve = { horizon = 1000000000, steps = [[1, 1], [1000000000, 2]] }\n",
        err: "",
    },
    // the line of the third of the eight tasks
    Case {
        words: "infer s 5000",
        sheet: "poet-trace 1\narrivals 4\na 0\na 0\na 2499\na 2499\nend\n",
        other: "",
        status: 0,
        out: "curve = { horizon = 5000, steps = [[1, 2], [2500, 4]] }\n",
        err: "",
    },
];

#[test]
fn inferred_curves(rt: HostRuntime) -> Result<(), Fail> {
    assert_eq!(rt; first_unsaid(rt.alloc(), &INFERRED)?, None);
    Ok(())
}

const REFUSED: [Case; 6] = [
    Case {
        words: "infer s 6",
        sheet: "poet-trace 1\narrivals 2\na 5\na 4\nend\n",
        other: "",
        status: 6,
        out: "",
        err: "trace: line 4 is not of the format\n",
    },
    Case {
        words: "infer s 6",
        sheet: "poet-trace 1\narrivals 0\nend\n",
        other: "",
        status: 6,
        out: "",
        err: "trace: line 2 is not of the format\n",
    },
    Case {
        words: "infer s 6",
        sheet: "poet-trace 1\narrivals 1\na 5\nend",
        other: "",
        status: 6,
        out: "",
        err: "trace: line 4 is not of the format\n",
    },
    Case {
        words: "infer s 6",
        sheet: "",
        other: "",
        status: 6,
        out: "",
        err: "trace: line 1 is not of the format\n",
    },
    // a sheet is no trace, and the other file is not looked at
    Case {
        words: "infer s 6",
        sheet: EIGHT_TASKS,
        other: FOUR_ARRIVALS,
        status: 6,
        out: "",
        err: "trace: line 1 is not of the format\n",
    },
    Case {
        words: "infer x 6",
        sheet: FOUR_ARRIVALS,
        other: "",
        status: 3,
        out: "",
        err: "read failed: trace\n",
    },
];

#[test]
fn refused_traces(rt: HostRuntime) -> Result<(), Fail> {
    assert_eq!(rt; first_unsaid(rt.alloc(), &REFUSED)?, None);
    Ok(())
}

/// The arrivals of a task's jobs, in their order.
fn arrivals_of(alloc: Global, run: &Run, task: u32) -> Result<Vec<u64>, AllocError> {
    let mut times = Vec::new(alloc);
    for job in run.jobs.as_slice() {
        if job.task == task {
            times.push(job.arrival)?;
        }
    }
    Ok(times)
}

/// In a dense run and in one by seed, for the task with bursts of the eight.
#[test]
fn simulated_arrivals_give_a_curve_at_most_the_task_s_own(rt: HostRuntime) -> Result<(), Fail> {
    let alloc = rt.alloc();
    let sheet = read_sheet(alloc, EIGHT_TASKS.as_bytes())?;
    if sheet.len() < 3 {
        return Err("no third task").map_err(Fail::from);
    }
    let own = &sheet.task(2).curve;
    for mode in [Mode::Dense, Mode::Seed(7)] {
        let run = simulate::<Fp, PerTask, Sheet>(alloc, &sheet, &sheet, mode, 20_000)?;
        let Some(trace) = Trace::check(arrivals_of(alloc, &run, 2)?) else {
            return Err("no trace").map_err(Fail::from);
        };
        let inferred = infer(alloc, &trace, own.horizon())?;
        for d in 0..15_000 {
            assert!(rt; inferred.at(d) <= own.at(d), "{mode:?} {d}");
        }
    }
    Ok(())
}
