//! A run worked out by hand.
use lists::Items;
use run_model::{Run, Tick, is_done, is_pending, service};
use std::alloc::{AllocError, Global};
use std::test::Fail;
use task_sheet::Job;

fn make_job(alloc: Global, task: u32, arrival: u64, release: u64, cost: u64) -> Job {
    let segs = Items::new(Vec::new(alloc));
    Job {
        task,
        arrival,
        release,
        cost,
        segs,
    }
}

/// Job 0 needs 1 tick from tick 0 on, job 1 needs 2 ticks from tick 1 on; job 2 arrives at tick 1
/// and needs 1 tick from tick 4 on.
fn short_run(alloc: Global) -> Result<Run, AllocError> {
    let jobs = vec![in alloc;
        make_job(alloc, 0, 0, 0, 1),
        make_job(alloc, 1, 1, 1, 2),
        make_job(alloc, 2, 1, 4, 1),
    ]?;
    let ticks = [
        Tick::Off,
        Tick::Runs(0),
        Tick::Runs(1),
        Tick::Off,
        Tick::Runs(1),
        Tick::Idle,
    ];
    Ok(Run {
        jobs: Items::new(jobs),
        ticks: Items::new(ticks.to_vec(alloc)?),
    })
}

#[test]
fn service_tick_by_tick(rt: HostRuntime) -> Result<(), Fail> {
    let run = short_run(rt.alloc())?;
    // The job, the tick, its service, whether it is done, whether it is pending.
    for (k, t, served, done, pending) in [
        (0, 2, 1, true, false),
        (1, 0, 0, false, false),
        (1, 1, 0, false, true),
        (1, 3, 1, false, true),
        (1, 4, 1, false, true),
        (1, 5, 2, true, false),
        (1, 6, 2, true, false),
        (2, 1, 0, false, false),
        (2, 3, 0, false, false),
        (2, 4, 0, false, true),
        (2, 6, 0, false, true),
    ] {
        assert!(rt; (k as usize) < run.jobs.len() && t as usize <= run.ticks.len());
        let found = (
            service(&run, k, t),
            is_done(&run, k, t),
            is_pending(&run, k, t),
        );
        assert_eq!(rt; found, (served, done, pending), "job {k} at {t}");
    }
    Ok(())
}
