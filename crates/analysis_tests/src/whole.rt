//! A generated sheet, from its making to its run, call by call.
ghost use Rattle.std.specs.Prelude.{◌<◌, ◌^◌, length};

use cert_check::{Checker, Verdict};
use certificate::write_cert;
use exercise::make_sheet;
use lists::Items;
use policy::Edf;
use preemption::PerTask;
use run_model::{Run, is_done};
use simulated_run::Mode;
use simulator::{SimRefusal, simulate};
use solver::{AnalyseRefusal, analyse};
use std::alloc::{AllocError, Global};
use std::test::Fail;
use task_sheet::Sheet;
use thiserror::Error;

/// Why a generated sheet has no bounds or no run.
#[derive(Debug, Drop, Error)]
enum StageError {
    #[error("no certificate: {0:?}")]
    Analysis(#[from] AnalyseRefusal),
    #[error("no run: {0:?}")]
    Simulation(#[from] SimRefusal),
    #[error(transparent)]
    Memory(#[from(alloc)] AllocError),
}

/// The accepted bounds of a generated sheet, and its dense run of 10,000 ticks.
fn bounds_and_run(alloc: Global) -> Result<(Items<u64>, Run), StageError> {
    let sheet = make_sheet(alloc, 7, 64)?;
    let cert = analyse::<Edf, PerTask, Sheet>(alloc, &sheet, &sheet, 1_000_000)?;
    let text = write_cert(alloc, &cert)?;
    let mut checker = Checker::<Edf, PerTask, Sheet>::new(alloc, &sheet, &sheet, false)?;
    checker.feed(&text);
    let bounds = match checker.finish() {
        Verdict::Accepted(bounds) => bounds,
        _ => Items::new(Vec::new(alloc)),
    };
    let run = simulate::<Edf, PerTask, Sheet>(alloc, &sheet, &sheet, Mode::Dense, 10_000)?;
    Ok((bounds, run))
}

/// The first job that is not done by its arrival plus the bound of its task, where that lies within
/// the run.
fn late_job(run: &Run, bounds: &[u64]) -> Option<u32>
    requires { length run.now.jobs < 2 ^ 32 }
{
    for k in 0..run.jobs.len() as u32 {
        let job = &run.jobs.as_slice()[k as usize];
        let Some(bound) = bounds.get(job.task as usize) else {
            return Some(k);
        };
        let end = job.arrival.saturating_add(*bound);
        if end <= run.ticks.len() as u64 && !is_done(run, k, end) {
            return Some(k);
        }
    }
    None
}

#[test]
fn accepted_bounds_hold_in_a_dense_run(rt: HostRuntime) -> Result<(), Fail> {
    let (bounds, run) = bounds_and_run(rt.alloc())?;
    assert_eq!(rt; bounds.len(), 64);
    assert_eq!(rt; run.jobs.len(), 499);
    assert_eq!(rt; late_job(&run, bounds.as_slice()), None);
    Ok(())
}
