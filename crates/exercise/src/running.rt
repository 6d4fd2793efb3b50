//! The exercise.
ghost use Rattle.std.specs.Prelude.{◌≡◌, ◌≤◌, IfOk};
ghost use Rattle.exercise.specs.Exercises.{exercise_of, ExerciseHolds};

use crate::counting::{count_done, count_points, greatest_bound, worst_of};
use crate::laws::exercise_succeeds;
use crate::making::make_sheet;
use crate::outcome::Exercise;
use abstract_rta::points_bound;
use audit::{AuditVerdict, audit};
use policy::Edf;
use preemption::PerTask;
use simulated_run::Mode;
use simulator::{SimRefusal, simulate};
use solver::{AnalyseRefusal, analyse};
use std::alloc::{AllocError, Global};
use supply::Unit;

/// No window or bound is looked for beyond, in ticks.
const HORIZON: u64 = 1_000_000;

/// The ticks of the run.
const TICKS: u64 = 10_000;

/// The exercise of a seed: the sheet of so many tasks that it makes is analysed, with windows of up
/// to 1,000,000 ticks, and its dense run of 10,000 ticks is simulated and audited.
///
/// There always is a best certificate, which meets its conditions, and the run always complies, so no
/// response time is above the greatest bound.
pub fn exercise(alloc: Global, seed: u64, tasks: u32) -> Result<Exercise, AllocError>
    requires some { 1 ≤ tasks }
    requires few { tasks ≤ 64 }
    ensures exact { IfOk result (λ e. e ≡ exercise_of seed tasks) }
    ensures sound { IfOk result (λ _. ExerciseHolds seed tasks) }
    ensures bounded { IfOk result (λ e. e.worst ≤ e.greatest) }
{
    exercise_succeeds();
    points_bound::<Edf, PerTask, Unit>();
    let sheet = make_sheet(alloc, seed, tasks)?;
    let cert = match analyse::<Edf, PerTask, Unit>(alloc, &sheet, &Unit, HORIZON) {
        Ok(cert) => cert,
        Err(AnalyseRefusal::Memory) => return Err(AllocError),
        Err(AnalyseRefusal::NoBound { .. }) => unreachable!(),
        Err(AnalyseRefusal::Points { .. }) => unreachable!(),
    };
    let run = match simulate::<Edf, PerTask, Unit>(alloc, &sheet, &Unit, Mode::Dense, TICKS) {
        Ok(run) => run,
        Err(SimRefusal::Memory) => return Err(AllocError),
        Err(SimRefusal::Jobs) => unreachable!(),
        Err(SimRefusal::Segments) => unreachable!(),
    };
    let seen = match audit::<Edf, PerTask, Unit>(alloc, &sheet, &Unit, &run)? {
        AuditVerdict::Compliant(seen) => seen,
        AuditVerdict::Broken { .. } => unreachable!(),
    };
    Ok(Exercise {
        points: count_points(cert.entries.as_slice()),
        greatest: greatest_bound(cert.entries.as_slice()),
        jobs: run.jobs.len() as u64,
        done: count_done(seen.as_slice()),
        worst: worst_of(seen.as_slice()),
    })
}
