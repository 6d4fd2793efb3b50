//! The simulated run.
ghost use Rattle.std.specs.Prelude.{◌≡◌, ◌≤◌, ◌<◌, ℕ, [], suc, length, replicate, slice_index_or, IfOk, OnOk, IfErr};
ghost use Rattle.std.specs.Global.{Vec as GlobalVec};
ghost use Rattle.lists.specs.Limits.{most_ticks};
ghost use Rattle.task_sheet.specs.Sheets.{IsValidSheet};
ghost use Rattle.preemption.specs.CutLaws.{Serves};
ghost use Rattle.supply.specs.Promises.{sbf_of};
ghost use Rattle.run_text.specs.Text.{IsWithinLimits};
ghost use Rattle.schedule_laws.specs.Compliance.{IsCompliant};
ghost use Rattle.windows.specs.Times.{AreNeededTimes};
ghost use Rattle.simulated_run.specs.declared.mode.Mode.TheVariants.{Dense};
ghost use Rattle.simulated_run.specs.Laws.{IsDense};
ghost use Rattle.simulated_run.specs.SimulatedRun.{World, world_of, seed_of as seed_by, moment_after};
ghost use Rattle.simulator.specs.Simulations.{IsSimulation, IsRefusal};
ghost use Rattle.simulator.specs.AllOpenings.{AreOpenings};
ghost use Rattle.simulator.specs.SimulationState.{IsKept, world_by, run_of, moment_of, moment_with};

use crate::arrivals::arrive;
use crate::openings::{Openings, open_all};
use crate::refusal::SimRefusal;
use crate::releases::let_in;
use crate::simulation::Simulation;
use crate::ticks::add_tick;
use lists::Items;
use policy::Policy;
use preemption::{Preemption, Tabled};
use rand_core::SeedableRng;
use rand_xoshiro::SplitMix64;
use run_model::Run;
use simulated_run::{Mode, dense_is_full, simulation_complies};
use std::alloc::{AllocError, Global};
use std::collections::{BTreeMap, BTreeSet};
use supply::Supply;
use task_sheet::Sheet;
use windows::{PromisedTime, needed_times};

fn seed_of(mode: Mode) -> u64
    ensures { (w : World) → result ≡ seed_by w mode }
{
    match mode {
        Mode::Dense => 0,
        Mode::Seed(seed) => seed,
    }
}

/// No arrivals, for so many tasks.
fn no_arrivals(alloc: Global, n: u32) -> Result<Vec<Vec<u64>>, AllocError>
    ensures len { IfOk result (λ lists. length lists.items ≡ n) }
    ensures none { IfOk result (λ lists. (o : ℕ) (d : GlobalVec ℕ) → o < n →
        (slice_index_or lists.items o d).items ≡ []) }
{
    let mut lists = Vec::new(alloc);
    for _o in 0..n {
        lists.push(Vec::new(alloc))?;
    }
    Ok(lists)
}

/// No releases, for so many tasks.
fn no_releases(alloc: Global, n: u32) -> Result<Vec<u64>, AllocError>
    ensures { IfOk result (λ releases. releases.items ≡ replicate n 0) }
{
    vec![in alloc; 0; n as usize]
}

/// A simulation before the first tick.
fn start<P: Policy, M: Preemption>(
    alloc: Global,
    sheet: &Sheet,
    mode: Mode,
) -> Result<Simulation, AllocError>
    ensures moment { IfOk result (λ simulation. moment_of simulation ≡
        moment_after (world_by P.meaning M.cuts sheet.now mode) 0) }
    ensures kept { IfOk result (IsKept P.meaning M.cuts sheet.now 0) }
    ensures valid { IsValidSheet sheet.now }
{
    let arrivals = no_arrivals(alloc, sheet.len())?;
    let releases = no_releases(alloc, sheet.len())?;
    let counts = vec![in alloc; 0]?;
    Ok(Simulation {
        jobs: Vec::new(alloc),
        ticks: Vec::new(alloc),
        words: SplitMix64::seed_from_u64(seed_of(mode)),
        left: Vec::new(alloc),
        queue: BTreeMap::new(alloc),
        coming: BTreeSet::new(alloc),
        inside: None,
        segments: 0,
        arrivals,
        releases,
        counts,
    })
}

/// Tick `t`, with the jobs that arrive at it.
fn run_tick<P: Policy, M: Tabled>(
    alloc: Global,
    sheet: &Sheet,
    mode: Mode,
    simulation: &mut Simulation,
    openings: &mut Openings,
    needed: &[PromisedTime],
    t: u64,
) -> Result<(), SimRefusal>
    requires time { t ≤ most_ticks }
    requires served { Serves M.cuts sheet.now }
    requires kept { IsKept P.meaning M.cuts sheet.now t simulation.old }
    requires stage { moment_of simulation.old ≡
        moment_after (world_by P.meaning M.cuts sheet.now mode) t }
    requires openings { AreOpenings sheet.now (run_of simulation.old) t openings.old }
    requires needed { AreNeededTimes sheet.now.supply needed.now }
    ensures moment { OnOk result (moment_of simulation.new ≡
        moment_after (world_by P.meaning M.cuts sheet.now mode) (suc t)) }
    ensures kept { OnOk result (IsKept P.meaning M.cuts sheet.now (suc t) simulation.new) }
    ensures openings { OnOk result
        (AreOpenings sheet.now (run_of simulation.new) (suc t) openings.new) }
    ensures refusal { IfErr result (IsRefusal
        (moment_with (world_by P.meaning M.cuts sheet.now mode) t
        (length sheet.now.tasks)).run.jobs) }
{
    let_in::<P, M>(sheet, simulation, t)?;
    arrive::<P, M>(alloc, sheet, mode, simulation, openings, t)?;
    add_tick::<P, M>(sheet, mode, needed, simulation, t)?;
    Ok(())
}

/// The simulated run of a sheet's first `n` ticks, up to 100,000; `supply` is what the sheet states.
///
/// The run complies with the sheet, and can be written. In mode dense as many jobs arrive at each tick
/// as the curves still admit. It is refused by `Jobs` where it
/// has more than 20,000 jobs, and by `Segments` where their segments are more than 1,000,000, as soon
/// as a job passes a limit; a job that passes both limits passes `Jobs`.
pub fn simulate<P: Policy, M: Tabled, S: Supply>(
    alloc: Global,
    sheet: &Sheet,
    supply: &S,
    mode: Mode,
    n: u64,
) -> Result<Run, SimRefusal>
    requires ticks { n ≤ most_ticks }
    requires served { Serves M.cuts sheet.now }
    requires stated { S.sbf supply.now ≡ sbf_of sheet.now.supply }
    ensures exact { IsSimulation
        (world_of P.meaning M.cuts (S.sbf supply.now) sheet.now mode) n result }
    ensures complies { IfOk result (IsCompliant P.meaning M.cuts (S.sbf supply.now) sheet.now) }
    ensures full { mode ≡ Dense → IfOk result (IsDense sheet.now n) }
    ensures within { IfOk result IsWithinLimits }
{
    // what the clauses rest on
    supply.known();
    simulation_complies::<P, M, S>();
    dense_is_full::<P, M, S>();
    let mut simulation = start::<P, M>(alloc, sheet, mode)?;
    let mut openings = open_all(alloc, sheet.len())?;
    let needed = needed_times(alloc, sheet)?;
    for t in 0..n {
        run_tick::<P, M>(
            alloc,
            sheet,
            mode,
            &mut simulation,
            &mut openings,
            &needed,
            t,
        )?;
    }
    let Simulation { jobs, ticks, .. } = simulation;
    Ok(Run {
        jobs: Items::new(jobs),
        ticks: Items::new(ticks),
    })
}
