//! What the processor does at a tick.
ghost use Rattle.std.specs.Prelude.{◌≡◌, ◌≤◌, ◌<◌, ℕ, true, None, Some, suc, cond, length, OnOk};
ghost use Rattle.std.specs.BTreeMap.{Updates};
ghost use Rattle.lists.specs.Limits.{most_ticks};
ghost use Rattle.task_sheet.specs.Sheets.{IsTask};
ghost use Rattle.preemption.specs.CutLaws.{Serves};
ghost use Rattle.run_model.specs.declared.run.Tick.TheVariants.{Off, Runs as RunsJob};
ghost use Rattle.run_model.specs.Runs.{is_on as is_on_by};
ghost use Rattle.simulated_run.specs.SimulatedRun.{World, choice, with_tick, add_tick as add_tick_by};
ghost use Rattle.urgency.specs.Ranks.{rank_cmp};
ghost use Rattle.windows.specs.Times.{AreNeededTimes};
ghost use Rattle.simulator.specs.SimulationState.{IsKept, IsReady, IsKeptAt, IsRunnable, MayBe, FloatsBy, KeepsRest, HasCuts, world_by, run_of, moment_of, moment_with};

use crate::simulation::Simulation;
use crate::words::draw_off;
use policy::Policy;
use preemption::Tabled;
use run_model::Tick;
use simulated_run::Mode;
use std::alloc::AllocError;
use std::collections::BTreeMap;
use task_sheet::{Cut, Job, Sheet, Task};
use urgency::{Rank, first_entry, rank_of};
use windows::{PromisedTime, off_allowed_by};

/// What the processor does where it is supplied.
fn choose(simulation: &Simulation) -> Tick
    ensures { (w : World) (t : ℕ) → IsReady w.policy w.cuts w.sheet t simulation.now → result ≡
        choice w (run_of simulation.now) t }
{
    if let Some(k) = simulation.inside {
        return Tick::Runs(k);
    }
    match first_entry(&simulation.queue) {
        Some(k) => Tick::Runs(k),
        None => Tick::Idle,
    }
}

/// What the processor does, and nothing where it is off.
fn pick(simulation: &Simulation, off: bool) -> Tick
    ensures tick { (w : World) (t : ℕ) → IsReady w.policy w.cuts w.sheet t simulation.now → result ≡
        cond off Off (choice w (run_of simulation.now) t) }
    ensures may { (w : World) (t : ℕ) → HasCuts w →
        IsReady w.policy w.cuts w.sheet t simulation.now → MayBe simulation.now t result }
{
    if off { Tick::Off } else { choose(simulation) }
}

/// Takes a job out of the queue, if nothing of it is left.
fn leave(queue: &mut BTreeMap<Rank, u32>, rank: Rank, rest: u64)
    ensures done { rest ≡ 0 → Updates rank_cmp queue.old queue.new rank None }
    ensures stays { 0 < rest → queue.new ≡ queue.old }
{
    if rest == 0 {
        queue.remove(&rank);
    }
}

/// Whether a job can be cut once it has had `s` ticks of service.
///
/// Segments that float are looked at together: they are cut at the multiples of their bound.
fn can_cut<M: Tabled>(task: &Task, job: &Job, s: u64) -> bool
    requires valid { IsTask task.now }
    requires serves { M.cuts.serves task.now ≡ true }
    requires floats { FloatsBy task.now.cut job.now }
    ensures { result ≡ M.cuts.cuttable task.now job.now s }
{
    match task.cut {
        Cut::Floating(bound) => s % bound == 0 || job.cost <= s,
        _ => M::cuttable(task, job, s),
    }
}

/// The job, where it cannot be cut.
fn segment_of(cut: bool, k: u32) -> Option<u32>
    ensures { result ≡ cond cut None (Some k) }
{
    if cut { None } else { Some(k) }
}

/// Runs job `k` for a tick.
fn run_job<P: Policy, M: Tabled>(sheet: &Sheet, simulation: &mut Simulation, k: u32)
    requires runnable { IsRunnable simulation.old (length simulation.old.ticks.items) k }
    requires time { length simulation.old.ticks.items ≤ most_ticks }
    requires served { Serves M.cuts sheet.now }
    requires kept { IsReady P.meaning M.cuts sheet.now
        (length simulation.old.ticks.items) simulation.old }
    ensures rest { KeepsRest simulation.old simulation.new }
    ensures kept { IsKeptAt P.meaning M.cuts sheet.now (suc (length simulation.old.ticks.items))
        (suc (length simulation.old.ticks.items)) (suc (length simulation.old.ticks.items))
        (with_tick (run_of simulation.old) (RunsJob k)) simulation.new.left.items
        simulation.new.queue simulation.new.coming simulation.new.inside }
{
    // the sheet is valid, by a clause of this call
    let _valid = sheet.len();
    let rest = simulation.left[k as usize] - 1;
    simulation.left[k as usize] = rest;
    let job = &simulation.jobs[k as usize];
    let rank = rank_of::<P>(sheet, job, k);
    let cut = can_cut::<M>(sheet.task(job.task), job, job.cost - rest);
    leave(&mut simulation.queue, rank, rest);
    simulation.inside = segment_of(cut, k);
}

/// What a tick does to its job.
fn advance<P: Policy, M: Tabled>(sheet: &Sheet, simulation: &mut Simulation, tick: Tick)
    requires tick { MayBe simulation.old (length simulation.old.ticks.items) tick }
    requires time { length simulation.old.ticks.items ≤ most_ticks }
    requires served { Serves M.cuts sheet.now }
    requires kept { IsReady P.meaning M.cuts sheet.now
        (length simulation.old.ticks.items) simulation.old }
    ensures rest { KeepsRest simulation.old simulation.new }
    ensures kept { IsKeptAt P.meaning M.cuts sheet.now (suc (length simulation.old.ticks.items))
        (suc (length simulation.old.ticks.items)) (suc (length simulation.old.ticks.items))
        (with_tick (run_of simulation.old) tick) simulation.new.left.items simulation.new.queue
        simulation.new.coming simulation.new.inside }
{
    if let Tick::Runs(k) = tick {
        run_job::<P, M>(sheet, simulation, k);
    }
}

/// 1 for a tick that is supplied, else 0.
fn count_on(tick: Tick) -> u64
    ensures { result ≡ cond (is_on_by tick) 1 0 }
{
    match tick {
        Tick::Off => 0,
        Tick::Idle | Tick::Runs(_) => 1,
    }
}

/// Tick `t`, once its jobs have arrived.
pub fn add_tick<P: Policy, M: Tabled>(
    sheet: &Sheet,
    mode: Mode,
    needed: &[PromisedTime],
    simulation: &mut Simulation,
    t: u64,
) -> Result<(), AllocError>
    requires time { t ≤ most_ticks }
    requires served { Serves M.cuts sheet.now }
    requires kept { IsReady P.meaning M.cuts sheet.now t simulation.old }
    requires stage { moment_of simulation.old ≡
        moment_with (world_by P.meaning M.cuts sheet.now mode) t (length sheet.now.tasks) }
    requires needed { AreNeededTimes sheet.now.supply needed.now }
    ensures moment { OnOk result (moment_of simulation.new ≡
        add_tick_by (world_by P.meaning M.cuts sheet.now mode) t (moment_of simulation.old)) }
    ensures kept { OnOk result (IsKept P.meaning M.cuts sheet.now (suc t) simulation.new) }
{
    // the sheet is valid, by a clause of this call
    let _valid = sheet.len();
    let may = off_allowed_by(sheet, needed, &simulation.counts, t);
    let off = draw_off(mode, may, &mut simulation.words);
    let tick = pick(simulation, off);
    advance::<P, M>(sheet, simulation, tick);
    let count = simulation.counts[t as usize] + count_on(tick);
    simulation.counts.push(count)?;
    simulation.ticks.push(tick)?;
    Ok(())
}
