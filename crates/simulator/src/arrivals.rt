//! The jobs that arrive at a tick.
ghost use Rattle.std.specs.Prelude.{◌≡◌, ◌≤◌, ◌<◌, ◌+◌, ◌*◌, suc, length, min, OnOk, IfOk, IfErr};
ghost use Rattle.lists.specs.Limits.{most_ticks};
ghost use Rattle.task_sheet.specs.Sheets.{task_at};
ghost use Rattle.preemption.specs.CutLaws.{Serves};
ghost use Rattle.simulated_run.specs.SimulatedRun.{with_job, add_job as add_job_by, add_jobs as add_jobs_by, arrive_of as arrive_of_by, moment_after};
ghost use Rattle.simulator.specs.Simulations.{IsRefusal};
ghost use Rattle.simulator.specs.Openings.{IsShut};
ghost use Rattle.simulator.specs.Gaps.{IsGaps};
ghost use Rattle.simulator.specs.AllOpenings.{AreOpenings, AreArriving};
ghost use Rattle.simulator.specs.SimulationState.{IsReady, IsTakenUp, IsNew, world_by, run_of, moment_of, moment_with};

use crate::gaps::{Gaps, cover, next_opening, room};
use crate::loads::draw_load;
use crate::openings::{BLOCK, Openings, least};
use crate::refusal::SimRefusal;
use crate::simulation::{Due, Simulation};
use crate::words::{draw_count, draw_release};
use lists::Items;
use lists::limits::{MOST_JOBS, MOST_SEGMENTS};
use policy::Policy;
use preemption::{Preemption, Tabled};
use simulated_run::Mode;
use std::alloc::{AllocError, Global};
use std::collections::{BTreeMap, BTreeSet};
use task_sheet::{Job, Sheet};
use urgency::{Rank, rank_of};

/// Puts a new job into the queue where it is released by `t`, else among those to come.
fn take_up(
    queue: &mut BTreeMap<Rank, u32>,
    coming: &mut BTreeSet<Due>,
    rank: Rank,
    due: Due,
    t: u64,
) -> Result<(), AllocError>
    ensures { OnOk result (IsTakenUp t rank due queue.old queue.new coming.old coming.new) }
{
    if due.release <= t {
        queue.insert(rank, due.number)?;
    } else {
        coming.insert(due)?;
    }
    Ok(())
}

/// Takes up a job that has just arrived.
fn keep_job<P: Policy, M: Preemption>(
    sheet: &Sheet,
    simulation: &mut Simulation,
    job: Job,
) -> Result<(), AllocError>
    requires time { job.arrival ≤ most_ticks }
    requires new { IsNew M.cuts sheet.now simulation.old.jobs.items job }
    requires kept { IsReady P.meaning M.cuts sheet.now job.arrival simulation.old }
    ensures run { OnOk result (run_of simulation.new ≡ with_job (run_of simulation.old) job) }
    ensures words { simulation.new.words ≡ simulation.old.words }
    ensures kept { OnOk result (IsReady P.meaning M.cuts sheet.now job.arrival simulation.new) }
{
    let number = simulation.jobs.len() as u32;
    let rank = rank_of::<P>(sheet, &job, number);
    simulation.segments += job.segs.len();
    let list = &mut simulation.arrivals[job.task as usize];
    list.push(job.arrival)?;
    simulation.releases[job.task as usize] = job.release;
    simulation.left.push(job.cost)?;
    let due = Due {
        release: job.release,
        number,
    };
    take_up(
        &mut simulation.queue,
        &mut simulation.coming,
        rank,
        due,
        job.arrival,
    )?;
    simulation.jobs.push(job)?;
    Ok(())
}

/// One more job of task `o` at `t`.
fn add_job<P: Policy, M: Tabled>(
    alloc: Global,
    sheet: &Sheet,
    mode: Mode,
    simulation: &mut Simulation,
    o: u32,
    t: u64,
) -> Result<(), SimRefusal>
    requires task { o < length sheet.now.tasks }
    requires time { t ≤ most_ticks }
    requires served { Serves M.cuts sheet.now }
    requires kept { IsReady P.meaning M.cuts sheet.now t simulation.old }
    ensures moment { OnOk result (moment_of simulation.new ≡
        add_job_by (world_by P.meaning M.cuts sheet.now mode) o t (moment_of simulation.old)) }
    ensures kept { OnOk result (IsReady P.meaning M.cuts sheet.now t simulation.new) }
    ensures refusal { IfErr result (IsRefusal
        (add_job_by (world_by P.meaning M.cuts sheet.now mode) o t
        (moment_of simulation.old)).run.jobs) }
{
    if simulation.jobs.len() >= MOST_JOBS {
        return Err(SimRefusal::Jobs);
    }
    let task = sheet.task(o);
    let spare = MOST_SEGMENTS - simulation.segments;
    let load = draw_load(
        alloc,
        mode,
        &task.cut,
        task.cost,
        spare,
        &mut simulation.words,
    )?;
    let last = simulation.releases[o as usize];
    let release = draw_release(mode, task.jitter, t, last, &mut simulation.words);
    let job = Job {
        task: o,
        arrival: t,
        release,
        cost: load.cost,
        segs: Items::new(load.segs),
    };
    keep_job::<P, M>(sheet, simulation, job)?;
    Ok(())
}

/// So many more jobs of task `o` at `t`.
fn add_jobs<P: Policy, M: Tabled>(
    alloc: Global,
    sheet: &Sheet,
    mode: Mode,
    simulation: &mut Simulation,
    o: u32,
    t: u64,
    n: u64,
) -> Result<(), SimRefusal>
    requires task { o < length sheet.now.tasks }
    requires time { t ≤ most_ticks }
    requires served { Serves M.cuts sheet.now }
    requires kept { IsReady P.meaning M.cuts sheet.now t simulation.old }
    ensures moment { OnOk result (moment_of simulation.new ≡
        add_jobs_by (world_by P.meaning M.cuts sheet.now mode) o t n (moment_of simulation.old)) }
    ensures kept { OnOk result (IsReady P.meaning M.cuts sheet.now t simulation.new) }
    ensures refusal { IfErr result (IsRefusal
        (add_jobs_by (world_by P.meaning M.cuts sheet.now mode) o t n
        (moment_of simulation.old)).run.jobs) }
{
    for i in 0..n {
        add_job::<P, M>(alloc, sheet, mode, simulation, o, t)?;
    }
    Ok(())
}

/// The jobs of task `o` that arrive at `t`.
fn arrive_of<P: Policy, M: Tabled>(
    alloc: Global,
    sheet: &Sheet,
    mode: Mode,
    simulation: &mut Simulation,
    gaps: &Gaps,
    o: u32,
    t: u64,
) -> Result<(), SimRefusal>
    requires task { o < length sheet.now.tasks }
    requires time { t ≤ most_ticks }
    requires served { Serves M.cuts sheet.now }
    requires kept { IsReady P.meaning M.cuts sheet.now t simulation.old }
    requires stage { moment_of simulation.old ≡
        moment_with (world_by P.meaning M.cuts sheet.now mode) t o }
    requires gaps { IsGaps (task_at sheet.now o).curve gaps.now }
    ensures moment { OnOk result (moment_of simulation.new ≡
        arrive_of_by (world_by P.meaning M.cuts sheet.now mode) o t (moment_of simulation.old)) }
    ensures kept { OnOk result (IsReady P.meaning M.cuts sheet.now t simulation.new) }
    ensures refusal { IfErr result (IsRefusal
        (arrive_of_by (world_by P.meaning M.cuts sheet.now mode) o t
        (moment_of simulation.old)).run.jobs) }
{
    let curve = &sheet.task(o).curve;
    let room = room(curve, gaps, &simulation.arrivals[o as usize], t);
    let n = draw_count(mode, room, &mut simulation.words);
    add_jobs::<P, M>(alloc, sheet, mode, simulation, o, t, n)
}

/// The jobs of task `o` that arrive at `t`, none of which may before `start`; and from when on the
/// next may.
fn arrive_from<P: Policy, M: Tabled>(
    alloc: Global,
    sheet: &Sheet,
    mode: Mode,
    simulation: &mut Simulation,
    gaps: &mut Gaps,
    o: u32,
    t: u64,
    start: u64,
) -> Result<u64, SimRefusal>
    requires task { o < length sheet.now.tasks }
    requires time { t ≤ most_ticks }
    requires served { Serves M.cuts sheet.now }
    requires kept { IsReady P.meaning M.cuts sheet.now t simulation.old }
    requires stage { moment_of simulation.old ≡
        moment_with (world_by P.meaning M.cuts sheet.now mode) t o }
    requires shut { IsShut sheet.now o (run_of simulation.old) t start }
    requires gaps { IsGaps (task_at sheet.now o).curve gaps.old }
    ensures moment { OnOk result (moment_of simulation.new ≡
        arrive_of_by (world_by P.meaning M.cuts sheet.now mode) o t (moment_of simulation.old)) }
    ensures kept { OnOk result (IsReady P.meaning M.cuts sheet.now t simulation.new) }
    ensures gaps { OnOk result (IsGaps (task_at sheet.now o).curve gaps.new) }
    ensures shut { IfOk result (IsShut sheet.now o (run_of simulation.new) (suc t)) }
    ensures refusal { IfErr result (IsRefusal
        (arrive_of_by (world_by P.meaning M.cuts sheet.now mode) o t
        (moment_of simulation.old)).run.jobs) }
{
    if t < start {
        return Ok(start);
    }
    let curve = &sheet.task(o).curve;
    cover(curve, gaps, &simulation.arrivals[o as usize])?;
    arrive_of::<P, M>(alloc, sheet, mode, simulation, gaps, o, t)?;
    let arrivals = simulation.arrivals[o as usize].as_slice();
    Ok(next_opening(curve, gaps, arrivals, t + 1))
}

/// The jobs of the tasks of block `b` that arrive at `t`.
fn arrive_block<P: Policy, M: Tabled>(
    alloc: Global,
    sheet: &Sheet,
    mode: Mode,
    simulation: &mut Simulation,
    openings: &mut Openings,
    b: u32,
    t: u64,
) -> Result<(), SimRefusal>
    requires time { t ≤ most_ticks }
    requires block { 16 * b ≤ length sheet.now.tasks }
    requires listed { b < length openings.old.firsts.items }
    requires served { Serves M.cuts sheet.now }
    requires kept { IsReady P.meaning M.cuts sheet.now t simulation.old }
    requires stage { moment_of simulation.old ≡
        moment_with (world_by P.meaning M.cuts sheet.now mode) t (16 * b) }
    requires openings { AreArriving sheet.now (run_of simulation.old) t (16 * b) openings.old }
    ensures moment { OnOk result (moment_of simulation.new ≡
        moment_with (world_by P.meaning M.cuts sheet.now mode) t
        (min (16 * b + 16) (length sheet.now.tasks))) }
    ensures kept { OnOk result (IsReady P.meaning M.cuts sheet.now t simulation.new) }
    ensures openings { OnOk result (AreArriving sheet.now (run_of simulation.new) t
        (min (16 * b + 16) (length sheet.now.tasks)) openings.new) }
    ensures refusal { IfErr result (IsRefusal
        (moment_with (world_by P.meaning M.cuts sheet.now mode) t
        (length sheet.now.tasks)).run.jobs) }
{
    if t < openings.firsts[b as usize] {
        return Ok(());
    }
    let tasks = sheet.len();
    let from = BLOCK * b;
    let to = (from + BLOCK).min(tasks);
    let mut first = u64::MAX;
    for o in from..to {
        let before = openings.ticks[o as usize];
        let gaps = &mut openings.gaps[o as usize];
        let next = arrive_from::<P, M>(alloc, sheet, mode, simulation, gaps, o, t, before)?;
        openings.ticks[o as usize] = next;
        first = first.min(next);
    }
    openings.firsts[b as usize] = first;
    Ok(())
}

/// The jobs of all tasks that arrive at `t`.
fn arrive_each<P: Policy, M: Tabled>(
    alloc: Global,
    sheet: &Sheet,
    mode: Mode,
    simulation: &mut Simulation,
    openings: &mut Openings,
    t: u64,
) -> Result<(), SimRefusal>
    requires time { t ≤ most_ticks }
    requires served { Serves M.cuts sheet.now }
    requires kept { IsReady P.meaning M.cuts sheet.now t simulation.old }
    requires stage { moment_of simulation.old ≡
        moment_after (world_by P.meaning M.cuts sheet.now mode) t }
    requires openings { AreOpenings sheet.now (run_of simulation.old) t openings.old }
    ensures moment { OnOk result (moment_of simulation.new ≡
        moment_with (world_by P.meaning M.cuts sheet.now mode) t (length sheet.now.tasks)) }
    ensures kept { OnOk result (IsReady P.meaning M.cuts sheet.now t simulation.new) }
    ensures openings { OnOk result
        (AreOpenings sheet.now (run_of simulation.new) (suc t) openings.new) }
    ensures refusal { IfErr result (IsRefusal
        (moment_with (world_by P.meaning M.cuts sheet.now mode) t
        (length sheet.now.tasks)).run.jobs) }
{
    let tasks = sheet.len();
    for b in 0..tasks / BLOCK + 1 {
        arrive_block::<P, M>(alloc, sheet, mode, simulation, openings, b, t)?;
    }
    openings.first = least(&openings.firsts);
    Ok(())
}

/// The same, with nothing to do before the first tick at which a job may arrive.
pub fn arrive<P: Policy, M: Tabled>(
    alloc: Global,
    sheet: &Sheet,
    mode: Mode,
    simulation: &mut Simulation,
    openings: &mut Openings,
    t: u64,
) -> Result<(), SimRefusal>
    requires time { t ≤ most_ticks }
    requires served { Serves M.cuts sheet.now }
    requires kept { IsReady P.meaning M.cuts sheet.now t simulation.old }
    requires stage { moment_of simulation.old ≡
        moment_after (world_by P.meaning M.cuts sheet.now mode) t }
    requires openings { AreOpenings sheet.now (run_of simulation.old) t openings.old }
    ensures moment { OnOk result (moment_of simulation.new ≡
        moment_with (world_by P.meaning M.cuts sheet.now mode) t (length sheet.now.tasks)) }
    ensures kept { OnOk result (IsReady P.meaning M.cuts sheet.now t simulation.new) }
    ensures openings { OnOk result
        (AreOpenings sheet.now (run_of simulation.new) (suc t) openings.new) }
    ensures refusal { IfErr result (IsRefusal
        (moment_with (world_by P.meaning M.cuts sheet.now mode) t
        (length sheet.now.tasks)).run.jobs) }
{
    if t < openings.first {
        return Ok(());
    }
    arrive_each::<P, M>(alloc, sheet, mode, simulation, openings, t)
}
