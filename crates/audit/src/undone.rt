//! How far a run has come at a tick.
ghost use Rattle.std.specs.Prelude.{◌≡◌, ◌+◌, ◌<◌, ◌≤◌, ◌↔◌, ℕ, IfOk, IsTrue, length, slice_index_or};
ghost use Rattle.audit.specs.ArrivalOrder.{IsOrder, arrival_at};
ghost use Rattle.audit.specs.UndoneJobs.{IsLeft, IsFront, AreDoneBefore, ArePlaces, AreBelow, IsReady, AreUndone, AreLinked, AreNextPlaces, served_at};
ghost use Rattle.audit.specs.Premises.{IsSmall};
ghost use Rattle.audit.specs.ServiceCounts.{IsServed};

use crate::arrivals::{Arrival, arrival_order};
use crate::releases::task_of;
use crate::service_counts::{no_service, serve, zeros};
use run_model::Run;
use std::alloc::{AllocError, Global};

/// The service of each job so far, the jobs in the order of their arrivals, for each place in that
/// order the next one of the same task, and for each task a place before which its jobs are done.
#[derive(Drop)]
pub struct UndoneJobs {
    pub served: Vec<u64>,
    pub order: Vec<Arrival>,
    pub nexts: Vec<u64>,
    pub places: Vec<u64>,
}

/// For each place in the order of arrivals the next one of the same task.
#[tactic(auto, using(crate::proofs::LinkFacts::linked_none, crate::proofs::LinkFacts::linked_more, crate::proofs::LinkFacts::linked_all))]
fn next_places(
    alloc: Global,
    run: &Run,
    order: &[Arrival],
    tasks: u32,
) -> Result<Vec<u64>, AllocError>
    requires order { IsOrder run.now order.now }
    requires tasks { AreBelow run.now tasks }
    ensures { IfOk result (λ v. AreNextPlaces run.now order.now v.items) }
{
    let end = order.len() as u64;
    let mut firsts = vec![in alloc; end; tasks as usize]?;
    let mut nexts = vec![in alloc; end; order.len()]?;
    for i in (0..order.len()).rev() {
        let o = task_of(run, order[i].job);
        nexts[i] = firsts[o];
        firsts[o] = i as u64;
    }
    Ok(nexts)
}

/// Whether job `k` is of task `o` and not done.
fn is_left(run: &Run, served: &[u64], o: usize, k: u32) -> bool
    requires job { k < length run.now.jobs }
    requires served { length served.now ≡ length run.now.jobs }
    ensures { IsTrue result ↔ IsLeft run.now served.now o k }
{
    let job = &run.jobs.as_slice()[k as usize];
    job.task as usize == o && served[k as usize] < job.cost
}

/// The place to look at after this one, whose job is not left of task `o`.
#[tactic(auto, using(crate::proofs::UndoneFacts::past_more, crate::proofs::UndoneFacts::past_jump))]
fn place_after(
    run: &Run,
    served: &[u64],
    order: &[Arrival],
    nexts: &[u64],
    o: usize,
    place: u64,
) -> u64
    requires listed { place < length order.now }
    requires served { length served.now ≡ length run.now.jobs }
    requires order { IsOrder run.now order.now }
    requires nexts { AreNextPlaces run.now order.now nexts.now }
    requires past { AreDoneBefore run.now served.now order.now o place }
    requires done { IsLeft run.now served.now o (arrival_at order.now place).job → ⊥ }
    ensures past { AreDoneBefore run.now served.now order.now o result }
    ensures later { place < result }
{
    if task_of(run, order[place as usize].job) == o {
        nexts[place as usize]
    } else {
        place + 1
    }
}

/// The first place from this one on whose job is of task `o` and not done.
fn next_place(
    run: &Run,
    served: &[u64],
    order: &[Arrival],
    nexts: &[u64],
    o: usize,
    place: u64,
) -> u64
    requires served { length served.now ≡ length run.now.jobs }
    requires order { IsOrder run.now order.now }
    requires nexts { AreNextPlaces run.now order.now nexts.now }
    requires past { AreDoneBefore run.now served.now order.now o place }
    ensures past { AreDoneBefore run.now served.now order.now o result }
    ensures left { result < length order.now →
        IsLeft run.now served.now o (arrival_at order.now result).job }
{
    let mut place = place;
    while place < order.len() as u64 {
        if is_left(run, served, o, order[place as usize].job) {
            return place;
        }
        place = place_after(run, served, order, nexts, o, place);
    }
    place
}

/// The first job of task `o` that is not done.
fn front_of(
    run: &Run,
    served: &[u64],
    order: &[Arrival],
    nexts: &[u64],
    places: &mut [u64],
    o: usize,
) -> Option<u32>
    requires task { o < length places.old }
    requires served { length served.now ≡ length run.now.jobs }
    requires order { IsOrder run.now order.now }
    requires nexts { AreNextPlaces run.now order.now nexts.now }
    requires places { ArePlaces run.now served.now order.now places.old }
    ensures front { IsFront run.now served.now o result }
    ensures places { ArePlaces run.now served.now order.now places.new }
{
    let place = next_place(run, served, order, nexts, o, places[o]);
    places[o] = place;
    if place < order.len() as u64 {
        Some(order[place as usize].job)
    } else {
        None
    }
}

impl UndoneJobs {
    /// Before tick 0, for the jobs of so many tasks.
    pub fn new(alloc: Global, run: &Run, tasks: u32) -> Result<UndoneJobs, AllocError>
        requires small { IsSmall run.now }
        requires tasks { AreBelow run.now tasks }
        ensures { IfOk result (AreUndone run.now 0) }
    {
        let served = no_service(alloc, run)?;
        let order = arrival_order(alloc, run)?;
        let nexts = next_places(alloc, run, &order, tasks)?;
        let places = zeros(alloc, tasks as usize)?;
        Ok(UndoneJobs {
            served,
            order,
            nexts,
            places,
        })
    }

    /// How many tasks there are.
    pub fn tasks(&self) -> usize
        ensures { result ≡ length self.now.places.items }
    {
        self.places.len()
    }

    /// The first job of task `o` that is not done.
    pub fn front(&mut self, run: &Run, o: usize) -> Option<u32>
        requires task { o < length self.old.places.items }
        requires ready { IsReady run.now self.old }
        ensures front { IsFront run.now self.old.served.items o result }
        ensures served { self.new.served.items ≡ self.old.served.items }
        ensures tasks { length self.new.places.items ≡ length self.old.places.items }
        ensures undone { (t : ℕ) → AreUndone run.now t self.old → AreUndone run.now t self.new }
    {
        front_of(
            run,
            &self.served,
            &self.order,
            &self.nexts,
            &mut self.places,
            o,
        )
    }

    /// Counts the service of tick `t`.
    pub fn serve(&mut self, run: &Run, t: u64)
        requires small { IsSmall run.now }
        requires tick { t < length run.now.ticks }
        requires undone { AreUndone run.now t self.old }
        ensures { AreUndone run.now (t + 1) self.new }
    {
        serve(run, &mut self.served, t);
    }
}
