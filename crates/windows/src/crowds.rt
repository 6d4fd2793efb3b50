//! The first job with which more have arrived than a curve says.
ghost use Rattle.std.specs.Prelude.{◌≡◌, ◌≤◌, ◌<◌, ◌+◌, ◌↔◌, ℕ, length, IsTrue, IfOk, IfSome, slice_index};
ghost use Rattle.std.specs.List.Sorted.{IsNonDecreasing};
ghost use Rattle.lists.specs.Limits.{most_jobs, greatest_number};
ghost use Rattle.curve.specs.Validity.{IsCurve};
ghost use Rattle.lists.specs.Searches.{IsFirstBelow};
ghost use Rattle.schedule_laws.specs.Tests.{AreOf, AreEarly};
ghost use Rattle.windows.specs.Crowds.{IsFirstCrowded, IsFirstJob, IsCrowdedOf, ArrivesAt, AreArrivals, AreEmpty, AreListed, AreSortedTo, earlier_of, comes_first as comes_first_by, IsCrowdedPair, IsFirstCrowdedTick};
ghost use Rattle.windows.specs.Distances.{AreNeededOf};

use crate::distances::{Distance, needed_distances};
use crate::keeping::keep_all;
use curve::Prefix;
use run_model::Run;
use std::alloc::{AllocError, Global};
use task_sheet::Sheet;

/// The first crowded job of a run, by arrival, then by number.
///
/// It looks at the windows that begin and end with an arrival of one task.
pub fn first_crowded(alloc: Global, sheet: &Sheet, run: &Run) -> Result<Option<u32>, AllocError>
    requires few { length run.now.jobs ≤ most_jobs }
    requires tasks { AreOf sheet.now run.now }
    requires arrivals { AreEarly run.now }
    ensures { IfOk result (IsFirstCrowded sheet.now run.now) }
{
    let arrivals = arrivals_by_task(alloc, sheet, run)?;
    let mut first = None;
    for o in 0..sheet.len() {
        let other = first_crowded_of(alloc, sheet, run, &arrivals[o as usize], o)?;
        first = earlier(run, first, other);
    }
    Ok(first)
}

/// The first crowded job of task `o`, whose arrivals are these.
fn first_crowded_of(
    alloc: Global,
    sheet: &Sheet,
    run: &Run,
    arrivals: &[u64],
    o: u32,
) -> Result<Option<u32>, AllocError>
    requires few { length run.now.jobs ≤ most_jobs }
    requires task { o < length sheet.now.tasks }
    requires early { AreEarly run.now }
    requires arrivals { AreArrivals run.now o arrivals.now }
    ensures { IfOk result (IsFirstJob (IsCrowdedOf sheet.now run.now o) run.now) }
{
    match first_crowded_tick(alloc, &sheet.task(o).curve, arrivals)? {
        Some(tick) => Ok(first_at(run, o, tick)),
        None => Ok(None),
    }
}

/// Whether job `k` arrives before job `n`, or at the same tick and has no greater number.
fn comes_first(run: &Run, k: u32, n: u32) -> bool
    requires job { k < length run.now.jobs }
    requires other { n < length run.now.jobs }
    ensures { result ≡ comes_first_by run.now k n }
{
    let jobs = run.jobs.as_slice();
    let mine = jobs[k as usize].arrival;
    let other = jobs[n as usize].arrival;
    mine < other || (mine == other && k <= n)
}

/// The job that comes first, where there is one.
fn earlier(run: &Run, a: Option<u32>, b: Option<u32>) -> Option<u32>
    requires a { IfSome a (λ k. k < length run.now.jobs) }
    requires b { IfSome b (λ k. k < length run.now.jobs) }
    ensures { result ≡ earlier_of run.now a b }
{
    match (a, b) {
        (None, b) => b,
        (Some(k), None) => Some(k),
        (Some(k), Some(n)) => {
            if comes_first(run, k, n) {
                Some(k)
            } else {
                Some(n)
            }
        }
    }
}

/// The least job of task `o` that arrives at `tick`.
fn first_at(run: &Run, o: u32, tick: u64) -> Option<u32>
    requires few { length run.now.jobs ≤ most_jobs }
    ensures { IsFirstBelow (ArrivesAt run.now o tick) (length run.now.jobs) result }
{
    for k in 0..run.jobs.len() as u32 {
        let job = &run.jobs.as_slice()[k as usize];
        if job.task == o && job.arrival == tick {
            return Some(k);
        }
    }
    None
}

/// So many empty lists.
#[tactic(auto, using(crate::proofs::ListedFacts::empty_more))]
fn empty_lists(alloc: Global, count: usize) -> Result<Vec<Vec<u64>>, AllocError>
    ensures count { IfOk result (λ v. length v.items ≡ count) }
    ensures empty { IfOk result (λ v. AreEmpty v.items) }
{
    let mut lists = Vec::with_capacity(alloc, count)?;
    for _list in 0..count {
        lists.push(Vec::new(alloc))?;
    }
    Ok(lists)
}

/// The arrivals of the jobs of each task, in the order of the jobs.
#[tactic(auto, using(crate::proofs::ListedFacts::listed_none, crate::proofs::ListedFacts::listed_more))]
fn listed_arrivals(alloc: Global, sheet: &Sheet, run: &Run) -> Result<Vec<Vec<u64>>, AllocError>
    requires few { length run.now.jobs ≤ most_jobs }
    requires tasks { AreOf sheet.now run.now }
    ensures count { IfOk result (λ v. length v.items ≡ length sheet.now.tasks) }
    ensures listed { IfOk result (λ v. AreListed run.now (length run.now.jobs) v.items) }
{
    let mut lists = empty_lists(alloc, sheet.len() as usize)?;
    for k in 0..run.jobs.len() {
        let job = &run.jobs.as_slice()[k];
        lists[job.task as usize].push(job.arrival)?;
    }
    Ok(lists)
}

/// The arrivals of the jobs of each task, in ascending order.
#[tactic(auto, using(crate::proofs::ListedFacts::half_none))]
fn arrivals_by_task(alloc: Global, sheet: &Sheet, run: &Run) -> Result<Vec<Vec<u64>>, AllocError>
    requires few { length run.now.jobs ≤ most_jobs }
    requires tasks { AreOf sheet.now run.now }
    ensures count { IfOk result (λ v. length v.items ≡ length sheet.now.tasks) }
    ensures sorted { IfOk result (λ v. AreSortedTo run.now (length v.items) v.items) }
{
    let mut lists = listed_arrivals(alloc, sheet, run)?;
    for o in 0..lists.len() {
        lists[o].sort_unstable();
    }
    Ok(lists)
}

/// The first of the arrivals with whose tick more have arrived than the curve says.
fn first_crowded_tick(
    alloc: Global,
    curve: &Prefix,
    arrivals: &[u64],
) -> Result<Option<u64>, AllocError>
    requires curve { IsCurve curve.now }
    requires ascending { IsNonDecreasing arrivals.now }
    requires early { (i : ℕ) → i < length arrivals.now →
        slice_index arrivals.now i ≤ greatest_number }
    ensures { IfOk result (IsFirstCrowdedTick curve.now arrivals.now) }
{
    let needed = needed_distances(alloc, curve, arrivals.len())?;
    if keep_all(curve, &needed, arrivals) {
        return Ok(None);
    }
    for j in 0..arrivals.len() {
        if has_crowded_pair(curve, &needed, arrivals, j) {
            return Ok(Some(arrivals[j]));
        }
    }
    Ok(None)
}

/// Whether in some window from an arrival to arrival `j` the arrivals from the one to the other are
/// more than the curve says, where in none to an earlier arrival they are.
fn has_crowded_pair(curve: &Prefix, needed: &[Distance], arrivals: &[u64], j: usize) -> bool
    requires ascending { IsNonDecreasing arrivals.now }
    requires early { (i : ℕ) → i < length arrivals.now →
        slice_index arrivals.now i ≤ greatest_number }
    requires needed { AreNeededOf curve.now (length arrivals.now) needed.now }
    requires free { (k i : ℕ) → k < j → IsCrowdedPair curve.now arrivals.now k i → ⊥ }
    requires listed { j < length arrivals.now }
    ensures { IsTrue result ↔ ((i : ℕ) × IsCrowdedPair curve.now arrivals.now j i) }
{
    let end = arrivals[j] + 1;
    for n in 0..needed.len() {
        let distance = needed[n];
        if distance.apart > j {
            return false;
        }
        // a window shorter than their span does not admit them
        if end - arrivals[j - distance.apart] < distance.span {
            return true;
        }
    }
    false
}
