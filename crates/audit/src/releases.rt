//! The rule on releases.
ghost use Rattle.std.specs.Prelude.{◌≡◌, ◌≤◌, ◌<◌, ◌+◌, ◌&&◌, IfOk, cond, length, nat_le, true};
ghost use Rattle.lists.specs.Searches.{IsFirstBelow};
ghost use Rattle.task_sheet.specs.Sheets.{IsOf};
ghost use Rattle.run_model.specs.Runs.{job_at};
ghost use Rattle.schedule_laws.specs.Tests.{AreOf, is_timely, is_release_broken};
ghost use Rattle.audit.specs.ArrivalOrder.{IsOrder};
ghost use Rattle.audit.specs.Releases.{lesser_of, AreLatest, IsLeastBroken};
ghost use Rattle.audit.specs.Premises.{IsSmall};

use crate::arrivals::{Arrival, arrival_order};
use crate::service_counts::zeros;
use run_model::Run;
use std::alloc::{AllocError, Global};
use task_sheet::Sheet;

/// The task of job `k`.
pub fn task_of(run: &Run, k: u32) -> usize
    requires { k < length run.now.jobs }
    ensures { result ≡ (job_at run.now k).task }
{
    run.jobs.as_slice()[k as usize].task as usize
}

/// The release of job `k`.
fn release_of(run: &Run, k: u32) -> u64
    requires { k < length run.now.jobs }
    ensures { result ≡ (job_at run.now k).release }
{
    run.jobs.as_slice()[k as usize].release
}

/// Whether job `k` is released at its arrival or later, by its task's jitter at most, and no earlier
/// than `latest`.
fn is_in_time(sheet: &Sheet, run: &Run, k: u32, latest: u64) -> bool
    requires job { k < length run.now.jobs }
    requires task { IsOf sheet.now (job_at run.now k) }
    ensures { result ≡
        (is_timely sheet.now (job_at run.now k) && nat_le latest (job_at run.now k).release) }
{
    let job = &run.jobs.as_slice()[k as usize];
    job.arrival <= job.release
        && job.release - job.arrival <= sheet.task(job.task).jitter
        && latest <= job.release
}

/// The least job that is not in time, with one more.
fn least_late(least: Option<u32>, k: u32, in_time: bool) -> Option<u32>
    ensures { result ≡ cond in_time least (lesser_of least k) }
{
    if in_time {
        return least;
    }
    match least {
        Some(n) => Some(n.min(k)),
        None => Some(k),
    }
}

/// The least of the first jobs that is not released as its task allows, with one place more.
fn judge_place(
    sheet: &Sheet,
    run: &Run,
    order: &[Arrival],
    latest: &mut [u64],
    least: Option<u32>,
    i: usize,
) -> Option<u32>
    requires tasks { AreOf sheet.now run.now }
    requires order { IsOrder run.now order.now }
    requires place { i < length order.now }
    requires count { length latest.old ≡ length sheet.now.tasks }
    requires latest { AreLatest run.now order.now i latest.old }
    requires least { IsLeastBroken sheet.now run.now order.now i least }
    ensures count { length latest.new ≡ length latest.old }
    ensures latest { AreLatest run.now order.now (i + 1) latest.new }
    ensures least { IsLeastBroken sheet.now run.now order.now (i + 1) result }
{
    let k = order[i].job;
    let o = task_of(run, k);
    let in_time = is_in_time(sheet, run, k, latest[o]);
    latest[o] = latest[o].max(release_of(run, k));
    least_late(least, k, in_time)
}

/// The least job that is not released as its task allows.
///
/// A job is released too early for its task where one before it, by arrival and then by release, is
/// released later. So the greatest release so far of each task decides.
fn least_unreleased(sheet: &Sheet, run: &Run, order: &[Arrival], latest: &mut [u64]) -> Option<u32>
    requires tasks { AreOf sheet.now run.now }
    requires order { IsOrder run.now order.now }
    requires count { length latest.old ≡ length sheet.now.tasks }
    requires latest { AreLatest run.now order.now 0 latest.old }
    ensures { IsFirstBelow (λ k. is_release_broken sheet.now run.now k ≡ true)
        (length run.now.jobs) result }
{
    let mut least = None;
    for i in 0..order.len() {
        least = judge_place(sheet, run, order, latest, least, i);
    }
    least
}

/// The least job that is not released as its task allows.
pub fn unreleased_job(alloc: Global, sheet: &Sheet, run: &Run) -> Result<Option<u32>, AllocError>
    requires small { IsSmall run.now }
    requires tasks { AreOf sheet.now run.now }
    ensures { IfOk result (IsFirstBelow (λ k. is_release_broken sheet.now run.now k ≡ true)
        (length run.now.jobs)) }
{
    let order = arrival_order(alloc, run)?;
    let mut latest = zeros(alloc, sheet.len() as usize)?;
    Ok(least_unreleased(sheet, run, &order, &mut latest))
}
