//! The least job that breaks a rule of scheduling at a tick.
ghost use Rattle.std.specs.Prelude.{◌≡◌, ◌<◌, ◌≤◌, ◌^◌, ℕ, length, true};
ghost use Rattle.lists.specs.Searches.{IsFirstBelow};
ghost use Rattle.policy.specs.Keys.{key_le};
ghost use Rattle.task_sheet.specs.Sheets.{IsOf};
ghost use Rattle.run_model.specs.Runs.{job_at, tick_at};
ghost use Rattle.run_model.specs.declared.run.Tick.TheVariants.{Runs};
ghost use Rattle.schedule_laws.specs.Compliance.{can_cut};
ghost use Rattle.schedule_laws.specs.Tests.{AreOf, AreEarly, is_idle_broken as is_idle_broken_by, is_segment_broken as is_segment_broken_by, is_priority_broken as is_priority_broken_by};

use policy::Policy;
use preemption::Preemption;
use run_model::{Run, Tick, is_pending, service};
use task_sheet::Sheet;

/// Whether tick `t` is idle and job `k` is pending there.
#[tactic(auto, using(crate::proofs::TestFacts::pending_is), unfolding(crate::specs::Tests::is_idle_broken))]
fn is_idle_broken(run: &Run, t: u64, k: u32) -> bool
    requires job { k < length run.now.jobs }
    requires tick { t < length run.now.ticks }
    ensures { result ≡ is_idle_broken_by run.now t k }
{
    match run.ticks.as_slice()[t as usize] {
        Tick::Idle => is_pending(run, k, t),
        Tick::Off | Tick::Runs(_) => false,
    }
}

/// The least job that is pending at tick `t`, where that is idle.
pub fn idle_broken(run: &Run, t: u64) -> Option<u32>
    requires few { length run.now.jobs < 2 ^ 32 }
    requires tick { t < length run.now.ticks }
    ensures { IsFirstBelow (λ k. is_idle_broken_by run.now t k ≡ true)
        (length run.now.jobs) result }
{
    for k in 0..run.jobs.len() as u32 {
        if is_idle_broken(run, t, k) {
            return Some(k);
        }
    }
    None
}

/// Whether job `k` can be cut at tick `t`.
fn is_cut<M: Preemption>(sheet: &Sheet, run: &Run, t: u64, k: u32) -> bool
    requires job { k < length run.now.jobs }
    requires tick { t < length run.now.ticks }
    requires task { IsOf sheet.now (job_at run.now k) }
    ensures { result ≡ can_cut M.cuts sheet.now run.now k t }
{
    let job = &run.jobs.as_slice()[k as usize];
    M::cuttable(sheet.task(job.task), job, service(run, k, t))
}

/// Whether tick `t` is supplied and does not run job `k`, which cannot be cut there.
#[tactic(auto, unfolding(crate::specs::Tests::is_segment_broken))]
fn is_segment_broken<M: Preemption>(sheet: &Sheet, run: &Run, t: u64, k: u32) -> bool
    requires job { k < length run.now.jobs }
    requires tick { t < length run.now.ticks }
    requires task { IsOf sheet.now (job_at run.now k) }
    ensures { result ≡ is_segment_broken_by M.cuts sheet.now run.now t k }
{
    match run.ticks.as_slice()[t as usize] {
        Tick::Off => false,
        Tick::Idle => !is_cut::<M>(sheet, run, t, k),
        Tick::Runs(job) => job != k && !is_cut::<M>(sheet, run, t, k),
    }
}

/// The least job that cannot be cut at tick `t`, which is supplied and does not run it.
pub fn segment_broken<M: Preemption>(sheet: &Sheet, run: &Run, t: u64) -> Option<u32>
    requires few { length run.now.jobs < 2 ^ 32 }
    requires tick { t < length run.now.ticks }
    requires tasks { AreOf sheet.now run.now }
    ensures { IsFirstBelow (λ k. is_segment_broken_by M.cuts sheet.now run.now t k ≡ true)
        (length run.now.jobs) result }
{
    for k in 0..run.jobs.len() as u32 {
        if is_segment_broken::<M>(sheet, run, t, k) {
            return Some(k);
        }
    }
    None
}

/// Whether job `k` is at least as urgent as job `n`.
fn is_as_urgent<P: Policy>(sheet: &Sheet, run: &Run, k: u32, n: u32) -> bool
    requires job { k < length run.now.jobs }
    requires other { n < length run.now.jobs }
    requires tasks { AreOf sheet.now run.now }
    requires arrivals { AreEarly run.now }
    ensures { result ≡ key_le (P.meaning.key sheet.now (job_at run.now k))
        (P.meaning.key sheet.now (job_at run.now n)) }
{
    let jobs = run.jobs.as_slice();
    P::key(sheet, &jobs[k as usize]).is_at_most(P::key(sheet, &jobs[n as usize]))
}

/// Whether job `n` is pending at tick `t` and more urgent than the job that runs and can be cut.
#[tactic(auto, using(crate::proofs::TestFacts::pending_is), unfolding(crate::specs::Tests::is_priority_broken))]
fn is_priority_broken<P: Policy, M: Preemption>(sheet: &Sheet, run: &Run, t: u64, n: u32) -> bool
    requires job { n < length run.now.jobs }
    requires tick { t < length run.now.ticks }
    requires tasks { AreOf sheet.now run.now }
    requires named { (k : ℕ) → tick_at run.now t ≡ Runs k → k < length run.now.jobs }
    requires arrivals { AreEarly run.now }
    ensures { result ≡ is_priority_broken_by P.meaning M.cuts sheet.now run.now t n }
{
    let Tick::Runs(k) = run.ticks.as_slice()[t as usize] else {
        return false;
    };
    is_cut::<M>(sheet, run, t, k) && is_pending(run, n, t) && !is_as_urgent::<P>(sheet, run, k, n)
}

/// The least pending job that is more urgent than the one that tick `t` runs and that can be cut.
pub fn priority_broken<P: Policy, M: Preemption>(sheet: &Sheet, run: &Run, t: u64) -> Option<u32>
    requires few { length run.now.jobs < 2 ^ 32 }
    requires tick { t < length run.now.ticks }
    requires tasks { AreOf sheet.now run.now }
    requires named { (k : ℕ) → tick_at run.now t ≡ Runs k → k < length run.now.jobs }
    requires arrivals { AreEarly run.now }
    ensures { IsFirstBelow (λ n.
        is_priority_broken_by P.meaning M.cuts sheet.now run.now t n ≡ true)
        (length run.now.jobs) result }
{
    for n in 0..run.jobs.len() as u32 {
        if is_priority_broken::<P, M>(sheet, run, t, n) {
            return Some(n);
        }
    }
    None
}
