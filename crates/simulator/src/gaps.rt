//! How far apart the jobs of a task arrive at least.
ghost use Rattle.std.specs.Prelude.{◌≡◌, ◌≤◌, ◌<◌, ◌+◌, ◌-◌, ◌*◌, ◌++◌, ◌∷◌, [], ℕ, cond, length, slice_index, slice_index_or, OnOk, IfOk, IfSome};
ghost use Rattle.std.specs.List.Sorted.{IsNonDecreasing};
ghost use Rattle.lists.specs.Limits.{greatest_length, greatest_value, most_ticks};
ghost use Rattle.curve.specs.CurveValue.{Curve};
ghost use Rattle.curve.specs.Validity.{IsCurve};
ghost use Rattle.windows.specs.Arrivals.{IsPast, allowance_in};
ghost use Rattle.simulator.specs.Openings.{IsShutFor};
ghost use Rattle.simulator.specs.Gaps.{IsWindow, IsGaps, AreLow, AreNear, AreRising, gap_at, with_more, earliest_by};

use curve::Prefix;
use lists::limits::{GREATEST_LENGTH, MOST_JOBS};
use std::alloc::{AllocError, Global};
use windows::allowance;

/// A job comes at least `distance` ticks after the job `count` places before it.
#[derive(Clone, Copy, Debug, PartialEq, Eq)]
pub struct Gap {
    pub count: usize,
    pub distance: u64,
}

/// The gaps between jobs of a task, without those that follow from two shorter ones.
#[derive(Drop)]
pub struct Gaps {
    pub gaps: Vec<Gap>,
    /// When the jobs of a task come as early as they may, from tick 0 on.
    pub densest: Vec<u64>,
    /// The shortest window that admits so many jobs.
    pub window: u64,
}

/// Before any job but the first has been looked at.
pub fn no_gaps(alloc: Global) -> Result<Gaps, AllocError>
    ensures { (c : Curve) → IsCurve c → IfOk result (IsGaps c) }
{
    let densest = vec![in alloc; 0]?;
    Ok(Gaps {
        gaps: Vec::new(alloc),
        densest,
        window: 1,
    })
}

/// The shortest window that admits more than `n + 1` jobs, from the one that admits more than `n`.
fn next_window(curve: &Prefix, n: u64, window: u64) -> Option<u64>
    requires few { n < greatest_length }
    requires window { IsWindow curve.now n window }
    ensures { IfSome result (IsWindow curve.now (n + 1)) }
{
    // the curve is valid, by a clause of this call
    let _horizon = curve.horizon();
    if curve.at(window) > (n + 1) as u128 {
        Some(window)
    } else {
        curve.next_rise(window)
    }
}

/// How many of the gaps are of so many jobs at most.
fn counted(gaps: &[Gap], most: usize) -> usize
    requires { AreRising gaps.now }
    ensures few { result ≤ length gaps.now }
    ensures near { (i : ℕ) → i < result → (gap_at gaps.now i).count ≤ most }
    ensures far { (i : ℕ) → result ≤ i → i < length gaps.now → most < (gap_at gaps.now i).count }
{
    gaps.partition_point(|gap| gap.count <= most)
}

/// When the job `count` places before the next one arrived, where `n` more than these arrive at
/// `t`.
fn before(arrivals: &[u64], n: usize, t: u64, count: usize) -> u64
    requires low { 1 ≤ count }
    requires listed { count ≤ length arrivals.now + n }
    requires near { AreNear (with_more arrivals.now n t) }
    ensures small { result ≤ greatest_length }
    ensures job { result ≡
        slice_index_or (with_more arrivals.now n t) (length arrivals.now + n - count) 0 }
{
    if count <= n {
        t
    } else {
        arrivals[arrivals.len() - (count - n)]
    }
}

/// How early all gaps let the next job come, after the arrivals and `n` more jobs at `t`.
///
/// The gaps of the most jobs are looked at first. The others do not matter once none of their
/// distances is long enough, whichever arrival it is counted from.
fn earliest_after(gaps: &[Gap], arrivals: &[u64], n: usize, t: u64) -> u64
    requires low { AreLow gaps.now }
    requires rising { AreRising gaps.now }
    requires few { n ≤ 2 * greatest_value }
    requires near { AreNear (with_more arrivals.now n t) }
    requires ascending { IsNonDecreasing (with_more arrivals.now n t) }
    ensures { result ≡ earliest_by gaps.now (with_more arrivals.now n t) }
{
    let count = counted(gaps, arrivals.len() + n);
    let mut tick = 0;
    for i in (0..count).rev() {
        let latest = before(arrivals, n, t, gaps[0].count);
        if latest + gaps[i].distance <= tick {
            break;
        }
        tick = tick.max(before(arrivals, n, t, gaps[i].count) + gaps[i].distance);
    }
    tick
}

/// How early all gaps let the next job come.
fn earliest(gaps: &[Gap], arrivals: &[u64]) -> u64
    requires low { AreLow gaps.now }
    requires rising { AreRising gaps.now }
    requires near { AreNear arrivals.now }
    requires ascending { IsNonDecreasing arrivals.now }
    ensures { result ≡ earliest_by gaps.now arrivals.now }
{
    earliest_after(gaps, arrivals, 0, 0)
}

/// One gap more, if it is needed.
fn add_gap(gaps: &mut Vec<Gap>, gap: Gap, needed: bool) -> Result<(), AllocError>
    ensures { OnOk result (gaps.new.items ≡
        cond needed (gaps.old.items ++ gap ∷ []) gaps.old.items) }
{
    if needed {
        gaps.push(gap)?;
    }
    Ok(())
}

/// One job more of the densest run, if it comes early enough.
///
/// Its gap is needed only where the others let it come earlier.
fn extend(curve: &Prefix, gaps: &mut Gaps) -> Result<(), AllocError>
    requires { IsGaps curve.now gaps.old }
    ensures { OnOk result (IsGaps curve.now gaps.new) }
{
    // the curve is valid, by a clause of this call
    let _horizon = curve.horizon();
    let count = gaps.densest.len();
    if count > MOST_JOBS {
        return Ok(());
    }
    let window = match next_window(curve, count as u64 - 1, gaps.window) {
        Some(window) => window,
        None => return Ok(()),
    };
    let implied = earliest(&gaps.gaps, &gaps.densest);
    let distance = implied.max(window - 1);
    if distance > GREATEST_LENGTH {
        return Ok(());
    }
    add_gap(&mut gaps.gaps, Gap { count, distance }, implied < distance)?;
    gaps.densest.push(distance)?;
    gaps.window = window;
    Ok(())
}

/// The gaps between the first of the arrivals and the next jobs, with as many of these as one tick
/// may have, up to the most jobs of a run.
pub fn cover(curve: &Prefix, gaps: &mut Gaps, arrivals: &[u64]) -> Result<(), AllocError>
    requires { IsGaps curve.now gaps.old }
    ensures { OnOk result (IsGaps curve.now gaps.new) }
{
    let more = curve.at(1).min(MOST_JOBS as u128) as usize;
    let most = (arrivals.len() + more).min(MOST_JOBS) + 1;
    for _n in gaps.densest.len()..most {
        extend(curve, gaps)?;
    }
    Ok(())
}

/// A tick before which no job of a task may arrive from tick `t` on, after the given arrivals.
pub fn next_opening(curve: &Prefix, gaps: &Gaps, arrivals: &[u64], t: u64) -> u64
    requires gaps { IsGaps curve.now gaps.now }
    requires ascending { IsNonDecreasing arrivals.now }
    requires past { (i : ℕ) → i < length arrivals.now → slice_index arrivals.now i < t }
    requires time { t ≤ greatest_length }
    ensures { IsShutFor curve.now arrivals.now t result }
{
    earliest(&gaps.gaps, arrivals)
}

/// How many jobs of a task may arrive at tick `t`, after the given arrivals.
///
/// So many are tried one after the other, each by the gaps to those before it.
pub fn room(curve: &Prefix, gaps: &Gaps, arrivals: &[u64], t: u64) -> u64
    requires gaps { IsGaps curve.now gaps.now }
    requires past { IsPast curve.now arrivals.now t }
    requires time { t ≤ most_ticks }
    ensures { result ≡ allowance_in curve.now arrivals.now t }
{
    // the curve is valid, by a clause of this call
    let _horizon = curve.horizon();
    let most = curve.at(1) as u64;
    for n in 0..most {
        if gaps.densest.len() <= arrivals.len() + n as usize {
            return allowance(curve, arrivals, t);
        }
        if t < earliest_after(&gaps.gaps, arrivals, n as usize, t) {
            return n;
        }
    }
    most
}
