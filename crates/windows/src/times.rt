//! Which promised times decide whether ticks keep to a promise.
//!
//! A window of a promised time may have its ticks because two shorter ones side by side in it have
//! theirs, and then need not be looked at.
ghost use Rattle.std.specs.Prelude.{◌≡◌, ◌+◌, ◌<◌, ◌↔◌, length, IsTrue, IfOk, IfSome, OnOk};
ghost use Rattle.windows.specs.Times.{IsImplied, AreNeededTimes, AreNeededTimesBelow};

use std::alloc::{AllocError, Global};
use task_sheet::{Sheet, SupplySpec};

/// How many times are tried, at most, to find that one follows from it.
const TRIED: usize = 512;

/// A promised time, and how many promised times are before it.
#[derive(Clone, Copy, Debug, PartialEq, Eq)]
pub struct PromisedTime {
    pub time: u64,
    pub before: usize,
}

/// Whether what the time number `k` promises follows from those number `i` and `k - 1 - i`.
fn is_implied(times: &[u64], k: usize, i: usize) -> bool
    requires { k < length times.now }
    ensures { IsTrue result ↔ IsImplied times.now k i }
{
    i < k && times[i] as u128 + times[k - 1 - i] as u128 <= times[k] as u128
}

/// A time from which number `k` follows, if one is found: this one, or one of the least needed ones.
fn earlier_of(times: &[u64], needed: &[PromisedTime], guess: usize, k: usize) -> Option<usize>
    requires { k < length times.now }
    ensures { IfSome result (IsImplied times.now k) }
{
    if is_implied(times, k, guess) {
        return Some(guess);
    }
    for i in 0..needed.len().min(TRIED) {
        if is_implied(times, k, needed[i].before) {
            return Some(needed[i].before);
        }
    }
    None
}

/// Adds the time number `k`, if it does not follow from an earlier one.
fn add_time(
    times: &[u64],
    needed: &mut Vec<PromisedTime>,
    k: usize,
    earlier: Option<usize>,
) -> Result<(), AllocError>
    requires listed { k < length times.now }
    requires earlier { IfSome earlier (IsImplied times.now k) }
    requires needed { AreNeededTimesBelow times.now k needed.old.items }
    ensures { OnOk result (AreNeededTimesBelow times.now (k + 1) needed.new.items) }
{
    if earlier.is_some() {
        return Ok(());
    }
    needed.push(PromisedTime {
        time: times[k],
        before: k,
    })?;
    Ok(())
}

/// The needed ones of these times.
fn needed_of(alloc: Global, times: &[u64]) -> Result<Vec<PromisedTime>, AllocError>
    ensures { IfOk result (λ v. AreNeededTimesBelow times.now (length times.now) v.items) }
{
    let mut needed = Vec::new(alloc);
    let mut guess = 0;
    for k in 0..times.len() {
        let earlier = earlier_of(times, &needed, guess, k);
        guess = earlier.unwrap_or(guess);
        add_time(times, &mut needed, k, earlier)?;
    }
    Ok(needed)
}

/// The needed ones of the promised times of a sheet: what each other one promises follows from two
/// earlier ones.
pub fn needed_times(alloc: Global, sheet: &Sheet) -> Result<Vec<PromisedTime>, AllocError>
    ensures { IfOk result (λ v. AreNeededTimes sheet.now.supply v.items) }
{
    match sheet.supply() {
        SupplySpec::Unit => Ok(Vec::new(alloc)),
        SupplySpec::Promised { horizon: _, times } => needed_of(alloc, times.as_slice()),
    }
}
