//! Which distances between jobs of one task decide whether their arrivals keep to a curve.
//!
//! Jobs that are `m` numbers apart are at distance `m`. The span of a distance may follow from those of
//! two shorter ones, and then need not be looked at.
ghost use Rattle.std.specs.Prelude.{◌≡◌, ◌+◌, ◌<◌, ◌↔◌, length, IsTrue, IfOk, IfSome, OnOk};
ghost use Rattle.curve.specs.Validity.{IsCurve};
ghost use Rattle.windows.specs.Distances.{Follows, AreNeeded, AreNeededBelow, AreNeededOf, NeededDecide};

use crate::spans::spans;
use curve::Prefix;
use std::alloc::{AllocError, Global};

/// How many distances are tried, at most, to find that one follows from it.
const TRIED: usize = 512;

/// A distance, and the length of the shortest windows in which the curve admits jobs that far apart.
#[derive(Clone, Copy, Debug, PartialEq, Eq)]
pub struct Distance {
    pub apart: usize,
    pub span: u64,
}

/// Whether the span of the distance `m` follows from those of `p` and `m - p`.
fn follows(spans: &[u64], m: usize, p: usize) -> bool
    requires { m < length spans.now }
    ensures { IsTrue result ↔ Follows spans.now m p }
{
    0 < p && p < m && (spans[m] as u128) < spans[p] as u128 + spans[m - p] as u128
}

/// A distance from which `m` follows, if one is found: this one, or one of the least needed ones.
fn shorter_of(spans: &[u64], needed: &[Distance], guess: usize, m: usize) -> Option<usize>
    requires { m < length spans.now }
    ensures { IfSome result (Follows spans.now m) }
{
    if follows(spans, m, guess) {
        return Some(guess);
    }
    for i in 0..needed.len().min(TRIED) {
        if follows(spans, m, needed[i].apart) {
            return Some(needed[i].apart);
        }
    }
    None
}

/// Adds the distance `m`, if it does not follow from a shorter one.
fn add_distance(
    spans: &[u64],
    needed: &mut Vec<Distance>,
    m: usize,
    shorter: Option<usize>,
) -> Result<(), AllocError>
    requires listed { m < length spans.now }
    requires shorter { IfSome shorter (Follows spans.now m) }
    requires needed { AreNeededBelow spans.now m needed.old.items }
    ensures { OnOk result (AreNeededBelow spans.now (m + 1) needed.new.items) }
{
    if shorter.is_some() {
        return Ok(());
    }
    needed.push(Distance {
        apart: m,
        span: spans[m],
    })?;
    Ok(())
}

/// The needed ones of the distances with these spans.
fn needed_of(alloc: Global, spans: &[u64]) -> Result<Vec<Distance>, AllocError>
    ensures { IfOk result (λ v. AreNeeded spans.now v.items) }
{
    let mut needed = Vec::new(alloc);
    let mut guess = 0;
    for m in 0..spans.len() {
        let shorter = shorter_of(spans, &needed, guess, m);
        guess = shorter.unwrap_or(guess);
        add_distance(spans, &mut needed, m, shorter)?;
    }
    Ok(needed)
}

/// The needed ones of the distances of `count` jobs: what each other one asks for follows from two
/// shorter ones.
pub fn needed_distances(
    alloc: Global,
    curve: &Prefix,
    count: usize,
) -> Result<Vec<Distance>, AllocError>
    requires { IsCurve curve.now }
    ensures { IfOk result (λ v. AreNeededOf curve.now count v.items) }
{
    let spans = spans(alloc, curve, count)?;
    needed_of(alloc, &spans)
}

/// Where earlier arrivals keep the spans of all distances, the needed ones decide whether one more does.
pub fn needed_decide()
    ensures { NeededDecide }
{}
