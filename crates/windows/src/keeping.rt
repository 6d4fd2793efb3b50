//! Whether all arrivals of a task lie far enough apart.
ghost use Rattle.std.specs.Prelude.{◌≡◌, ◌+◌, ◌<◌, ◌≤◌, ℕ, length, slice_index};
ghost use Rattle.std.specs.Bool.{OnTrue};
ghost use Rattle.std.specs.List.Sorted.{IsNonDecreasing};
ghost use Rattle.lists.specs.Limits.{greatest_number};
ghost use Rattle.windows.specs.Crowds.{IsCrowdedPair};
ghost use Rattle.windows.specs.Distances.{DoKeep, AreNeededOf};

use crate::distances::Distance;
use curve::Prefix;

/// How many arrivals are looked at together.
const BLOCK: usize = 16;

/// Whether the arrivals with the numbers `first, .., last` keep the distance, since the least of them
/// is far enough from the greatest of those that lie so many numbers before them.
fn keep_together(arrivals: &[u64], distance: Distance, first: usize, last: usize) -> bool
    requires ascending { IsNonDecreasing arrivals.now }
    requires early { (i : ℕ) → i < length arrivals.now →
        slice_index arrivals.now i ≤ greatest_number }
    requires apart { distance.apart ≤ first }
    requires order { first ≤ last }
    requires listed { last < length arrivals.now }
    ensures { OnTrue result (DoKeep arrivals.now distance first (last + 1)) }
{
    let end = arrivals[first] + 1;
    let start = arrivals[last - distance.apart];
    if end < start {
        return false;
    }
    distance.span <= end - start
}

/// Whether the arrivals with these numbers keep the distance, by a look at each.
fn keep_each(arrivals: &[u64], distance: Distance, first: usize, until: usize) -> bool
    requires ascending { IsNonDecreasing arrivals.now }
    requires early { (i : ℕ) → i < length arrivals.now →
        slice_index arrivals.now i ≤ greatest_number }
    requires apart { distance.apart ≤ first }
    requires order { first < until }
    requires listed { until ≤ length arrivals.now }
    ensures { OnTrue result (DoKeep arrivals.now distance first until) }
{
    for j in first..until {
        if !keep_together(arrivals, distance, j, j) {
            return false;
        }
    }
    true
}

/// Whether the arrivals with these numbers keep the distance.
fn keep_block(arrivals: &[u64], distance: Distance, first: usize, until: usize) -> bool
    requires ascending { IsNonDecreasing arrivals.now }
    requires early { (i : ℕ) → i < length arrivals.now →
        slice_index arrivals.now i ≤ greatest_number }
    requires apart { distance.apart ≤ first }
    requires order { first < until }
    requires listed { until ≤ length arrivals.now }
    ensures { OnTrue result (DoKeep arrivals.now distance first until) }
{
    if keep_together(arrivals, distance, first, until - 1) {
        return true;
    }
    keep_each(arrivals, distance, first, until)
}

/// Where the block that begins with this number ends, if there are so many numbers.
fn block_end(first: usize, count: usize) -> usize
    requires { first < count }
    ensures after { first < result }
    ensures within { result ≤ count }
{
    if count - first < BLOCK {
        count
    } else {
        first + BLOCK
    }
}

/// Whether all arrivals keep the distance.
fn do_keep(arrivals: &[u64], distance: Distance) -> bool
    requires ascending { IsNonDecreasing arrivals.now }
    requires early { (i : ℕ) → i < length arrivals.now →
        slice_index arrivals.now i ≤ greatest_number }
    ensures { OnTrue result (DoKeep arrivals.now distance distance.apart (length arrivals.now)) }
{
    let mut first = distance.apart;
    while first < arrivals.len() {
        let until = block_end(first, arrivals.len());
        if !keep_block(arrivals, distance, first, until) {
            return false;
        }
        first = until;
    }
    true
}

/// Whether all arrivals keep the needed distances: then in no window from one of them to another are
/// they more than the curve says.
pub fn keep_all(curve: &Prefix, needed: &[Distance], arrivals: &[u64]) -> bool
    requires ascending { IsNonDecreasing arrivals.now }
    requires early { (i : ℕ) → i < length arrivals.now →
        slice_index arrivals.now i ≤ greatest_number }
    requires needed { AreNeededOf curve.now (length arrivals.now) needed.now }
    ensures { OnTrue result ((j i : ℕ) → j < length arrivals.now →
        IsCrowdedPair curve.now arrivals.now j i → ⊥) }
{
    for n in 0..needed.len() {
        let distance = needed[n];
        if !do_keep(arrivals, distance) {
            return false;
        }
    }
    true
}
