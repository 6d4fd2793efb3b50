//! When the next job of each task may arrive.
ghost use Rattle.std.specs.Prelude.{◌≡◌, ◌+◌, ◌/◌, ◌<◌, ◌≤◌, ℕ, length, replicate, slice_index_or, IfOk};
ghost use Rattle.curve.specs.CurveValue.{Curve};
ghost use Rattle.curve.specs.Validity.{IsCurve};
ghost use Rattle.simulator.specs.Gaps.{IsGaps};
ghost use Rattle.simulator.specs.declared.gaps.Gaps.{Gaps as GapsOf};

use crate::gaps::{Gaps, no_gaps};
use std::alloc::{AllocError, Global};

/// So many tasks stand in a block.
pub const BLOCK: u32 = 16;

/// For each task a tick before which none of its jobs may arrive, and the gaps that tell it.
#[derive(Drop)]
pub struct Openings {
    pub ticks: Vec<u64>,
    pub gaps: Vec<Gaps>,
    /// For each block of tasks, the least of their ticks.
    pub firsts: Vec<u64>,
    /// The least of all.
    pub first: u64,
}

/// The gaps of so many tasks, before any job.
fn all_gaps(alloc: Global, n: u32) -> Result<Vec<Gaps>, AllocError>
    ensures len { IfOk result (λ list. length list.items ≡ n) }
    ensures gaps { IfOk result (λ list. (o : ℕ) (d : GapsOf) (c : Curve) → o < n → IsCurve c →
        IsGaps c (slice_index_or list.items o d)) }
{
    let mut list = Vec::new(alloc);
    for _o in 0..n {
        list.push(no_gaps(alloc)?)?;
    }
    Ok(list)
}

/// Each task may have a job at the first tick.
pub fn open_all(alloc: Global, n: u32) -> Result<Openings, AllocError>
    ensures ticks { IfOk result (λ openings. openings.ticks.items ≡ replicate n 0) }
    ensures len { IfOk result (λ openings. length openings.gaps.items ≡ n) }
    ensures gaps { IfOk result (λ openings. (o : ℕ) (d : GapsOf) (c : Curve) → o < n → IsCurve c →
        IsGaps c (slice_index_or openings.gaps.items o d)) }
    ensures firsts { IfOk result (λ openings. openings.firsts.items ≡ replicate (n / 16 + 1) 0) }
    ensures first { IfOk result (λ openings. openings.first ≡ 0) }
{
    let ticks = vec![in alloc; 0; n as usize]?;
    let gaps = all_gaps(alloc, n)?;
    let firsts = vec![in alloc; 0; n as usize / BLOCK as usize + 1]?;
    Ok(Openings {
        ticks,
        gaps,
        firsts,
        first: 0,
    })
}

/// The least of these ticks.
pub fn least(ticks: &[u64]) -> u64
    ensures { (i : ℕ) → i < length ticks.now → result ≤ slice_index_or ticks.now i 0 }
{
    let mut first = u64::MAX;
    for i in 0..ticks.len() {
        first = first.min(ticks[i]);
    }
    first
}
