//! The shortest windows in which a curve admits so many jobs.
ghost use Rattle.std.specs.Prelude.{◌≡◌, ◌+◌, ℕ, IfOk, length};
ghost use Rattle.curve.specs.Stairs.{IsStair};
ghost use Rattle.curve.specs.Validity.{IsCurve};
ghost use Rattle.windows.specs.Spans.{IsSpan, AreSpans};

use curve::{Prefix, Stair};
use lists::limits::GREATEST_LENGTH;
use std::alloc::{AllocError, Global};

/// The spans of `1, .., count` jobs.
pub fn spans(alloc: Global, curve: &Prefix, count: usize) -> Result<Vec<u64>, AllocError>
    requires { IsCurve curve.now }
    ensures spans { IfOk result (λ v. AreSpans curve.now v.items) }
    ensures count { IfOk result (λ v. length v.items ≡ count) }
{
    let mut spans = Vec::with_capacity(alloc, count)?;
    let mut stair = curve.stair(0);
    let mut span = 0;
    for n in 0..count {
        span = next_span(curve, &mut stair, n as u64, span);
        spans.push(span)?;
    }
    Ok(spans)
}

/// The span of `n + 1` jobs, from that of `n` jobs and a stair, which goes on to the latter.
#[tactic(auto, using(crate::proofs::SpanFacts::span_far, crate::proofs::SpanFacts::span_here, crate::proofs::SpanFacts::span_next))]
fn next_span(curve: &Prefix, stair: &mut Stair, n: u64, span: u64) -> u64
    requires curve { IsCurve curve.now }
    requires stair { (e : ℕ) × IsStair curve.now stair.old e }
    requires span { IsSpan curve.now n span }
    ensures stair { (e : ℕ) × IsStair curve.now stair.new e }
    ensures span { IsSpan curve.now (n + 1) result }
{
    if span > GREATEST_LENGTH {
        return span;
    }
    *stair = curve.stair_to(*stair, span);
    if stair.value > n as u128 {
        span
    } else {
        stair.until
    }
}
