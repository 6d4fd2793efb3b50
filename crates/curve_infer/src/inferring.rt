//! The curve of a trace.
ghost use Rattle.std.specs.Prelude.{◌≡◌, ◌-◌, ◌≤◌, ◌<◌, length, IfOk};
ghost use Rattle.lists.specs.Limits.{greatest_number};
ghost use Rattle.curve.specs.Validity.{IsCurve};
ghost use Rattle.curve_infer.specs.Traces.{IsTrace};
ghost use Rattle.lists.specs.Sums.{min_to};
ghost use Rattle.curve_infer.specs.Gaps.{gap_of};
ghost use Rattle.curve_infer.specs.Curves.{IsLeastLength, IsNextRise, Respects, inferred_curve, IsLeastCurve, KeepsCurves};

use crate::trace::Trace;
use curve::{Prefix, Step};
use std::alloc::{AllocError, Global};

/// How far a time and the one that comes `behind` places later are apart at least.
fn least_gap(times: &[u64], behind: usize) -> u64
    requires { behind < length times.now }
    ensures { result ≡ min_to (gap_of times.now behind) (length times.now - behind - 1) }
{
    let mut least = times[behind].saturating_sub(times[0]);
    for i in 0..times.len() - behind - 1 {
        least = least.min(times[i + 1 + behind].saturating_sub(times[i + 1]));
    }
    least
}

/// The least length of a window with `n` of the times.
fn least_length(times: &[u64], n: usize) -> u64
    requires trace { IsTrace times.now }
    requires some { 1 ≤ n }
    requires few { n ≤ length times.now }
    ensures { IsLeastLength times.now n result }
{
    least_gap(times, n - 1) + 1
}

/// The least length of a window with `n` of the times, but no more than the tick after the horizon,
/// which stands also where there are not so many times.
fn next_rise(times: &[u64], n: usize, horizon: u64) -> u64
    requires trace { IsTrace times.now }
    requires some { 1 ≤ n }
    requires horizon { horizon ≤ greatest_number }
    ensures { IsNextRise times.now n horizon result }
{
    if n > times.len() {
        horizon + 1
    } else {
        least_length(times, n).min(horizon + 1)
    }
}

/// The least curve with this horizon, in ticks, that a trace respects: in a window of `d` ticks, up
/// to the horizon, it has as many arrivals as the trace has at most in any window of `d` ticks.
pub fn infer(alloc: Global, trace: &Trace, horizon: u64) -> Result<Prefix, AllocError>
    requires low { 1 ≤ horizon }
    requires high { horizon ≤ greatest_number }
    ensures defined { IfOk result (λ prefix. prefix ≡ inferred_curve trace.now horizon) }
    ensures valid { IfOk result IsCurve }
    ensures respected { IfOk result (Respects trace.now) }
    ensures least { IfOk result (IsLeastCurve trace.now) }
    ensures kept { IfOk result (KeepsCurves trace.now) }
{
    let times = trace.times();
    let mut steps = Vec::new(alloc);
    let mut time = 1;
    for n in 0..times.len() {
        let next = next_rise(times, n + 2, horizon);
        if time < next {
            steps.push(Step {
                time,
                value: n as u64 + 1,
            })?;
        }
        time = next;
    }
    match Prefix::check(horizon, steps) {
        Ok(prefix) => Ok(prefix),
        Err(_) => unreachable!(),
    }
}
