//! A recorded list of arrivals.
ghost use Rattle.std.specs.Prelude.{◌≡◌, ◌↔◌, IsSome, IfSome};
ghost use Rattle.curve_infer.specs.Traces.{are_times as are_times_of, is_trace as is_trace_of, IsTrace};

use lists::limits::GREATEST_NUMBER;
use std::marker::Model;

/// The most arrivals of a trace.
pub(crate) const MOST_ARRIVALS: usize = 10_000;

/// The latest arrival of a trace, in ticks.
pub(crate) const LATEST: u64 = GREATEST_NUMBER;

/// The times of 1 to 10,000 arrivals, in ticks up to 10^9, each no earlier than the one before it.
#[derive(Debug, Drop)]
pub struct Trace {
    times: Vec<u64>,
}

impl Model for Trace {
    ghost use Rattle.std.specs.Prelude.{List, ℕ};

    ghost Value = { List ℕ };

    ghost use Rattle.curve_infer.specs.Traces.{IsTrace};

    ghost view = { λ t. t.times.items };

    ghost invariant = { λ t. IsTrace t.times.items };
}

fn are_times(times: &[u64]) -> bool
    ensures { result ≡ are_times_of 0 times.now }
{
    let mut last = 0;
    for time in times {
        if *time < last || *time > LATEST {
            return false;
        }
        last = *time;
    }
    true
}

fn is_trace(times: &[u64]) -> bool
    ensures { result ≡ is_trace_of times.now }
{
    1 <= times.len() && times.len() <= MOST_ARRIVALS && are_times(times)
}

impl Trace {
    /// The trace of these times; there is none where they are too few, too many, too late or out of
    /// order.
    pub fn check(times: Vec<u64>) -> Option<Trace>
        ensures same { IfSome result (λ trace. trace ≡ times.items) }
        ensures valid { IsSome result ↔ IsTrace times.items }
    {
        if is_trace(&times) {
            Some(Trace { times })
        } else {
            None
        }
    }

    /// The trace of times that are known to be one's.
    pub fn new(times: Vec<u64>) -> Trace
        requires { IsTrace times.items }
        ensures { result ≡ times.items }
    {
        Trace { times }
    }

    /// In ticks.
    pub fn times(&self) -> &[u64]
        ensures times { result.now ≡ self.now }
        ensures valid { IsTrace self.now }
    {
        self.times.as_slice()
    }
}
