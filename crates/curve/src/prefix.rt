//! A prefix of an arrival curve.
ghost use Rattle.std.specs.Prelude.{◌≡◌, ◌+◌, ◌*◌, ◌%◌, ◌≤◌, ◌↔◌, ℕ, IfOk, IsOk};
ghost use Rattle.curve.specs.Curves.{alpha_of, periodic as periodic_of, IsRise};
ghost use Rattle.curve.specs.Stairs.{IsSplit, IsStair};
ghost use Rattle.curve.specs.Validity.{IsCurve, prefix_check_of};
ghost use Rattle.lists.specs.Limits.{greatest_number, greatest_value, greatest_length};
ghost use Rattle.lists.specs.Searches.{IsLeastTo};

use crate::checking::{CurveRefusal, are_in_range, do_rise, ends_by, starts_at_one};
use crate::searching::{landing, last_value, next_time, steps_near, steps_to, top_value};
use lists::limits::{GREATEST_LENGTH, GREATEST_NUMBER};
use std::alloc::{AllocError, Global};
use std::marker::Model;

/// From `time` on, the value is `value`.
#[derive(Clone, Copy, Debug, PartialEq, Eq)]
pub struct Step {
    /// In ticks.
    pub time: u64,
    /// A number of jobs.
    pub value: u64,
}

/// A stretch of lengths of windows in which equally many jobs may arrive, after the staircase
/// curves of the real-time calculus.
#[derive(Clone, Copy, Debug, PartialEq, Eq)]
pub struct Stair {
    /// The curve's value on the stretch: a number of jobs.
    pub value: u128,
    /// The first length of the stretch, in ticks.
    pub from: u64,
    /// The length that ends the stretch, at which the curve is higher, in ticks.
    pub until: u64,
    /// How many steps have come since the last whole horizon: a hint for the next search.
    pub come: usize,
}

/// A prefix of an arrival curve: a horizon in ticks, and steps up to it.
///
/// In every window of `d` ticks at most [`at`](Prefix::at)`(d)` jobs arrive. Past the horizon the
/// prefix is repeated, after the extrapolated curves of Prosa.
#[derive(Debug, Drop)]
pub struct Prefix {
    horizon: u64,
    steps: Vec<Step>,
}

impl Model for Prefix {
    ghost use Rattle.curve.specs.CurveValue.{Curve};

    ghost Value = { Curve };

    ghost use Rattle.curve.specs.Validity.{IsCurve};

    ghost view = { λ p. record { horizon = p.horizon; steps = p.steps.items } };

    ghost invariant = { λ p. IsCurve (record { horizon = p.horizon; steps = p.steps.items }) };
}

impl Prefix {
    /// The prefix of these parts, or the first test that they fail.
    pub fn check(horizon: u64, steps: Vec<Step>) -> Result<Prefix, CurveRefusal>
        ensures checked { result ≡ prefix_check_of horizon steps.items }
        ensures valid { IsOk result ↔ IsCurve (record { horizon = horizon; steps = steps.items }) }
    {
        if horizon == 0 || horizon > GREATEST_NUMBER {
            return Err(CurveRefusal::Horizon);
        }
        if !are_in_range(&steps) {
            return Err(CurveRefusal::Limit);
        }
        if !starts_at_one(&steps) {
            return Err(CurveRefusal::First);
        }
        if !do_rise(&steps) {
            return Err(CurveRefusal::Order);
        }
        if !ends_by(&steps, horizon) {
            return Err(CurveRefusal::Past);
        }
        Ok(Prefix { horizon, steps })
    }

    /// The curve of one job in each `period` ticks: the sporadic tasks of Mok, whose jobs arrive at
    /// least a period apart.
    pub fn periodic(alloc: Global, period: u64) -> Result<Prefix, AllocError>
        requires low { 1 ≤ period }
        requires high { period ≤ greatest_number }
        ensures curve { IfOk result (λ prefix. prefix ≡ periodic_of period) }
        ensures valid { IfOk result IsCurve }
    {
        let steps = vec![in alloc; Step { time: 1, value: 1 }]?;
        Ok(Prefix {
            horizon: period,
            steps,
        })
    }

    /// An equal prefix.
    pub fn copy(&self, alloc: Global) -> Result<Prefix, AllocError>
        ensures { IfOk result (λ prefix. prefix ≡ self.now) }
    {
        let steps = Vec::from_slice(alloc, self.steps.as_slice())?;
        Ok(Prefix {
            horizon: self.horizon,
            steps,
        })
    }

    /// In ticks.
    pub fn horizon(&self) -> u64
        ensures horizon { result ≡ self.now.horizon }
        ensures valid { IsCurve self.now }
    {
        self.horizon
    }

    pub fn steps(&self) -> &[Step]
        ensures steps { result.now ≡ self.now.steps }
        ensures valid { IsCurve self.now }
    {
        self.steps.as_slice()
    }

    /// The most jobs that may arrive in a window of `d` ticks.
    #[tactic(auto, unfolding(crate::specs::Curves::value_of, crate::specs::Curves::alpha_of))]
    pub fn at(&self, d: u64) -> u128
        ensures alpha { result ≡ alpha_of self.now d }
        ensures bound { result ≤ (d + 1) * greatest_value }
    {
        let whole = (d / self.horizon) as u128 * top_value(&self.steps, self.horizon) as u128;
        whole + last_value(&self.steps, d % self.horizon) as u128
    }

    /// The least later length, up to 4·10^9, at which more jobs may arrive than in `d` ticks.
    pub fn next_rise(&self, d: u64) -> Option<u64>
        ensures { IsLeastTo (IsRise self.now d) greatest_length result }
    {
        if d >= GREATEST_LENGTH {
            return None;
        }
        let begun = d % self.horizon;
        let next = d - begun + next_time(&self.steps, begun, self.horizon);
        if next <= GREATEST_LENGTH {
            Some(next)
        } else {
            None
        }
    }

    /// The stair on which the curve stands at `d` ticks, by a search among the steps.
    pub fn stair(&self, d: u64) -> Stair
        requires { d ≤ greatest_length }
        ensures { IsStair self.now result d }
    {
        self.stair_of(d, steps_to(&self.steps, d % self.horizon))
    }

    /// The same, from a stair of the curve: it stays there, goes one step on, or searches.
    pub fn stair_to(&self, stair: Stair, d: u64) -> Stair
        requires length { d ≤ greatest_length }
        requires before { (e : ℕ) × IsStair self.now stair e }
        ensures { IsStair self.now result d }
    {
        if stair.from <= d && d < stair.until {
            return stair;
        }
        let next = if stair.come < self.steps.len() {
            stair.come + 1
        } else {
            1
        };
        self.stair_of(d, steps_near(&self.steps, d % self.horizon, next))
    }

    /// The stair at `d`, where so many steps have come since the last whole horizon.
    fn stair_of(&self, d: u64, come: usize) -> Stair
        requires length { d ≤ greatest_length }
        requires come { IsSplit self.now.steps (d % self.now.horizon) come }
        ensures { IsStair self.now result d }
    {
        let begun = d % self.horizon;
        let base = d - begun;
        let landing = landing(&self.steps, begun, self.horizon, come);
        let whole = (d / self.horizon) as u128 * top_value(&self.steps, self.horizon) as u128;
        Stair {
            value: whole + landing.value,
            from: base + landing.from,
            until: base + landing.until,
            come,
        }
    }
}
