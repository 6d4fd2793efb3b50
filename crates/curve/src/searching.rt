//! Searches among the steps of a prefix, within one horizon.
ghost use Rattle.std.specs.Prelude.{◌≡◌, ◌≤◌, true};
ghost use Rattle.curve.specs.Curves.{last_value as last_value_of};
ghost use Rattle.curve.specs.Rises.{next_time_of};
ghost use Rattle.curve.specs.Stairs.{IsSplit, IsLanding};
ghost use Rattle.lists.specs.Limits.{greatest_number};
ghost use Rattle.curve.specs.Validity.{rise_from, starts_at_one, last_time};

use crate::prefix::{Stair, Step};

/// How many of the steps have come by time `t`.
pub fn steps_to(steps: &[Step], t: u64) -> usize
    requires { rise_from 0 0 steps.now ≡ true }
    ensures { IsSplit steps.now t result }
{
    steps.partition_point(|step| step.time <= t)
}

/// The same, sooner where the guess is right.
pub fn steps_near(steps: &[Step], t: u64, guess: usize) -> usize
    requires { rise_from 0 0 steps.now ≡ true }
    ensures { IsSplit steps.now t result }
{
    if guess == 0 || guess > steps.len() || steps[guess - 1].time > t {
        return steps_to(steps, t);
    }
    if guess < steps.len() && steps[guess].time <= t {
        return steps_to(steps, t);
    }
    guess
}

/// The value at time `t`, by the last of the steps that have come, and 0 where none has.
pub fn last_value(steps: &[Step], t: u64) -> u64
    requires { rise_from 0 0 steps.now ≡ true }
    ensures { result ≡ last_value_of 0 steps.now t }
{
    let come = steps_to(steps, t);
    if come == 0 { 0 } else { steps[come - 1].value }
}

/// The value of the last step, which has come by the horizon.
pub fn top_value(steps: &[Step], horizon: u64) -> u64
    requires some { starts_at_one steps.now ≡ true }
    requires rising { rise_from 0 0 steps.now ≡ true }
    requires within { last_time 0 steps.now ≤ horizon }
    ensures { result ≡ last_value_of 0 steps.now horizon }
{
    match steps.last() {
        Some(step) => step.value,
        None => 0,
    }
}

/// The time of the first step after `begun`, or the tick after the horizon.
pub fn next_time(steps: &[Step], begun: u64, horizon: u64) -> u64
    requires horizon { horizon ≤ greatest_number }
    requires rising { rise_from 0 0 steps.now ≡ true }
    ensures { result ≡ next_time_of horizon steps.now begun }
{
    time_of(steps, begun, horizon, steps_to(steps, begun))
}

/// The same, where so many steps have come.
fn time_of(steps: &[Step], begun: u64, horizon: u64, come: usize) -> u64
    requires horizon { horizon ≤ greatest_number }
    requires come { IsSplit steps.now begun come }
    ensures { result ≡ next_time_of horizon steps.now begun }
{
    if come < steps.len() {
        steps[come].time
    } else {
        horizon + 1
    }
}

/// The stair of the steps at `begun`, where so many steps have come.
pub fn landing(steps: &[Step], begun: u64, horizon: u64, come: usize) -> Stair
    requires horizon { horizon ≤ greatest_number }
    requires rising { rise_from 0 0 steps.now ≡ true }
    requires come { IsSplit steps.now begun come }
    ensures { IsLanding horizon steps.now begun result }
{
    let until = time_of(steps, begun, horizon, come);
    if come == 0 {
        return Stair {
            value: 0,
            from: begun,
            until,
            come,
        };
    }
    let last = steps[come - 1];
    Stair {
        value: last.value as u128,
        from: last.time,
        until,
        come,
    }
}
