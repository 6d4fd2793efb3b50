//! How many jobs of a task may arrive.
ghost use Rattle.std.specs.Prelude.{◌≡◌, ◌≤◌, ◌<◌, ◌^◌, length};
ghost use Rattle.windows.specs.Arrivals.{IsPast, allowance_in};
ghost use Rattle.windows.specs.Steps.{step_at, IsLastStep};

use curve::{Prefix, Step};

/// How many jobs of a task may arrive at tick `t`, after the given arrivals, in ascending order.
///
/// It looks at the windows that begin with an arrival less than a horizon ago.
pub fn allowance(curve: &Prefix, arrivals: &[u64], t: u64) -> u64
    requires past { IsPast curve.now arrivals.now t }
    requires time { t ≤ 10 ^ 9 }
    ensures { result ≡ allowance_in curve.now arrivals.now t }
{
    let horizon = curve.horizon();
    let steps = curve.steps();
    let mut step = 0;
    let mut room = steps[0].value;
    for i in (0..arrivals.len()).rev() {
        let arrival = arrivals[i];
        if t - arrival >= horizon {
            break;
        }
        step = last_step(steps, step, t + 1 - arrival);
        // not below 0, since the past is within the curve
        let left = steps[step].value - (arrivals.len() - i) as u64;
        room = room.min(left);
        if room == 0 {
            break;
        }
    }
    room
}

/// The last step whose time is at most `d`, from one on that has such a time.
fn last_step(steps: &[Step], from: usize, d: u64) -> usize
    requires from { from < length steps.now }
    requires begun { (step_at steps.now from).time ≤ d }
    ensures { IsLastStep steps.now d result }
{
    let mut step = from;
    while step + 1 < steps.len() && steps[step + 1].time <= d {
        step += 1;
    }
    step
}
