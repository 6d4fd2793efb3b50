//! Lines below what tasks ask for, which rise with their load.
ghost use Rattle.std.specs.Prelude.{◌≡◌, ◌≤◌, ◌+◌, ◌*◌, ◌-◌, ◌/◌, ◌^◌, ℕ, min};
ghost use Rattle.lists.specs.Limits.{greatest_number, greatest_value};
ghost use Rattle.curve.specs.Curves.{alpha_of};
ghost use Rattle.curve.specs.Validity.{IsCurve};
ghost use Rattle.task_sheet.specs.Sheets.{IsTask};
ghost use Rattle.solver.specs.Ceilings.{IsCeiling, IsOver};
ghost use Rattle.solver.specs.Loads.{scale, IsBehind, IsUnderWhole, IsSmallLine, IsBelowCrossing};

use crate::ceilings::Ceiling;
use curve::Prefix;
use task_sheet::Task;

/// Lines count in these parts of a tick.
pub const SCALE: u128 = 68_719_476_736;

/// A line below what is asked for as a window grows, in parts of a tick.
#[derive(Clone, Copy, Debug, PartialEq, Eq)]
pub struct Line {
    /// Where it begins.
    pub fixed: u128,
    /// How much it rises a tick.
    pub rate: u128,
    /// How far below what is asked for it is held at most.
    pub loss: u128,
    /// Up to which window it is below, in ticks.
    pub cut: u64,
}

/// The line of what does not fall.
pub const FLAT: Line = Line {
    fixed: 0,
    rate: 0,
    loss: 0,
    cut: 4_000_000_000,
};

/// The ticks that the jobs of a task can ask for in a window of `d` ticks.
pub fn asked(task: &Task, d: u64) -> u128
    requires valid { IsTask task.now }
    requires window { d ≤ 2000000001 }
    ensures exact { result ≡ task.now.cost * alpha_of task.now.curve d }
    ensures bound { result ≤ 2 ^ 81 }
{
    task.cost as u128 * task.curve.at(d)
}

/// How many jobs the curve allows within its horizon.
#[tactic(auto, using(crate::proofs::LoadFacts::top_high))]
fn top(curve: &Prefix) -> u128
    requires valid { IsCurve curve.now }
    ensures exact { result ≡ alpha_of curve.now curve.now.horizon }
    ensures bound { result ≤ greatest_value }
{
    curve.at(curve.horizon())
}

/// The ticks that the jobs of a task can ask for within the horizon of its curve.
#[tactic(auto, using(crate::proofs::LoadFacts::load_high))]
fn load(task: &Task) -> u128
    requires valid { IsTask task.now }
    ensures exact { result ≡ task.now.cost * alpha_of task.now.curve task.now.curve.horizon }
    ensures bound { result ≤ 2 ^ 50 }
{
    task.cost as u128 * top(&task.curve)
}

/// How many jobs the curve is at most below the line that rises to its value at the horizon: on
/// each stair it is the furthest below at the last length.
pub fn lag(curve: &Prefix) -> u128
    requires valid { IsCurve curve.now }
    ensures behind { IsBehind curve.now curve.now.horizon result }
    ensures bound { result ≤ greatest_value }
{
    let horizon = curve.horizon();
    let top = top(curve);
    let mut lag: u128 = 0;
    let mut begun = 0;
    while begun < horizon {
        let stair = curve.stair(begun);
        let last = stair.until.min(horizon) - 1;
        let line = (top * last as u128 + horizon as u128 - 1) / horizon as u128;
        lag = lag.max(line.saturating_sub(stair.value));
        begun = stair.until;
    }
    lag
}

/// How much the line of a task rises a tick, in parts of a tick.
pub fn rate(task: &Task) -> u128
    requires valid { IsTask task.now }
    ensures exact { result ≡ task.now.cost * alpha_of task.now.curve task.now.curve.horizon *
        scale / task.now.curve.horizon }
    ensures bound { result ≤ 2 ^ 86 }
{
    load(task) * SCALE / task.curve.horizon() as u128
}

/// The line of all that a task asks for, from a window of `x` ticks on.
#[tactic(auto, using(task_sheet::specs::Limits::jitter_high))]
pub fn slope(task: &Task, x: u64) -> Line
    requires valid { IsTask task.now }
    requires window { x ≤ greatest_number }
    ensures under { IsUnderWhole task.now x result }
    ensures small { IsSmallLine 1 result }
{
    let rate = rate(task);
    Line {
        fixed: rate * task.jitter as u128,
        rate,
        loss: (asked(task, x + task.jitter) + task.cost as u128 * lag(&task.curve)) * SCALE,
        cut: FLAT.cut,
    }
}

/// Both lines together.
pub fn joined(line: Line, more: Line) -> Line
    requires line { IsSmallLine 255 line }
    requires more { IsSmallLine 1 more }
    ensures fixed { result.fixed ≡ line.fixed + more.fixed }
    ensures rate { result.rate ≡ line.rate + more.rate }
    ensures loss { result.loss ≡ line.loss + more.loss }
    ensures cut { result.cut ≡ min line.cut more.cut }
{
    Line {
        fixed: line.fixed + more.fixed,
        rate: line.rate + more.rate,
        loss: line.loss + more.loss,
        cut: line.cut.min(more.cut),
    }
}

/// How much a ceiling rises a tick, in parts of a tick: rounded up, so that it stays one.
fn climb(ceiling: &Ceiling) -> u128
    requires small { IsCeiling ceiling.now }
    ensures enough { ceiling.now.rate * scale ≤ result * ceiling.now.horizon }
    ensures bound { result ≤ 2 ^ 67 }
{
    let horizon = ceiling.horizon as u128;
    (ceiling.rate as u128 * SCALE + horizon - 1) / horizon
}

/// Before which window a supply with this ceiling has not caught up with the line, which stands at
/// so many ticks.
pub fn crossing(line: Line, wanted: u128, horizon: u64, ceiling: &Ceiling) -> u64
    requires line { IsSmallLine 256 line }
    requires wanted { wanted ≤ greatest_number }
    requires horizon { horizon ≤ greatest_number }
    requires cut { line.cut ≤ 4000000000 }
    requires ceiling { IsCeiling ceiling.now }
    ensures below { (sbf : ℕ → ℕ) → IsOver sbf ceiling.now →
        IsBelowCrossing sbf line wanted horizon result }
    ensures within { result ≤ horizon + 1 }
{
    let up = line.fixed + wanted * SCALE;
    let down = line.loss + ceiling.spare as u128 * SCALE;
    if up <= down {
        return 0;
    }
    let end = (horizon + 1).min(line.cut + 1);
    let climb = climb(ceiling);
    if line.rate >= climb {
        return end;
    }
    let caught = (up - down) / (climb - line.rate);
    if caught < end as u128 {
        caught as u64
    } else {
        end
    }
}
