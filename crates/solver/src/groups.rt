//! How far tasks of one horizon are together below the lines that rise with their load.
//!
//! Where their curves complement each other, each of them lies far below the line that rises to its
//! value at the horizon, and their sum does not. So the sum is looked at, from one length at which
//! one of them rises to the next.
ghost use Rattle.std.specs.Prelude.{◌≡◌, ℕ, ◌≤◌, ◌<◌, ◌+◌, ◌*◌, ◌^◌, ◌==◌, ◌&&◌, not, length};
ghost use Rattle.lists.specs.Limits.{greatest_number};
ghost use Rattle.task_sheet.specs.Sheets.{task_at};
ghost use Rattle.solver.specs.Loads.{scale};
ghost use Rattle.solver.specs.Groups.{is_in, rise_in, asked_in, IsGroup, IsRest, IsBehindTogether};
ghost use Rattle.solver.specs.Groups.{HaveHorizon, RisesBy, AskSo};

use crate::load::{SCALE, lag, rate};
use task_sheet::Sheet;

/// How many tasks a sheet has at most.
pub const MOST_TASKS: usize = 256;

/// How many stairs are looked at along a horizon at most.
const MOST_STAIRS: usize = 100_000;

/// How the lines of a group rise together, in parts of a tick.
#[derive(Clone, Copy, Debug, PartialEq, Eq)]
struct Rise {
    /// Where they begin.
    fixed: u128,
    /// How much they rise a tick.
    rate: u128,
}

/// What a group asks for over a stretch of windows.
#[derive(Clone, Copy, Debug, PartialEq, Eq)]
struct Stretch {
    /// In ticks.
    asked: u128,
    /// The window that ends the stretch, in ticks.
    until: u64,
}

/// How much the line of task `o` rises a tick, in parts of a tick, where it is of the group.
fn rate_in(sheet: &Sheet, group: &[bool; MOST_TASKS], o: u32) -> u128
    requires task { o < length sheet.now.tasks }
    ensures rises { (l : ℕ) → rise_in sheet.now group.now l o ≡ result * (l +
        (task_at sheet.now o).jitter) }
    ensures bound { result ≤ 2 ^ 86 }
{
    let task = sheet.task(o);
    if group[o as usize] { rate(task) } else { 0 }
}

/// How the lines of the group rise together.
fn rise_together(sheet: &Sheet, group: &[bool; MOST_TASKS]) -> Rise
    ensures rises { RisesBy sheet.now group.now (length sheet.now.tasks) result.fixed result.rate }
    ensures fixed { result.fixed ≤ 2 ^ 124 }
    ensures rate { result.rate ≤ 2 ^ 94 }
{
    let mut fixed: u128 = 0;
    let mut rate: u128 = 0;
    for o in 0..sheet.len() {
        let own = rate_in(sheet, group, o);
        fixed += own * sheet.task(o).jitter as u128;
        rate += own;
    }
    Rise { fixed, rate }
}

/// What task `o` asks for in windows from `d` ticks on, where it is of the group.
fn stretch_of(sheet: &Sheet, group: &[bool; MOST_TASKS], o: u32, d: u64, end: u64) -> Stretch
    requires task { o < length sheet.now.tasks }
    requires before { d < end }
    requires end { end ≤ greatest_number }
    ensures asked { (l : ℕ) → d ≤ l → l < result.until → asked_in sheet.now group.now l o ≡
        result.asked }
    ensures bound { result.asked ≤ 2 ^ 81 }
    ensures later { d < result.until }
{
    let task = sheet.task(o);
    if !group[o as usize] {
        return Stretch {
            asked: 0,
            until: end,
        };
    }
    let stair = task.curve.stair(d + task.jitter);
    Stretch {
        asked: task.cost as u128 * stair.value,
        until: stair.until - task.jitter,
    }
}

/// What the group asks for in windows from `d` ticks on, up to the end.
fn stretch_together(sheet: &Sheet, group: &[bool; MOST_TASKS], d: u64, end: u64) -> Stretch
    requires before { d < end }
    requires end { end ≤ greatest_number }
    ensures asked { AskSo sheet.now group.now (length sheet.now.tasks) d result.until
        result.asked }
    ensures later { d < result.until }
    ensures within { result.until ≤ end }
{
    let mut asked: u128 = 0;
    let mut until = end;
    for o in 0..sheet.len() {
        let own = stretch_of(sheet, group, o, d, end);
        asked += own.asked;
        until = until.min(own.until);
    }
    Stretch { asked, until }
}

/// How far the tasks of one horizon are at most below their lines together, in ticks: on each
/// stretch they are the furthest below in the last window.
fn lag_together(sheet: &Sheet, group: &[bool; MOST_TASKS], common: u64) -> u128
    requires low { 1 ≤ common }
    requires high { common ≤ greatest_number }
    requires alike { HaveHorizon sheet.now common group.now (length sheet.now.tasks) }
    ensures { IsBehindTogether sheet.now group.now (length sheet.now.tasks) result }
{
    // for the proof: the sheet is valid
    let _valid = sheet.len();
    let rise = rise_together(sheet, group);
    let mut lag: u128 = 0;
    let mut begun = 0;
    while begun < common {
        let stretch = stretch_together(sheet, group, begun, common);
        let last = stretch.until - 1;
        let line = (rise.rate * last as u128 + rise.fixed + SCALE - 1) / SCALE;
        lag = lag.max(line.saturating_sub(stretch.asked));
        begun = stretch.until;
    }
    lag
}

/// How far task `o` is at most below its line, in ticks, where it is of the group.
fn single_lag(sheet: &Sheet, group: &[bool; MOST_TASKS], o: u32) -> u128
    requires task { o < length sheet.now.tasks }
    ensures behind { (l : ℕ) → rise_in sheet.now group.now l o ≤
        (asked_in sheet.now group.now l o + result) * scale }
    ensures bound { result ≤ 2 ^ 50 }
{
    let task = sheet.task(o);
    if !group[o as usize] {
        return 0;
    }
    task.cost as u128 * lag(&task.curve)
}

/// The same of all tasks of the group, added up.
fn single_lags(sheet: &Sheet, group: &[bool; MOST_TASKS]) -> u128
    ensures behind { IsBehindTogether sheet.now group.now (length sheet.now.tasks) result }
    ensures bound { result ≤ 2 ^ 58 }
{
    let mut lags: u128 = 0;
    for o in 0..sheet.len() {
        lags += single_lag(sheet, group, o);
    }
    lags
}

/// How many stairs there are to look at along the horizon.
fn stairs(sheet: &Sheet, group: &[bool; MOST_TASKS]) -> usize {
    let mut tasks: usize = 0;
    let mut steps: usize = 0;
    for o in 0..sheet.len() {
        let task = sheet.task(o);
        if group[o as usize] {
            tasks = tasks.saturating_add(1);
            steps = steps.saturating_add(task.curve.steps().len());
        }
    }
    tasks.saturating_mul(steps)
}

/// How far the tasks of one horizon are at most below their lines together, in ticks.
fn group_lag(sheet: &Sheet, group: &[bool; MOST_TASKS], common: u64) -> u128
    requires low { 1 ≤ common }
    requires high { common ≤ greatest_number }
    requires alike { HaveHorizon sheet.now common group.now (length sheet.now.tasks) }
    ensures behind { IsBehindTogether sheet.now group.now (length sheet.now.tasks) result }
    ensures bound { result ≤ 2 ^ 58 }
{
    let single = single_lags(sheet, group);
    if single == 0 || stairs(sheet, group) > MOST_STAIRS {
        return single;
    }
    let together = lag_together(sheet, group, common);
    if together < single { together } else { single }
}

/// Whether task `o` is marked and has this horizon.
fn is_alike(sheet: &Sheet, marks: &[bool; MOST_TASKS], o: u32, common: u64) -> bool
    requires task { o < length sheet.now.tasks }
    ensures { result ≡ ((task_at sheet.now o).curve.horizon == common && is_in marks.now o) }
{
    let task = sheet.task(o);
    task.curve.horizon() == common && marks[o as usize]
}

/// Those of the marked tasks that have this horizon.
fn group_of(sheet: &Sheet, marks: &[bool; MOST_TASKS], common: u64) -> [bool; MOST_TASKS]
    ensures { IsGroup sheet.now common marks.now result (length sheet.now.tasks) }
{
    let mut group = [false; MOST_TASKS];
    for o in 0..sheet.len() {
        group[o as usize] = is_alike(sheet, marks, o, common);
    }
    group
}

/// Whether task `o` is marked and has another horizon.
fn is_other(sheet: &Sheet, marks: &[bool; MOST_TASKS], o: u32, common: u64) -> bool
    requires task { o < length sheet.now.tasks }
    ensures { result ≡ (not ((task_at sheet.now o).curve.horizon == common) && is_in marks.now o) }
{
    let task = sheet.task(o);
    task.curve.horizon() != common && marks[o as usize]
}

/// Those of the marked tasks that have another horizon.
fn rest_of(sheet: &Sheet, marks: &[bool; MOST_TASKS], common: u64) -> [bool; MOST_TASKS]
    ensures { IsRest sheet.now common marks.now result (length sheet.now.tasks) }
{
    let mut rest = [false; MOST_TASKS];
    for o in 0..sheet.len() {
        rest[o as usize] = is_other(sheet, marks, o, common);
    }
    rest
}

/// How far the marked tasks are at most below their lines together, in ticks: one horizon after the
/// other.
pub fn common_lag(sheet: &Sheet, marks: &[bool; MOST_TASKS]) -> u128
    ensures { IsBehindTogether sheet.now marks.now (length sheet.now.tasks) result }
{
    let mut left = *marks;
    let mut lag: u128 = 0;
    for o in 0..sheet.len() {
        if left[o as usize] {
            let common = sheet.task(o).curve.horizon();
            let group = group_of(sheet, &left, common);
            lag += group_lag(sheet, &group, common);
            left = rest_of(sheet, &left, common);
        }
    }
    lag
}
