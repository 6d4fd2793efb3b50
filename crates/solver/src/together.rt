//! How long windows and ends are at least, by the load of tasks with one lag for those of one
//! horizon.
ghost use Rattle.std.specs.Prelude.{◌≡◌, ℕ, ◌≤◌, ◌<◌, ◌+◌, true, length};
ghost use Rattle.lists.specs.Limits.{greatest_number};
ghost use Rattle.task_sheet.specs.Sheets.{IsTask};
ghost use Rattle.policy.specs.Keys.{not_below_zero};
ghost use Rattle.demand.specs.Demand.{other_of, class_part_of, need_of, window_need_of};
ghost use Rattle.solver.specs.Ceilings.{IsCeiling, IsOver};
ghost use Rattle.solver.specs.Loads.{IsSmallLine, IsBelowCrossing, IsBelowWindows, IsBelowEnds};
ghost use Rattle.solver.specs.Groups.{CountsWhole, AreWhole, IsBesideAt, IsBesideTo, IsBare};
ghost use Rattle.solver.specs.Groups.{lowered};

use crate::caps::{other_line, part_line, reach};
use crate::ceilings::Ceiling;
use crate::groups::{MOST_TASKS, common_lag};
use crate::load::{FLAT, Line, SCALE, asked, crossing, joined, rate};
use policy::{Cap, Policy};
use preemption::Preemption;
use task_sheet::{Sheet, Task};

/// The line of all that a task asks for, from a window of `x` ticks on up to the cut, with no lag.
#[tactic(auto, using(task_sheet::specs::Limits::jitter_high))]
fn bare_line(task: &Task, x: u64, cut: u64) -> Line
    requires valid { IsTask task.now }
    requires window { x ≤ greatest_number }
    requires cut { cut ≤ 4000000000 }
    ensures bare { IsBare task.now x result }
    ensures small { IsSmallLine 1 result }
{
    let rate = rate(task);
    Line {
        fixed: rate * task.jitter as u128,
        rate,
        loss: asked(task, x + task.jitter) * SCALE,
        cut,
    }
}

/// Before which window a supply with this ceiling has not caught up with the line, lowered by so
/// many ticks.
fn crossing_lowered(line: Line, lag: u128, wanted: u128, horizon: u64, ceiling: &Ceiling) -> u64
    requires line { IsSmallLine 256 line }
    requires wanted { wanted ≤ greatest_number }
    requires horizon { horizon ≤ greatest_number }
    requires cut { line.cut ≤ 4000000000 }
    requires ceiling { IsCeiling ceiling.now }
    ensures below { (sbf : ℕ → ℕ) → IsOver sbf ceiling.now →
        IsBelowCrossing sbf (lowered line lag) wanted horizon result }
    ensures within { result ≤ horizon + 1 }
{
    if wanted <= lag {
        return 0;
    }
    crossing(line, wanted - lag, horizon, ceiling)
}

/// Whether there is a task whose horizon is at most `long`, and more than a fourth of that.
fn is_longer(sheet: &Sheet, long: u64) -> bool {
    let mut longer = false;
    for o in 0..sheet.len() {
        let horizon = sheet.task(o).curve.horizon();
        longer = longer || horizon <= long && horizon > long / 4;
    }
    longer
}

/// Whether task `o` is in the class of task `i` and its horizon is at most `long`.
fn counts_in_class<P: Policy>(sheet: &Sheet, i: u32, o: u32, long: u64) -> bool
    requires i { i < length sheet.now.tasks }
    requires o { o < length sheet.now.tasks }
    ensures { result ≡ true → CountsWhole (class_part_of P.meaning sheet.now i) sheet.now
        4000000000 o }
{
    if sheet.task(o).curve.horizon() > long {
        return false;
    }
    P::class(sheet, i, o)
}

/// Marks the tasks of the class of task `i` whose horizon is at most `long`.
fn class_marks<P: Policy>(sheet: &Sheet, i: u32, long: u64) -> [bool; MOST_TASKS]
    requires task { i < length sheet.now.tasks }
    ensures { AreWhole (class_part_of P.meaning sheet.now i) sheet.now 4000000000 result
        (length sheet.now.tasks) }
{
    let mut marks = [false; MOST_TASKS];
    for o in 0..sheet.len() {
        marks[o as usize] = counts_in_class::<P>(sheet, i, o, long);
    }
    marks
}

/// The line of what task `o` asks for in the class of task `i`: with no lag, where it is marked.
fn class_share<P: Policy>(
    sheet: &Sheet,
    i: u32,
    o: u32,
    x: u64,
    long: u64,
    marks: &[bool; MOST_TASKS],
) -> Line
    requires i { i < length sheet.now.tasks }
    requires o { o < length sheet.now.tasks }
    requires window { x ≤ greatest_number }
    requires whole { AreWhole (class_part_of P.meaning sheet.now i) sheet.now 4000000000 marks.now
        (length sheet.now.tasks) }
    ensures beside { IsBesideAt (class_part_of P.meaning sheet.now i) sheet.now marks.now
        4000000000 o x result }
    ensures small { IsSmallLine 1 result }
{
    let task = sheet.task(o);
    if marks[o as usize] {
        bare_line(task, x, FLAT.cut)
    } else {
        part_line::<P>(sheet, i, o, x, long)
    }
}

/// The line of what the class of task `i` asks for, with no lag for marked tasks.
fn class_beside<P: Policy>(
    sheet: &Sheet,
    i: u32,
    x: u64,
    long: u64,
    marks: &[bool; MOST_TASKS],
) -> Line
    requires task { i < length sheet.now.tasks }
    requires window { x ≤ greatest_number }
    requires whole { AreWhole (class_part_of P.meaning sheet.now i) sheet.now 4000000000 marks.now
        (length sheet.now.tasks) }
    ensures beside { IsBesideTo (class_part_of P.meaning sheet.now i) sheet.now marks.now
        4000000000 (length sheet.now.tasks) x result }
    ensures small { IsSmallLine 256 result }
{
    let mut line = FLAT;
    for o in 0..sheet.len() {
        line = joined(line, class_share::<P>(sheet, i, o, x, long, marks));
    }
    line
}

/// Before which window those from `window` on do not supply what the class of task `i` asks for,
/// which asks for so many ticks there: by the lines that follow tasks of horizons up to `long`. It
/// is 0 where a fourth of that has the same lines.
pub fn class_bound<P: Policy, M: Preemption>(
    sheet: &Sheet,
    i: u32,
    window: u64,
    wanted: u128,
    horizon: u64,
    long: u64,
    ceiling: &Ceiling,
) -> u64
    requires task { i < length sheet.now.tasks }
    requires window { window ≤ greatest_number }
    requires horizon { horizon ≤ greatest_number }
    requires wanted { wanted ≡ window_need_of P.meaning M.cuts sheet.now i window }
    requires few { wanted ≤ greatest_number }
    requires ceiling { IsCeiling ceiling.now }
    ensures below { (sbf : ℕ → ℕ) → IsOver sbf ceiling.now →
        IsBelowWindows P.meaning M.cuts sbf sheet.now i window horizon result }
    ensures within { result ≤ horizon + 1 }
{
    if !is_longer(sheet, long) {
        return 0;
    }
    let marks = class_marks::<P>(sheet, i, long);
    let line = class_beside::<P>(sheet, i, window, long, &marks);
    crossing_lowered(line, common_lag(sheet, &marks), wanted, horizon, ceiling)
}

/// Whether a cap reaches so far, in ticks from the window's begin.
fn reaches(c: i64, far: u64) -> bool
    ensures { result ≡ true → far ≤ not_below_zero c }
{
    far <= reach(c)
}

/// Whether the horizon of task `o` is at most `long`, and all its jobs count for a job of task `i`
/// at offset `a`, in windows up to the cut.
fn counts_whole<P: Policy>(sheet: &Sheet, i: u32, a: u64, o: u32, long: u64, cut: u64) -> bool
    requires i { i < length sheet.now.tasks }
    requires o { o < length sheet.now.tasks }
    requires offset { a ≤ greatest_number }
    requires cut { cut ≤ 4000000000 }
    ensures { result ≡ true → CountsWhole (other_of P.meaning sheet.now i a) sheet.now cut o }
{
    let task = sheet.task(o);
    if o == i {
        return false;
    }
    if task.curve.horizon() > long {
        return false;
    }
    match P::cap(sheet, i, o, a) {
        Cap::Nothing => false,
        Cap::At(c) => reaches(c, cut + task.jitter),
        Cap::All => true,
    }
}

/// Marks the other tasks whose horizon is at most `long` and of which all jobs count in windows up
/// to the cut.
fn others_marks<P: Policy>(sheet: &Sheet, i: u32, a: u64, long: u64, cut: u64) -> [bool; MOST_TASKS]
    requires task { i < length sheet.now.tasks }
    requires offset { a ≤ greatest_number }
    requires cut { cut ≤ 4000000000 }
    ensures { AreWhole (other_of P.meaning sheet.now i a) sheet.now cut result
        (length sheet.now.tasks) }
{
    let mut marks = [false; MOST_TASKS];
    for o in 0..sheet.len() {
        marks[o as usize] = counts_whole::<P>(sheet, i, a, o, long, cut);
    }
    marks
}

/// The line of what task `o` asks for, of what a job of task `i` waits for at offset `a`: with no
/// lag, where it is marked.
fn other_share<P: Policy>(
    sheet: &Sheet,
    i: u32,
    a: u64,
    o: u32,
    x: u64,
    long: u64,
    cut: u64,
    marks: &[bool; MOST_TASKS],
) -> Line
    requires i { i < length sheet.now.tasks }
    requires o { o < length sheet.now.tasks }
    requires offset { a ≤ greatest_number }
    requires window { x ≤ greatest_number }
    requires cut { cut ≤ 4000000000 }
    requires whole { AreWhole (other_of P.meaning sheet.now i a) sheet.now cut marks.now
        (length sheet.now.tasks) }
    ensures beside { IsBesideAt (other_of P.meaning sheet.now i a) sheet.now marks.now cut o
        x result }
    ensures small { IsSmallLine 1 result }
{
    let task = sheet.task(o);
    if marks[o as usize] {
        bare_line(task, x, cut)
    } else {
        other_line::<P>(sheet, i, a, o, x, long)
    }
}

/// The line of what the other tasks ask for, with no lag for marked tasks.
fn others_beside<P: Policy>(
    sheet: &Sheet,
    i: u32,
    a: u64,
    x: u64,
    long: u64,
    cut: u64,
    marks: &[bool; MOST_TASKS],
) -> Line
    requires task { i < length sheet.now.tasks }
    requires offset { a ≤ greatest_number }
    requires window { x ≤ greatest_number }
    requires cut { cut ≤ 4000000000 }
    requires whole { AreWhole (other_of P.meaning sheet.now i a) sheet.now cut marks.now
        (length sheet.now.tasks) }
    ensures beside { IsBesideTo (other_of P.meaning sheet.now i a) sheet.now marks.now cut
        (length sheet.now.tasks) x result }
    ensures small { IsSmallLine 256 result }
    ensures cut { result.cut ≤ cut }
{
    let mut line = Line {
        fixed: 0,
        rate: 0,
        loss: 0,
        cut,
    };
    for o in 0..sheet.len() {
        line = joined(line, other_share::<P>(sheet, i, a, o, x, long, cut, marks));
    }
    line
}

/// Before which end those from `x` on do not supply what a job of task `i` at offset `a` needs,
/// which needs so many ticks by then: up to the cut, by the lines that follow tasks of horizons up
/// to `long`. It is 0 where a fourth of that has the same lines.
pub fn others_bound<P: Policy, M: Preemption>(
    sheet: &Sheet,
    i: u32,
    a: u64,
    x: u64,
    wanted: u128,
    limit: u64,
    long: u64,
    cut: u64,
    ceiling: &Ceiling,
) -> u64
    requires task { i < length sheet.now.tasks }
    requires offset { a ≤ greatest_number }
    requires end { x ≤ greatest_number }
    requires limit { limit ≤ greatest_number }
    requires wanted { wanted ≡ need_of P.meaning M.cuts sheet.now i a x }
    requires few { wanted ≤ greatest_number }
    requires cut { cut ≤ 4000000000 }
    requires ceiling { IsCeiling ceiling.now }
    ensures below { (sbf : ℕ → ℕ) → IsOver sbf ceiling.now →
        IsBelowEnds P.meaning M.cuts sbf sheet.now i a x limit result }
    ensures within { result ≤ limit + 1 }
{
    if !is_longer(sheet, long) {
        return 0;
    }
    let marks = others_marks::<P>(sheet, i, a, long, cut);
    let line = others_beside::<P>(sheet, i, a, x, long, cut, &marks);
    crossing_lowered(line, common_lag(sheet, &marks), wanted, limit, ceiling)
}
