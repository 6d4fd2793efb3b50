//! How long windows and ends are at least, by the load of the tasks that ask for them.
//!
//! Near load 1 single steps are too many. Tasks of short horizons ask for at least what a line says
//! that rises with their load, and the others for no less than they do already; so no window is
//! enough before the ceiling of the supply has caught up with that line.
ghost use Rattle.std.specs.Prelude.{◌≡◌, ◌≤◌, ◌<◌, ◌+◌, length};
ghost use Rattle.lists.specs.Limits.{greatest_number};
ghost use Rattle.preemption.specs.CutLaws.{Serves};
ghost use Rattle.task_sheet.specs.Sheets.{IsTask};
ghost use Rattle.policy.specs.declared.keys.Cap.TheVariants.{At};
ghost use Rattle.policy.specs.Keys.{not_below_zero};
ghost use Rattle.demand.specs.Demand.{other_of, class_part_of, need_of, window_need_of};
ghost use Rattle.solver.specs.Loads.{IsUnderCapped, IsUnderAt, IsUnderTo, IsSmallLine};
ghost use Rattle.solver.specs.Loads.{IsBelowWindows, IsBelowEnds};

use crate::ceilings::Ceiled;
use crate::load::{FLAT, Line, crossing, joined, slope};
use crate::pace::Pace;
use crate::together::{class_bound, others_bound};
use lists::limits::GREATEST_NUMBER;
use policy::{Cap, Policy};
use preemption::Preemption;
use task_sheet::{Sheet, Task};

/// The line of what task `o` asks for in the class of task `i`, where its horizon is at most so
/// long.
pub fn part_line<P: Policy>(sheet: &Sheet, i: u32, o: u32, x: u64, long: u64) -> Line
    requires i { i < length sheet.now.tasks }
    requires o { o < length sheet.now.tasks }
    requires window { x ≤ greatest_number }
    ensures under { IsUnderAt (class_part_of P.meaning sheet.now i) o x result }
    ensures small { IsSmallLine 1 result }
{
    let task = sheet.task(o);
    if task.curve.horizon() > long {
        return FLAT;
    }
    if P::class(sheet, i, o) {
        slope(task, x)
    } else {
        FLAT
    }
}

/// The line of what the class of task `i` asks for.
fn class_line<P: Policy>(sheet: &Sheet, i: u32, x: u64, long: u64) -> Line
    requires task { i < length sheet.now.tasks }
    requires window { x ≤ greatest_number }
    ensures under { IsUnderTo (class_part_of P.meaning sheet.now i) (length sheet.now.tasks) x
        result }
    ensures small { IsSmallLine 256 result }
{
    let mut line = FLAT;
    for o in 0..sheet.len() {
        line = joined(line, part_line::<P>(sheet, i, o, x, long));
    }
    line
}

/// How far a cap reaches, in ticks from the window's begin.
pub fn reach(c: i64) -> u64
    ensures { result ≡ not_below_zero c }
{
    if c <= 0 { 0 } else { c as u64 }
}

/// The line of all that a task asks for, as far as it lies below the cap.
#[tactic(auto, using(task_sheet::specs::Limits::jitter_high))]
fn capped(task: &Task, c: i64, x: u64) -> Line
    requires valid { IsTask task.now }
    requires window { x ≤ greatest_number }
    ensures under { IsUnderCapped task.now (At c) x result }
    ensures small { IsSmallLine 1 result }
{
    let line = slope(task, x);
    let end = reach(c);
    let released = x + task.jitter;
    if end <= released {
        return FLAT;
    }
    Line {
        fixed: line.fixed,
        rate: line.rate,
        loss: line.loss,
        cut: line.cut.min(end - task.jitter),
    }
}

/// The line of those jobs of a task that arrive within the cap.
fn cap_line(task: &Task, cap: Cap, x: u64) -> Line
    requires valid { IsTask task.now }
    requires window { x ≤ greatest_number }
    ensures under { IsUnderCapped task.now cap x result }
    ensures small { IsSmallLine 1 result }
{
    match cap {
        Cap::Nothing => FLAT,
        Cap::At(c) => capped(task, c, x),
        Cap::All => slope(task, x),
    }
}

/// The line of what task `o` asks for, of what a job of task `i` waits for at offset `a`, where its
/// horizon is at most `long`.
pub fn other_line<P: Policy>(sheet: &Sheet, i: u32, a: u64, o: u32, x: u64, long: u64) -> Line
    requires i { i < length sheet.now.tasks }
    requires o { o < length sheet.now.tasks }
    requires offset { a ≤ greatest_number }
    requires window { x ≤ greatest_number }
    ensures under { IsUnderAt (other_of P.meaning sheet.now i a) o x result }
    ensures small { IsSmallLine 1 result }
{
    let task = sheet.task(o);
    if o == i {
        return FLAT;
    }
    if task.curve.horizon() > long {
        return FLAT;
    }
    cap_line(task, P::cap(sheet, i, o, a), x)
}

/// The line of what the other tasks ask for.
fn others_line<P: Policy>(sheet: &Sheet, i: u32, a: u64, x: u64, long: u64) -> Line
    requires task { i < length sheet.now.tasks }
    requires offset { a ≤ greatest_number }
    requires window { x ≤ greatest_number }
    ensures under { IsUnderTo (other_of P.meaning sheet.now i a) (length sheet.now.tasks) x result }
    ensures small { IsSmallLine 256 result }
{
    let mut line = FLAT;
    for o in 0..sheet.len() {
        line = joined(line, other_line::<P>(sheet, i, a, o, x, long));
    }
    line
}

/// Before which window those from `window` on do not supply what the class of task `i` asks for,
/// which asks for so many ticks there: the best of the lines that follow tasks of short horizons.
fn longest_window<P: Policy, M: Preemption, S: Ceiled>(
    sheet: &Sheet,
    supply: &S,
    i: u32,
    window: u64,
    wanted: u128,
    horizon: u64,
) -> u64
    requires task { i < length sheet.now.tasks }
    requires window { window ≤ greatest_number }
    requires horizon { horizon ≤ greatest_number }
    requires wanted { wanted ≡ window_need_of P.meaning M.cuts sheet.now i window }
    requires few { wanted ≤ greatest_number }
    ensures below { IsBelowWindows P.meaning M.cuts (S.sbf supply.now) sheet.now i window horizon
        result }
    ensures within { result ≤ horizon + 1 }
{
    // for the proof: the sheet is valid
    let _valid = sheet.len();
    let ceiling = supply.ceiling();
    let mut bound: u64 = 0;
    let mut long = 1;
    while long <= GREATEST_NUMBER {
        let line = class_line::<P>(sheet, i, window, long);
        bound = bound.max(crossing(line, wanted, horizon, &ceiling));
        bound = bound.max(class_bound::<P, M>(sheet, i, window, wanted, horizon, long, &ceiling));
        long *= 4;
    }
    bound
}

/// The same, where it is the turn to look at the load, else 0; the turn alone leads to `next`.
pub fn window_bound<P: Policy, M: Preemption, S: Ceiled>(
    sheet: &Sheet,
    supply: &S,
    i: u32,
    window: u64,
    wanted: u128,
    horizon: u64,
    next: u64,
    pace: &mut Pace,
) -> u64
    requires task { i < length sheet.now.tasks }
    requires window { window ≤ greatest_number }
    requires horizon { horizon ≤ greatest_number }
    requires wanted { wanted ≡ window_need_of P.meaning M.cuts sheet.now i window }
    requires few { wanted ≤ greatest_number }
    ensures below { IsBelowWindows P.meaning M.cuts (S.sbf supply.now) sheet.now i window horizon
        result }
    ensures within { result ≤ horizon + 1 }
{
    if !pace.is_due() {
        return 0;
    }
    let bound = longest_window::<P, M, S>(sheet, supply, i, window, wanted, horizon);
    pace.note(window, next, bound);
    bound
}

/// Before which end those from `x` on do not supply what a job of task `i` at offset `a` needs,
/// which needs so many ticks by then.
fn longest_end<P: Policy, M: Preemption, S: Ceiled>(
    sheet: &Sheet,
    supply: &S,
    i: u32,
    a: u64,
    x: u64,
    wanted: u128,
    limit: u64,
) -> u64
    requires task { i < length sheet.now.tasks }
    requires offset { a ≤ greatest_number }
    requires end { x ≤ greatest_number }
    requires limit { limit ≤ greatest_number }
    requires wanted { wanted ≡ need_of P.meaning M.cuts sheet.now i a x }
    requires few { wanted ≤ greatest_number }
    ensures below { IsBelowEnds P.meaning M.cuts (S.sbf supply.now) sheet.now i a x limit result }
    ensures within { result ≤ limit + 1 }
{
    // for the proof: the sheet is valid
    let _valid = sheet.len();
    let ceiling = supply.ceiling();
    let mut bound: u64 = 0;
    let mut long = 1;
    while long <= GREATEST_NUMBER {
        let line = others_line::<P>(sheet, i, a, x, long);
        bound = bound.max(crossing(line, wanted, limit, &ceiling));
        bound = bound.max(others_bound::<P, M>(
            sheet, i, a, x, wanted, limit, long, line.cut, &ceiling,
        ));
        long *= 4;
    }
    bound
}

/// The same, where it is the turn to look at the load, else 0; the turn alone leads to `next`.
pub fn end_bound<P: Policy, M: Preemption, S: Ceiled>(
    sheet: &Sheet,
    supply: &S,
    i: u32,
    a: u64,
    x: u64,
    wanted: u128,
    limit: u64,
    next: u64,
    pace: &mut Pace,
) -> u64
    requires task { i < length sheet.now.tasks }
    requires offset { a ≤ greatest_number }
    requires end { x ≤ greatest_number }
    requires limit { limit ≤ greatest_number }
    requires wanted { wanted ≡ need_of P.meaning M.cuts sheet.now i a x }
    requires few { wanted ≤ greatest_number }
    ensures below { IsBelowEnds P.meaning M.cuts (S.sbf supply.now) sheet.now i a x limit result }
    ensures within { result ≤ limit + 1 }
{
    if !pace.is_due() {
        return 0;
    }
    let bound = longest_end::<P, M, S>(sheet, supply, i, a, x, wanted, limit);
    pace.note(x, next, bound);
    bound
}
