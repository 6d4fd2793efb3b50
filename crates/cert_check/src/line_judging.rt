//! Judging a certificate line by line, on a meter.
ghost use Rattle.std.specs.Prelude.{◌≡◌, ◌==◌, false, length};
ghost use Rattle.lists.specs.Firsts.{first_of, must};
ghost use Rattle.conditions.specs.Conditions.{of_cert};
ghost use Rattle.conditions.specs.declared.failed.Cond.TheVariants.{K1};
ghost use Rattle.preemption.specs.CutLaws.{Serves};
ghost use Rattle.certificate.specs.declared.step.LineStep.TheVariants as says;
ghost use Rattle.cert_check.specs.JudgedLines.{judge_line};
ghost use Rattle.cert_check.specs.Standing.{IsReady, LineFits};

use crate::judged::Judged;
use crate::points::{closed_failed, point_failed};
use certificate::{LineStep, Terms};
use conditions::{Cond, Failed, entry_failed};
use meter::Meter;
use policy::Policy;
use preemption::Preemption;
use supply::Supply;
use task_sheet::Sheet;

/// The first condition that fails, with `K1` for so many entries.
fn count_failed(sheet: &Sheet, failed: Option<Failed>, count: u32) -> Option<Failed>
    ensures { result ≡ first_of failed (must (count == length sheet.now.tasks) (of_cert K1)) }
{
    if failed.is_some() || count == sheet.len() {
        return failed;
    }
    Some(Failed {
        cond: Cond::K1,
        task: None,
        point: None,
    })
}

/// What is known after the line of an entry. The meter stands at its task then.
#[inline(never)]
fn entry_judged<P: Policy, M: Preemption, S: Supply>(
    sheet: &Sheet,
    supply: &S,
    deadlines: bool,
    meter: &mut Meter<'_, P, M>,
    judged: Judged,
    task: u32,
    window: u64,
    bound: u64,
) -> Judged
    requires fits { LineFits sheet.now judged (says.Entry task window bound 0) }
    requires served { Serves M.cuts sheet.now }
    requires ready { IsReady sheet.now meter.old judged }
    ensures judged { result ≡ judge_line P.meaning M.cuts (S.sbf supply.now) sheet.now deadlines
        judged (says.Entry task window bound 0) }
    ensures ready { IsReady sheet.now meter.new result }
{
    let after = Judged {
        failed: closed_failed::<P, M>(sheet, meter, &judged),
        task,
        window,
        bound,
        before: None,
    };
    if after.failed.is_some() {
        return after;
    }
    meter.open(task);
    match entry_failed::<P, M, S>(sheet, supply, task, window, bound, deadlines) {
        Some(cond) => Judged {
            failed: Some(Failed::of_task(task, cond)),
            ..after
        },
        None => after,
    }
}

/// Notes the line of a point. The meter stands there then, where nothing failed.
#[inline]
pub(crate) fn note_point<P: Policy, M: Preemption, S: Supply>(
    sheet: &Sheet,
    supply: &S,
    meter: &mut Meter<'_, P, M>,
    judged: &mut Judged,
    offset: u64,
    end: u64,
    terms: &Option<Terms>,
)
    requires fits { LineFits sheet.now judged.old (says.Point offset end terms.now) }
    requires served { Serves M.cuts sheet.now }
    requires ready { IsReady sheet.now meter.old judged.old }
    ensures judged { judged.new ≡ judge_line P.meaning M.cuts (S.sbf supply.now) sheet.now false
        judged.old (says.Point offset end terms.now) }
    ensures ready { IsReady sheet.now meter.new judged.new }
{
    if judged.failed.is_some() {
        judged.before = Some(offset);
        return;
    }
    judged.failed = point_failed::<P, M, S>(sheet, supply, meter, judged, offset, end, terms);
    judged.before = Some(offset);
}

/// Notes one more line.
#[inline]
pub(crate) fn note_line<P: Policy, M: Preemption, S: Supply>(
    sheet: &Sheet,
    supply: &S,
    deadlines: bool,
    meter: &mut Meter<'_, P, M>,
    judged: &mut Judged,
    line: &LineStep,
)
    requires fits { LineFits sheet.now judged.old line.now }
    requires served { Serves M.cuts sheet.now }
    requires ready { IsReady sheet.now meter.old judged.old }
    ensures judged { judged.new ≡ judge_line P.meaning M.cuts (S.sbf supply.now) sheet.now deadlines
        judged.old line.now }
    ensures ready { IsReady sheet.now meter.new judged.new }
{
    match line {
        LineStep::More | LineStep::Bad => {}
        LineStep::Tasks(count) => {
            judged.failed = count_failed(sheet, judged.failed, *count);
        }
        LineStep::Entry {
            task,
            window,
            bound,
            ..
        } => {
            *judged = entry_judged::<P, M, S>(
                sheet, supply, deadlines, meter, *judged, *task, *window, *bound,
            );
        }
        LineStep::Point { offset, end, terms } => {
            note_point::<P, M, S>(sheet, supply, meter, judged, *offset, *end, terms);
        }
        LineStep::End => {
            judged.failed = closed_failed::<P, M>(sheet, meter, judged);
        }
    }
}

/// What is known after one more line.
pub(crate) fn line_judged<P: Policy, M: Preemption, S: Supply>(
    sheet: &Sheet,
    supply: &S,
    deadlines: bool,
    meter: &mut Meter<'_, P, M>,
    judged: Judged,
    line: LineStep,
) -> Judged
    requires fits { LineFits sheet.now judged line }
    requires served { Serves M.cuts sheet.now }
    requires ready { IsReady sheet.now meter.old judged }
    ensures judged { result ≡ judge_line P.meaning M.cuts (S.sbf supply.now) sheet.now deadlines
        judged line }
    ensures ready { IsReady sheet.now meter.new result }
{
    let mut judged = judged;
    note_line::<P, M, S>(sheet, supply, deadlines, meter, &mut judged, &line);
    judged
}
