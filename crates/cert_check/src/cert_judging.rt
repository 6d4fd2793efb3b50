//! Judging a certificate that was read, line by line, on a meter.
ghost use Rattle.std.specs.Prelude.{◌≡◌, ◌≤◌, ◌<◌, ◌∷◌, None, length, slice_get, fold, All, IfOk};
ghost use Rattle.lists.specs.Limits.{most_tasks};
ghost use Rattle.preemption.specs.CutLaws.{Serves};
ghost use Rattle.certificate.specs.declared.step.LineStep.TheVariants as says;
ghost use Rattle.certificate.specs.Text.{IsEntry, IsWithinGrammar};
ghost use Rattle.certificate.specs.Steps.{points_steps, entries_steps};
ghost use Rattle.conditions.specs.Conditions.{failed_of};
ghost use Rattle.cert_check.specs.JudgedLines.{unjudged, judge_line};
ghost use Rattle.cert_check.specs.Standing.{IsReady};
ghost use Rattle.cert_check.specs.Verdicts.{bounds_of, AreSound};

use crate::judged::Judged;
use crate::line_judging::{line_judged, note_point};
use abstract_rta::points_bound;
use certificate::{Cert, Entry, LineStep, Terms};
use conditions::{Failed, failed_means};
use meter::Meter;
use policy::Policy;
use preemption::Preemption;
use std::alloc::{AllocError, Global};
use supply::Supply;
use task_sheet::Sheet;

/// What is known before the first line.
fn nothing_judged() -> Judged
    ensures { result ≡ unjudged }
{
    Judged {
        failed: None,
        task: 0,
        window: 0,
        bound: 0,
        before: None,
    }
}

/// The terms at this place, where there are so many.
#[inline]
fn told_at(terms: &[Terms], at: usize) -> Option<Terms>
    ensures { result ≡ slice_get terms.now at }
{
    terms.get(at).copied()
}

/// What is known after the lines of an entry's points.
fn points_judged<P: Policy, M: Preemption, S: Supply>(
    sheet: &Sheet,
    supply: &S,
    deadlines: bool,
    meter: &mut Meter<'_, P, M>,
    judged: Judged,
    entry: &Entry,
) -> Judged
    requires fits { IsEntry entry.now }
    requires served { Serves M.cuts sheet.now }
    requires ready { IsReady sheet.now meter.old judged }
    ensures judged { result ≡ fold
        (judge_line P.meaning M.cuts (S.sbf supply.now) sheet.now deadlines) judged
        (points_steps entry.now) }
    ensures ready { IsReady sheet.now meter.new result }
{
    let mut judged = judged;
    let points = entry.points.as_slice();
    let terms = entry.terms.as_slice();
    for at in 0..points.len() {
        let told = told_at(terms, at);
        note_point::<P, M, S>(
            sheet,
            supply,
            meter,
            &mut judged,
            points[at].offset,
            points[at].end,
            &told,
        );
    }
    judged
}

/// What is known after the lines of the entry of a task.
fn entry_judged<P: Policy, M: Preemption, S: Supply>(
    sheet: &Sheet,
    supply: &S,
    deadlines: bool,
    meter: &mut Meter<'_, P, M>,
    judged: Judged,
    task: u32,
    entry: &Entry,
) -> Judged
    requires fits { IsEntry entry.now }
    requires task { judged.failed ≡ None → task < length sheet.now.tasks }
    requires served { Serves M.cuts sheet.now }
    requires ready { IsReady sheet.now meter.old judged }
    ensures judged { result ≡ fold
        (judge_line P.meaning M.cuts (S.sbf supply.now) sheet.now deadlines) judged
        (says.Entry task entry.now.window entry.now.bound (length entry.now.points)
        ∷ points_steps entry.now) }
    ensures ready { IsReady sheet.now meter.new result }
{
    let line = LineStep::Entry {
        task,
        window: entry.window,
        bound: entry.bound,
        count: entry.points.len() as u32,
    };
    let opened = line_judged::<P, M, S>(sheet, supply, deadlines, meter, judged, line);
    points_judged::<P, M, S>(sheet, supply, deadlines, meter, opened, entry)
}

/// What is known after the lines of these entries.
fn entries_judged<P: Policy, M: Preemption, S: Supply>(
    sheet: &Sheet,
    supply: &S,
    deadlines: bool,
    meter: &mut Meter<'_, P, M>,
    judged: Judged,
    entries: &[Entry],
) -> Judged
    requires fits { All IsEntry entries.now }
    requires few { length entries.now ≤ most_tasks }
    requires count { judged.failed ≡ None → length entries.now ≡ length sheet.now.tasks }
    requires served { Serves M.cuts sheet.now }
    requires ready { IsReady sheet.now meter.old judged }
    ensures judged { result ≡ fold
        (judge_line P.meaning M.cuts (S.sbf supply.now) sheet.now deadlines) judged
        (entries_steps 0 entries.now) }
    ensures ready { IsReady sheet.now meter.new result }
{
    let mut judged = judged;
    for i in 0..entries.len() {
        judged = entry_judged::<P, M, S>(
            sheet,
            supply,
            deadlines,
            meter,
            judged,
            i as u32,
            &entries[i],
        );
    }
    judged
}

/// The first condition that a certificate fails to meet, on a meter that was made for the sheet.
fn first_judged<P: Policy, M: Preemption, S: Supply>(
    sheet: &Sheet,
    supply: &S,
    deadlines: bool,
    meter: &mut Meter<'_, P, M>,
    cert: &Cert,
) -> Option<Failed>
    requires fits { IsWithinGrammar cert.now }
    requires served { Serves M.cuts sheet.now }
    requires ready { IsReady sheet.now meter.old unjudged }
    ensures { result ≡ failed_of P.meaning M.cuts (S.sbf supply.now) sheet.now deadlines cert.now }
{
    let entries = cert.entries.as_slice();
    let count = LineStep::Tasks(entries.len() as u32);
    let counted = line_judged::<P, M, S>(sheet, supply, deadlines, meter, nothing_judged(), count);
    let judged = entries_judged::<P, M, S>(sheet, supply, deadlines, meter, counted, entries);
    line_judged::<P, M, S>(sheet, supply, deadlines, meter, judged, LineStep::End).failed
}

/// The first condition that a certificate fails to meet for a sheet, with `deadlines` also that each
/// bound is at most its task's deadline. It is judged on a meter, as a checker does it.
///
/// Where there is none, the response times of every run that complies with the sheet are bounded by
/// the certificate's bounds, and with `deadlines` by the tasks' deadlines. Its counts and numbers must
/// be within the grammar.
pub fn judge_cert<P: Policy, M: Preemption, S: Supply>(
    alloc: Global,
    sheet: &Sheet,
    supply: &S,
    cert: &Cert,
    deadlines: bool,
) -> Result<Option<Failed>, AllocError>
    requires fits { IsWithinGrammar cert.now }
    requires served { Serves M.cuts sheet.now }
    ensures defined { IfOk result (λ failed. failed ≡
        failed_of P.meaning M.cuts (S.sbf supply.now) sheet.now deadlines cert.now) }
    ensures bounded { IfOk result (λ failed. failed ≡ None →
        AreSound P.meaning M.cuts (S.sbf supply.now) sheet.now deadlines (bounds_of cert.now)) }
{
    supply.known();
    failed_means::<P, M, S>();
    points_bound::<P, M, S>();
    // for the proof: the sheet is valid
    let _valid = sheet.len();
    let mut meter = Meter::<P, M>::new(alloc, sheet)?;
    Ok(first_judged::<P, M, S>(sheet, supply, deadlines, &mut meter, cert))
}
