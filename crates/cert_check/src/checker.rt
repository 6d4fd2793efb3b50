//! A certificate judged piece by piece.
ghost use Rattle.std.specs.Prelude.{◌≡◌, ℕ, List, [], ◌++◌, take, length, replicate, IfOk};
ghost use Rattle.poet_io.specs.Eaters.{Ate};
ghost use Rattle.preemption.specs.CutLaws.{Serves};
ghost use Rattle.certificate.specs.FirstLines.{IsFirstLine};
ghost use Rattle.cert_check.specs.JudgedLines.{note_bound as bounds_noted};
ghost use Rattle.cert_check.specs.Standing.{IsAt, MadeWith};
ghost use Rattle.cert_check.specs.Verdicts.{cert_verdict_of, IsVerdict, IsBoundedBy};

use crate::judged::Judged;
use crate::judging::Verdict;
use crate::line_judging::note_line;
use abstract_rta::points_bound;
use certificate::{LineStep, Lines, text_has_one_reading};
use conditions::failed_means;
use lists::Items;
use meter::Meter;
use poet_io::Eater;
use policy::Policy;
use preemption::Preemption;
use std::alloc::{AllocError, Global};
use std::marker::Model;
use supply::Supply;
use task_sheet::Sheet;

/// Judges the text of a certificate as it comes, for a sheet, and with `deadlines` also that each
/// bound is at most its task's deadline.
///
/// It keeps no byte. `IsAt` says what it was made with, and which bytes it was fed.
#[derive(Drop)]
pub struct Checker<'a, P: Policy, M: Preemption, S: Supply> {
    sheet: &'a Sheet,
    supply: &'a S,
    deadlines: bool,
    lines: Lines,
    meter: Meter<'a, P, M>,
    judged: Judged,
    bounds: Vec<u64>,
}

impl<'a, P: Policy, M: Preemption, S: Supply> Model for Checker<'a, P, M, S> {
    ghost use Rattle.cert_check.specs.CheckerParts.{CheckerParts};

    ghost Value = { CheckerParts S };

    ghost use Rattle.cert_check.specs.Standing.{IsChecking};

    ghost view = { λ c. record {
      sheet = c.sheet.now;
      supply = c.supply.now;
      deadlines = c.deadlines;
      lines = c.lines;
      judged = c.judged;
      bounds = c.bounds.items;
    } };

    ghost invariant = { λ c. IsChecking P.meaning M.cuts (S.sbf c.supply.now) c.sheet.now
        c.deadlines c.lines c.judged c.bounds.items c.meter };
}

/// The bounds after one more line.
#[inline]
fn note_bound(bounds: &mut [u64], line: &LineStep)
    ensures { bounds.new ≡ bounds_noted bounds.old line.now }
{
    if let LineStep::Entry { task, bound, .. } = line
        && (*task as usize) < bounds.len()
    {
        bounds[*task as usize] = *bound;
    }
}

impl<'a, P: Policy, M: Preemption, S: Supply> Checker<'a, P, M, S> {
    /// Before the first byte. Only this call takes memory; want of it is its only error.
    pub fn new(
        alloc: Global,
        sheet: &'a Sheet,
        supply: &'a S,
        deadlines: bool,
    ) -> Result<Checker<'a, P, M, S>, AllocError>
        requires { Serves M.cuts sheet.now }
        ensures { IfOk result (λ c. IsAt P.meaning M.cuts S.sbf c (record {
          sheet = sheet.now;
          supply = supply.now;
          deadlines = deadlines;
        }) []) }
    {
        let bounds = vec![in alloc; 0; sheet.len() as usize]?;
        let meter = Meter::<P, M>::new(alloc, sheet)?;
        Ok(Checker {
            sheet,
            supply,
            deadlines,
            lines: Lines::new(),
            meter,
            judged: Judged {
                failed: None,
                task: 0,
                window: 0,
                bound: 0,
                before: None,
            },
            bounds,
        })
    }

    /// Takes the bytes up to and with the first newline, or all where there is none, and says how
    /// many these are.
    #[inline]
    fn feed_line(&mut self, bytes: &[u8]) -> usize
        ensures first { IsFirstLine bytes.now result }
        ensures stands { (made : MadeWith S) (b : List ℕ) →
            IsAt P.meaning M.cuts S.sbf self.old made b →
            IsAt P.meaning M.cuts S.sbf self.new made (b ++ take result bytes.now) }
    {
        let (count, line) = self.lines.feed_line(bytes);
        note_bound(&mut self.bounds, &line);
        note_line::<P, M, S>(
            self.sheet,
            self.supply,
            self.deadlines,
            &mut self.meter,
            &mut self.judged,
            &line,
        );
        count
    }

    /// Takes the bytes behind those that it was fed before.
    pub fn feed(&mut self, piece: &[u8])
        ensures { Ate (IsAt P.meaning M.cuts S.sbf) self.old self.new piece.now }
    {
        let mut at = 0;
        while at < piece.len() {
            at += self.feed_line(&piece[at..]);
        }
    }

    fn verdict(self) -> Verdict
        ensures { (made : MadeWith S) (b : List ℕ) → IsAt P.meaning M.cuts S.sbf self.entry made b →
            result ≡ cert_verdict_of P.meaning M.cuts (S.sbf made.supply) made.sheet made.deadlines
            b }
    {
        text_has_one_reading();
        let Checker {
            sheet: _,
            supply: _,
            deadlines: _,
            lines,
            meter: _,
            judged,
            bounds,
        } = self;
        if !lines.is_over() {
            return Verdict::Text { line: lines.line() };
        }
        match judged.failed {
            Some(failed) => Verdict::Refused(failed),
            None => Verdict::Accepted(Items::new(bounds)),
        }
    }

    /// The verdict on the bytes that it was fed.
    ///
    /// Where it is `Accepted`, the response times of every run that complies with the sheet are
    /// bounded by the bounds, and with `deadlines` by the tasks' deadlines.
    pub fn finish(self) -> Verdict
        ensures defined { (made : MadeWith S) (b : List ℕ) →
            IsAt P.meaning M.cuts S.sbf self.entry made b →
            result ≡ cert_verdict_of P.meaning M.cuts (S.sbf made.supply) made.sheet made.deadlines
            b }
        ensures judged { (made : MadeWith S) (b : List ℕ) →
            IsAt P.meaning M.cuts S.sbf self.entry made b →
            IsVerdict P.meaning M.cuts (S.sbf made.supply) made.sheet made.deadlines b result }
        ensures bounded { IsBoundedBy P.meaning M.cuts (S.sbf self.entry.supply) self.entry.sheet
            self.entry.deadlines result }
    {
        text_has_one_reading();
        failed_means::<P, M, S>();
        points_bound::<P, M, S>();
        self.supply.known();
        // for the proof: the sheet is valid
        let _valid = self.sheet.len();
        self.verdict()
    }
}

impl<'a, P: Policy, M: Preemption, S: Supply> Eater for Checker<'a, P, M, S> {
    ghost use Rattle.cert_check.specs.Standing.{IsAt, MadeWith};

    ghost Made = { MadeWith S };

    ghost stands = { λ c made b. IsAt P.meaning M.cuts S.sbf c made b };

    fn eat(&mut self, piece: &[u8]) {
        self.feed(piece);
    }
}
