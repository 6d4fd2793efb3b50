//! A certificate's text as it comes, byte by byte or line by line.

ghost use Rattle.std.specs.Prelude.{◌≡◌, ◌<◌, take, IfSome, IfNone, None, ◌↔◌, ◌==◌, ◌&&◌, ◌+◌, ℕ, [], ◌∷◌, ◌++◌, List, if◌then◌else◌, IsTrue, slice_index_or};
ghost use Rattle.lists.specs.Limits.{greatest_number};
ghost use Rattle.poet_io.specs.Texts.{Parses, BeginsText, IsRefusedLine, newlines};
ghost use Rattle.certificate.specs.Text.{cert_format};
ghost use Rattle.certificate.specs.Steps.{steps_of};
ghost use Rattle.certificate.specs.FirstLines.{IsFirstLine, said_at, said_after};
ghost use Rattle.certificate.specs.Machine.{StandsFor, after_byte, after_bytes, next_place, is_good_at};
ghost use Rattle.certificate.specs.declared.cert.Cert.{Cert};

use crate::cert::{Point, Version};
use crate::place::Place;
use crate::scanning::{scan_full, scan_plain};
use crate::step::LineStep;
use std::marker::Model;

/// The line after one more byte that led to `place`, where bytes led to line `line` before.
fn next_line(line: u64, byte: u8, place: Place) -> u64
    requires { line < greatest_number }
    ensures { result ≡ (if byte == 10 && is_good_at place.expected then line + 1 else line) }
{
    if byte == b'\n' && place.is_good() {
        line + 1
    } else {
        line
    }
}

/// A certificate's text as it comes, byte by byte or line by line.
///
/// It keeps no byte. `StandsFor` says which bytes it was fed.
#[derive(Debug, Drop)]
pub struct Lines {
    place: Place,
    line: u64,
}

impl Model for Lines {
    ghost use Rattle.certificate.specs.Progress.{Progress};
    ghost use Rattle.certificate.specs.Machine.{IsProgress};

    ghost Value = { Progress };

    ghost view = { λ a. record { place = a.place; line = a.line } };

    ghost invariant = { λ a. IsProgress a.place a.line };
}

impl Lines {
    /// Before the first byte.
    pub fn new() -> Lines
        ensures { StandsFor result [] }
    {
        Lines {
            place: Place::new(),
            line: 1,
        }
    }

    fn advance(&mut self, byte: u8) -> LineStep
        ensures progress { self.new ≡ after_byte self.old byte }
        ensures step { result ≡ (next_place self.old.place byte).1 }
    {
        let (place, step) = self.place.next(byte);
        let line = next_line(self.line, byte, place);
        self.place = place;
        self.line = line;
        step
    }

    /// Takes the next byte, and says what the line says that ends with it.
    pub fn feed(&mut self, byte: u8) -> LineStep
        ensures stands { (b : List ℕ) → StandsFor self.old b → StandsFor self.new (b ++ byte ∷ []) }

        // Bad exactly where no certificate's text begins so.
        ensures bad { (b : List ℕ) → StandsFor self.old b →
            ((result ≡ LineStep.Bad) ↔ ¬ (BeginsText cert_format (b ++ byte ∷ []))) }

        // For each certificate whose text begins so, a newline says what its line says.
        ensures says { (b more : List ℕ) (c : Cert) → StandsFor self.old b →
            Parses cert_format (b ++ byte ∷ more) c → result ≡
            (if byte == 10 then slice_index_or (steps_of c) (newlines b) LineStep.More
            else LineStep.More) }
    {
        self.advance(byte)
    }

    /// Takes the bytes up to and with the first newline, one by one.
    #[tactic(auto, using(crate::proofs::FeedFacts::byte_fed, crate::proofs::FeedFacts::byte_said, crate::proofs::FeedFacts::none_more, crate::proofs::FeedFacts::line_here, crate::proofs::FeedFacts::line_to_end, crate::proofs::FeedFacts::to_end))]
    fn advance_line(&mut self, bytes: &[u8]) -> (usize, LineStep)
        ensures first { IsFirstLine bytes.now result.0 }
        ensures progress { self.new ≡ after_bytes self.old (take result.0 bytes.now) }
        ensures step { result.1 ≡ said_after (said_at self.old.place.expected) self.old
            (take result.0 bytes.now) }
    {
        let mut step = self.place.said();
        for (at, byte) in bytes.iter().enumerate() {
            step = self.advance(*byte);
            if *byte == b'\n' {
                return (at + 1, step);
            }
        }
        (bytes.len(), step)
    }

    /// Takes the line of a point without terms at once, where it is whole in front of the bytes and
    /// must come.
    #[inline]
    #[tactic(auto, using(crate::proofs::ScanFacts::point_some))]
    fn advance_plain(&mut self, bytes: &[u8]) -> Option<(usize, Point)>
        ensures first { IfSome result (λ r. IsFirstLine bytes.now r.0) }
        ensures progress { IfSome result (λ r. self.new ≡
            after_bytes self.old (take r.0 bytes.now)) }
        ensures step { IfSome result (λ r. LineStep.Point r.1.offset r.1.end None ≡
            said_after (said_at self.old.place.expected) self.old (take r.0 bytes.now)) }
        ensures stays { IfNone result (self.new ≡ self.old) }
    {
        if !self.place.is_at_point() {
            return None;
        }
        if self.place.has_terms() {
            return None;
        }
        let Some((point, rest)) = scan_plain(bytes) else {
            return None;
        };
        self.place.pass_point();
        self.line += 1;
        Some((bytes.len() - rest.len(), point))
    }

    /// Takes the line of a point with its terms at once, where it is whole in front of the bytes and
    /// must come.
    #[tactic(auto, using(crate::proofs::ScanFacts::point_some))]
    fn advance_full(&mut self, bytes: &[u8]) -> Option<(usize, LineStep)>
        ensures first { IfSome result (λ r. IsFirstLine bytes.now r.0) }
        ensures progress { IfSome result (λ r. self.new ≡
            after_bytes self.old (take r.0 bytes.now)) }
        ensures step { IfSome result (λ r. r.1 ≡
            said_after (said_at self.old.place.expected) self.old (take r.0 bytes.now)) }
        ensures stays { IfNone result (self.new ≡ self.old) }
    {
        if !self.place.is_at_point() {
            return None;
        }
        if !self.place.has_terms() {
            return None;
        }
        let Some((point, terms, rest)) = scan_full(bytes) else {
            return None;
        };
        self.place.pass_point();
        self.line += 1;
        let step = LineStep::Point {
            offset: point.offset,
            end: point.end,
            terms: Some(terms),
        };
        Some((bytes.len() - rest.len(), step))
    }

    /// Takes the bytes up to and with the first newline: a point with terms at once, other bytes one
    /// by one.
    #[inline(never)]
    fn advance_other(&mut self, bytes: &[u8]) -> (usize, LineStep)
        ensures first { IsFirstLine bytes.now result.0 }
        ensures progress { self.new ≡ after_bytes self.old (take result.0 bytes.now) }
        ensures step { result.1 ≡ said_after (said_at self.old.place.expected) self.old
            (take result.0 bytes.now) }
    {
        if let Some(read) = self.advance_full(bytes) {
            return read;
        }
        self.advance_line(bytes)
    }

    /// Takes the bytes up to and with the first newline, or all where there is none, and says how
    /// many these are, and what the line says that ends with them.
    ///
    /// It does what `feed` does for each of these bytes; the line of a point is read at once.
    #[inline]
    #[tactic(auto, using(crate::proofs::FeedFacts::says_fed))]
    pub fn feed_line(&mut self, bytes: &[u8]) -> (usize, LineStep)
        ensures first { IsFirstLine bytes.now result.0 }
        ensures stands { (b : List ℕ) → StandsFor self.old b →
            StandsFor self.new (b ++ take result.0 bytes.now) }

        // Bad exactly where no certificate's text begins so.
        ensures bad { (b : List ℕ) → StandsFor self.old b → ((result.1 ≡ LineStep.Bad) ↔
            ¬ (BeginsText cert_format (b ++ take result.0 bytes.now))) }

        // For each certificate whose text begins so, a newline says what its line says.
        ensures says { (b more : List ℕ) (c : Cert) → StandsFor self.old b →
            Parses cert_format (b ++ (take result.0 bytes.now ++ more)) c → result.1 ≡
            (if newlines (take result.0 bytes.now) == 1
            then slice_index_or (steps_of c) (newlines b) LineStep.More else LineStep.More) }
    {
        if let Some((count, point)) = self.advance_plain(bytes) {
            let step = LineStep::Point {
                offset: point.offset,
                end: point.end,
                terms: None,
            };
            return (count, step);
        }
        self.advance_other(bytes)
    }

    /// Whether the bytes so far are a certificate's text.
    pub fn is_over(&self) -> bool
        ensures { (b : List ℕ) → StandsFor self.now b →
            (IsTrue result ↔ ((c : Cert) × Parses cert_format b c)) }
    {
        self.place.is_over()
    }

    /// The version of the certificate whose text the bytes so far are.
    pub fn version(&self) -> Version
        ensures { (b : List ℕ) (c : Cert) → StandsFor self.now b → Parses cert_format b c →
            result ≡ c.version }
    {
        self.place.version
    }

    /// The line that a refusal of the bytes so far names, counted from 1.
    pub fn line(&self) -> u64
        ensures { (b : List ℕ) → StandsFor self.now b → IsRefusedLine cert_format b result }
    {
        self.line
    }
}
