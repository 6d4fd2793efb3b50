//! How long a certificate's text is.

ghost use Rattle.std.specs.Prelude.{◌≡◌, ◌≤◌, ◌*◌, Some, length, decimal, slice_get};
ghost use Rattle.lists.specs.Limits.{most_tasks};
ghost use Rattle.certificate.specs.Text.{point_line, terms_text, point_text, points_text, entry_line, text_of, IsEntry, HasTermsOf, IsWithinGrammar};

use crate::cert::{Cert, Entry, Point, Terms};
use poet_io::put_wide;

fn decimal_len(n: u128) -> u64
    ensures exact { result ≡ length (decimal n) }
    ensures short { result ≤ 39 }
{
    let mut digits = [0u8; 39];
    put_wide(n, &mut digits) as u64
}

fn terms_len(terms: &Terms) -> u64
    ensures exact { result ≡ length (terms_text (Some terms.now)) }
    ensures short { result ≤ 160 }
{
    4 + decimal_len(terms.blocking)
        + decimal_len(terms.own)
        + decimal_len(terms.others)
        + decimal_len(terms.need)
}

/// How long the terms at this place are, where there are so many.
#[tactic(auto, using(crate::proofs::WritingFacts::length_there, crate::proofs::WritingFacts::length_past))]
fn terms_len_at(terms: &[Terms], at: usize) -> u64
    ensures exact { result ≡ length (terms_text (slice_get terms.now at)) }
    ensures short { result ≤ 160 }
{
    if at < terms.len() {
        terms_len(&terms[at])
    } else {
        0
    }
}

/// How long the line of the point at this place is, with its terms where it has some.
fn point_len(point: Point, terms: &[Terms], at: usize) -> u64
    ensures exact { result ≡ length (point_text (point_line point (slice_get terms.now at))) }
    ensures short { result ≤ 250 }
{
    4 + decimal_len(u128::from(point.offset))
        + decimal_len(u128::from(point.end))
        + terms_len_at(terms, at)
}

#[tactic(auto, using(crate::proofs::WritingFacts::points_measured, crate::proofs::WritingFacts::all_lines))]
fn points_len(entry: &Entry) -> u64
    requires { IsEntry entry.now }
    ensures exact { result ≡ length (points_text entry.now) }
    ensures short { result ≤ 250000000 }
{
    let mut len = 0;
    for (at, point) in entry.points.as_slice().iter().enumerate() {
        len += point_len(*point, entry.terms.as_slice(), at);
    }
    len
}

fn entry_line_len(task: usize, entry: &Entry) -> u64
    ensures exact { result ≡ length (entry_line task entry.now) }
    ensures short { result ≤ 170 }
{
    9 + decimal_len(task as u128)
        + decimal_len(u128::from(entry.window))
        + decimal_len(u128::from(entry.bound))
        + decimal_len(entry.points.len() as u128)
}

/// How many bytes the text of a certificate has, with the conditions of `write_cert`.
#[tactic(auto, using(crate::proofs::WritingFacts::entries_length, crate::proofs::WritingFacts::text_length))]
pub fn text_len(cert: &Cert) -> u64
    requires { IsWithinGrammar cert.now }
    ensures { result ≡ length (text_of cert.now) }
{
    let mut len = 23 + decimal_len(cert.entries.len() as u128);
    for (task, entry) in cert.entries.as_slice().iter().enumerate() {
        len += entry_line_len(task, entry) + points_len(entry);
    }
    len
}
