//! Writing a certificate.

ghost use Rattle.std.specs.Prelude.{◌≡◌, ◌++◌, ◌∷◌, Some, OnOk, IfOk, decimal, slice_get};
ghost use Rattle.std.specs.List.{flat_map};
ghost use Rattle.certificate.specs.Text.{lines_of, point_line, terms_text, point_text, points_text, entry_line, head_of, text_of, IsWithinGrammar};

use crate::cert::{Cert, Entry, Point, Terms, Version};
use poet_io::{push_field, push_number, put_wide};
use std::alloc::{AllocError, Global};

/// Appends a term, with a space before it.
fn push_term(out: &mut Vec<u8>, term: u128) -> Result<(), AllocError>
    ensures { OnOk result (out.new.items ≡ out.old.items ++ (32 ∷ decimal term)) }
{
    let mut digits = [0u8; 39];
    let len = put_wide(term, &mut digits);
    out.push(b' ')?;
    out.extend_from_slice(&digits[..len])
}

fn push_terms(out: &mut Vec<u8>, terms: &Terms) -> Result<(), AllocError>
    ensures { OnOk result (out.new.items ≡ out.old.items ++ terms_text (Some terms.now)) }
{
    push_term(out, terms.blocking)?;
    push_term(out, terms.own)?;
    push_term(out, terms.others)?;
    push_term(out, terms.need)
}

/// Appends the terms at this place, where there are so many.
#[tactic(auto, using(crate::proofs::WritingFacts::terms_there, crate::proofs::WritingFacts::terms_past))]
fn push_terms_at(out: &mut Vec<u8>, terms: &[Terms], at: usize) -> Result<(), AllocError>
    ensures { OnOk result (out.new.items ≡ out.old.items ++ terms_text (slice_get terms.now at)) }
{
    if at < terms.len() {
        push_terms(out, &terms[at])
    } else {
        Ok(())
    }
}

/// Appends the line of the point at this place, with its terms where it has some.
fn push_point(out: &mut Vec<u8>, point: Point, terms: &[Terms], at: usize) -> Result<(), AllocError>
    ensures { OnOk result (out.new.items ≡ out.old.items ++
        point_text (point_line point (slice_get terms.now at))) }
{
    out.extend_from_slice(b"p ")?;
    push_field(out, point.offset, b' ')?;
    push_number(out, point.end)?;
    push_terms_at(out, terms, at)?;
    out.push(b'\n')?;
    Ok(())
}

#[tactic(auto, using(crate::proofs::WritingFacts::points_pushed, crate::proofs::WritingFacts::all_lines))]
fn push_points(out: &mut Vec<u8>, points: &[Point], terms: &[Terms]) -> Result<(), AllocError>
    ensures { OnOk result (out.new.items ≡ out.old.items ++
        flat_map point_text (lines_of points.now terms.now)) }
{
    for (at, point) in points.iter().enumerate() {
        push_point(out, *point, terms, at)?;
    }
    Ok(())
}

fn push_entry_line(out: &mut Vec<u8>, task: usize, entry: &Entry) -> Result<(), AllocError>
    ensures { OnOk result (out.new.items ≡ out.old.items ++ entry_line task entry.now) }
{
    out.extend_from_slice(b"task ")?;
    push_field(out, task as u64, b' ')?;
    push_field(out, entry.window, b' ')?;
    push_field(out, entry.bound, b' ')?;
    push_field(out, entry.points.len() as u64, b'\n')
}

fn push_entry(out: &mut Vec<u8>, task: usize, entry: &Entry) -> Result<(), AllocError>
    ensures { OnOk result (out.new.items ≡ out.old.items ++
        (entry_line task entry.now ++ points_text entry.now)) }
{
    push_entry_line(out, task, entry)?;
    push_points(out, entry.points.as_slice(), entry.terms.as_slice())
}

fn push_head(out: &mut Vec<u8>, version: Version) -> Result<(), AllocError>
    ensures { OnOk result (out.new.items ≡ out.old.items ++ head_of version) }
{
    match version {
        Version::One => out.extend_from_slice(b"poet-cert 1\n"),
        Version::Two => out.extend_from_slice(b"poet-cert 2\n"),
    }
}

/// The one text of a certificate.
///
/// Its counts and numbers must be within the grammar: 1 to 256 entries, 1 to 1,000,000 points in
/// each, no number above 10^9, and in the second version alone terms, of each point, none of them
/// above 10^28.
pub fn write_cert(alloc: Global, cert: &Cert) -> Result<Vec<u8>, AllocError>
    requires { IsWithinGrammar cert.now }
    ensures { IfOk result (λ text. text.items ≡ text_of cert.now) }
{
    let mut out = Vec::new(alloc);
    push_head(&mut out, cert.version)?;
    out.extend_from_slice(b"tasks ")?;
    push_field(&mut out, cert.entries.len() as u64, b'\n')?;
    for (task, entry) in cert.entries.as_slice().iter().enumerate() {
        push_entry(&mut out, task, entry)?;
    }
    out.extend_from_slice(b"end\n")?;
    Ok(out)
}
