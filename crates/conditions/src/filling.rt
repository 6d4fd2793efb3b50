//! Certificates with the terms of their points written out.
ghost use Rattle.std.specs.Prelude.{◌≡◌, ◌≤◌, ◌<◌, length, All, IfOk, replicate};
ghost use Rattle.preemption.specs.CutLaws.{Serves};
ghost use Rattle.certificate.specs.Text.{IsPoint, IsTerms, IsEntry, HasTermsOf, IsWithinGrammar};
ghost use Rattle.conditions.specs.Filled.{entry_with, terms_of_points, entries_with_terms, with_terms as with_terms_of, entries_with_room as entries_with_room_of, with_room as with_room_of, no_terms};

use crate::terms::terms_at;
use certificate::{Cert, Entry, Point, Terms, Version};
use lists::Items;
use policy::Policy;
use preemption::Preemption;
use std::alloc::{AllocError, Global};
use task_sheet::Sheet;

/// So many terms of 0.
#[tactic(auto, unfolding(crate::specs::Filled::no_terms))]
fn blank(alloc: Global, count: usize) -> Result<Items<Terms>, AllocError>
    ensures { IfOk result (λ terms. terms ≡ replicate count no_terms) }
{
    let none = Terms {
        blocking: 0,
        own: 0,
        others: 0,
        need: 0,
    };
    Ok(Items::new(vec![in alloc; none; count]?))
}

fn entry_with_room(alloc: Global, mut entry: Entry) -> Result<Entry, AllocError>
    ensures { IfOk result (λ e. e ≡
        entry_with entry (replicate (length entry.points) no_terms)) }
{
    entry.terms = blank(alloc, entry.points.len())?;
    Ok(entry)
}

fn entries_with_room(alloc: Global, entries: Vec<Entry>) -> Result<Vec<Entry>, AllocError>
    ensures { IfOk result (λ roomy. roomy.items ≡ entries_with_room_of entries.items) }
{
    let mut roomy = Vec::new(alloc);
    for entry in entries {
        roomy.push(entry_with_room(alloc, entry)?)?;
    }
    Ok(roomy)
}

/// The certificate in the second version, with terms of 0 at each point: room for `fill_terms`.
#[tactic(auto, using(crate::proofs::FilledFacts::room_made))]
pub fn with_room(alloc: Global, cert: Cert) -> Result<Cert, AllocError>
    requires fits { IsWithinGrammar cert }
    ensures room { IfOk result (λ c. c ≡ with_room_of cert) }
    ensures fits { IfOk result IsWithinGrammar }
{
    let entries = entries_with_room(alloc, cert.entries.into_vec())?;
    Ok(Cert {
        version: Version::Two,
        entries: Items::new(entries),
    })
}

/// Writes the terms of each point of task `i` in its place.
#[tactic(auto, using(crate::proofs::FilledFacts::points_more, crate::proofs::FilledFacts::small_more, crate::proofs::FilledFacts::points_done, crate::proofs::FilledFacts::small_done))]
fn fill_points<P: Policy, M: Preemption>(
    sheet: &Sheet,
    i: u32,
    points: &[Point],
    terms: &mut [Terms],
)
    requires task { i < length sheet.now.tasks }
    requires points { All IsPoint points.now }
    requires count { length terms.old ≡ length points.now }
    requires served { Serves M.cuts sheet.now }
    ensures exact { terms.new ≡ terms_of_points P.meaning M.cuts sheet.now i points.now }
    ensures small { All IsTerms terms.new }
{
    for at in 0..points.len() {
        terms[at] = terms_at::<P, M>(sheet, i, points[at].offset, points[at].end);
    }
}

#[tactic(auto, using(crate::proofs::FilledFacts::refilled, crate::proofs::FilledFacts::entry_filled, crate::proofs::FilledFacts::still_entry))]
fn fill_entry<P: Policy, M: Preemption>(sheet: &Sheet, i: u32, entry: &mut Entry)
    requires task { i < length sheet.now.tasks }
    requires fits { IsEntry entry.old }
    requires room { HasTermsOf Version.Two entry.old }
    requires served { Serves M.cuts sheet.now }
    ensures exact { entry.new ≡ entry_with entry.old
        (terms_of_points P.meaning M.cuts sheet.now i entry.old.points) }
    ensures fits { IsEntry entry.new }
    ensures filled { HasTermsOf Version.Two entry.new }
{
    fill_points::<P, M>(
        sheet,
        i,
        entry.points.as_slice(),
        entry.terms.as_mut_slice(),
    );
}

/// Writes the terms of each point of these entries, one for each task, in their place.
#[tactic(auto, using(crate::proofs::FilledFacts::entries_more, crate::proofs::FilledFacts::entries_left, crate::proofs::FilledFacts::entries_done))]
fn fill_entries<P: Policy, M: Preemption>(sheet: &Sheet, entries: &mut [Entry])
    requires tasks { length entries.old ≡ length sheet.now.tasks }
    requires fits { All IsEntry entries.old }
    requires room { All (HasTermsOf Version.Two) entries.old }
    requires served { Serves M.cuts sheet.now }
    ensures exact { entries.new ≡ entries_with_terms P.meaning M.cuts sheet.now 0 entries.old }
    ensures filled { All (HasTermsOf Version.Two) entries.new }
{
    for i in 0..sheet.len() {
        fill_entry::<P, M>(sheet, i, &mut entries[i as usize]);
    }
}

/// Writes the terms of each point of a certificate of the second version in their place.
///
/// It takes no memory. A certificate of the first version gets its room by `with_room`.
#[tactic(auto, using(crate::proofs::FilledFacts::refilled, crate::proofs::FilledFacts::filled_within, crate::proofs::FilledFacts::cert_filled))]
pub fn fill_terms<P: Policy, M: Preemption>(sheet: &Sheet, cert: &mut Cert)
    requires tasks { length cert.old.entries ≡ length sheet.now.tasks }
    requires version { cert.old.version ≡ Version.Two }
    requires fits { IsWithinGrammar cert.old }
    requires served { Serves M.cuts sheet.now }
    ensures exact { cert.new ≡ with_terms_of P.meaning M.cuts sheet.now cert.old }
    ensures fits { IsWithinGrammar cert.new }
{
    fill_entries::<P, M>(sheet, cert.entries.as_mut_slice());
}
