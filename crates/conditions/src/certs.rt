//! The conditions of an entry and of a certificate.
ghost use Rattle.std.specs.Prelude.{◌≡◌, ◌≤◌, ◌<◌, length};
ghost use Rattle.lists.specs.Limits.{greatest_number};
ghost use Rattle.preemption.specs.CutLaws.{Serves};
ghost use Rattle.certificate.specs.Text.{IsEntry, IsWithinGrammar};
ghost use Rattle.conditions.specs.Conditions.{entry_at, entry_failed_of, task_failed_of, failed_of};

use crate::failed::{Cond, Failed};
use crate::points::points_failed;
use certificate::{Cert, Entry};
use demand::window_need;
use policy::Policy;
use preemption::Preemption;
use supply::Supply;
use task_sheet::Sheet;

/// The first of `K2`, `K3` and, with `deadlines`, `K9` that fails of task `i`, whose window and bound
/// are in ticks.
pub fn entry_failed<P: Policy, M: Preemption, S: Supply>(
    sheet: &Sheet,
    supply: &S,
    i: u32,
    window: u64,
    bound: u64,
    deadlines: bool,
) -> Option<Cond>
    requires task { i < length sheet.now.tasks }
    requires window { window ≤ greatest_number }
    requires bound { bound ≤ greatest_number }
    requires served { Serves M.cuts sheet.now }
    ensures { result ≡ entry_failed_of P.meaning M.cuts (S.sbf supply.now) sheet.now deadlines i
        window bound }
{
    if bound < sheet.task(i).jitter {
        return Some(Cond::K2);
    }
    if window < 1 || (supply.sbf(window) as u128) < window_need::<P, M>(sheet, i, window) {
        return Some(Cond::K3);
    }
    if deadlines && bound > sheet.task(i).deadline {
        return Some(Cond::K9);
    }
    None
}

/// The entry of task `i`.
fn entry(cert: &Cert, i: u32) -> &Entry
    requires task { i < length cert.now.entries }
    requires fits { IsWithinGrammar cert.now }
    ensures entry { result.now ≡ entry_at cert.now i }
    ensures fits { IsEntry result.now }
{
    &cert.entries.as_slice()[i as usize]
}

/// The first condition that fails of task `i` and its entry.
#[tactic(auto, unfolding(crate::specs::Conditions::task_failed_of))]
fn task_failed<P: Policy, M: Preemption, S: Supply>(
    sheet: &Sheet,
    supply: &S,
    i: u32,
    entry: &Entry,
    deadlines: bool,
) -> Option<Failed>
    requires task { i < length sheet.now.tasks }
    requires fits { IsEntry entry.now }
    requires served { Serves M.cuts sheet.now }
    ensures { result ≡ task_failed_of P.meaning M.cuts (S.sbf supply.now) sheet.now deadlines i
        entry.now }
{
    if let Some(cond) = entry_failed::<P, M, S>(
        sheet,
        supply,
        i,
        entry.window,
        entry.bound,
        deadlines,
    ) {
        return Some(Failed::of_task(i, cond));
    }
    points_failed::<P, M, S>(
        sheet,
        supply,
        i,
        entry.window,
        entry.bound,
        entry.points.as_slice(),
        entry.terms.as_slice(),
    )
}

/// The first condition that fails of a certificate, in the order of judging: `K1`, then task by
/// task `K2`, `K3`, `K9` with `deadlines`, and point by point `K4` to `K8` and `K10`.
#[tactic(auto, using(crate::proofs::FailedFacts::failed_at), unfolding(crate::specs::Conditions::failed_of))]
pub fn first_failed<P: Policy, M: Preemption, S: Supply>(
    sheet: &Sheet,
    supply: &S,
    cert: &Cert,
    deadlines: bool,
) -> Option<Failed>
    requires fits { IsWithinGrammar cert.now }
    requires served { Serves M.cuts sheet.now }
    ensures { result ≡ failed_of P.meaning M.cuts (S.sbf supply.now) sheet.now deadlines cert.now }
{
    let tasks = sheet.len();
    if cert.entries.len() != tasks as usize {
        return Some(Failed::of_cert(Cond::K1));
    }
    for i in 0..tasks {
        if let Some(failed) = task_failed::<P, M, S>(sheet, supply, i, entry(cert, i), deadlines) {
            return Some(failed);
        }
    }
    None
}
