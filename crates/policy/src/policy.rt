//! What a policy is.
ghost use Rattle.std.specs.Prelude.{◌≡◌, ◌≢◌, ◌<◌, ◌≤◌, ℕ, List, length};
ghost use Rattle.lists.specs.Limits.{greatest_number};
ghost use Rattle.task_sheet.specs.SheetParts.{SheetParts};
ghost use Rattle.task_sheet.specs.Sheets.{IsValidSheet};
ghost use Rattle.policy.specs.PolicyMeaning.{PolicyMeaning};
ghost use Rattle.policy.specs.PolicyLaws.{IsLawfulPolicy};

use crate::keys::{Cap, Key};
use task_sheet::{Job, Sheet};

/// A scheduling policy, as the analysis sees it.
///
/// Five calls compute its meaning, and the law says what every analysis may rest on.
pub trait Policy {
    /// The word that names the policy.
    const NAME: &'static str;

    ghost word: { List ℕ };

    ghost meaning: { PolicyMeaning };

    /// The same word as `NAME`, with what it is as a clause.
    fn word() -> &'static str
        ensures { result.now ≡ word };

    /// How urgent a job is.
    fn key(sheet: &Sheet, job: &Job) -> Key
        requires task { job.now.task < length sheet.now.tasks }
        requires arrival { job.now.arrival ≤ greatest_number }
        ensures { result ≡ meaning.key sheet.now job.now };

    /// Whether jobs of task `o` may be at least as urgent as jobs of task `i`.
    fn class(sheet: &Sheet, i: u32, o: u32) -> bool
        requires i { i < length sheet.now.tasks }
        requires o { o < length sheet.now.tasks }
        ensures { result ≡ meaning.class sheet.now i o };

    /// Which jobs of task `o` can delay a job of task `i` that is released `a` ticks into its window.
    fn cap(sheet: &Sheet, i: u32, o: u32, a: u64) -> Cap
        requires i { i < length sheet.now.tasks }
        requires o { o < length sheet.now.tasks }
        requires other { i ≢ o }
        requires offset { a ≤ greatest_number }
        ensures { result ≡ meaning.cap sheet.now i o a };

    /// Whether a segment of task `o` that began before the window can block such a job.
    fn may_block(sheet: &Sheet, i: u32, o: u32, a: u64) -> bool
        requires i { i < length sheet.now.tasks }
        requires o { o < length sheet.now.tasks }
        requires other { i ≢ o }
        requires offset { a ≤ greatest_number }
        ensures { result ≡ meaning.may_block sheet.now i o a };

    /// Whether a segment of task `o` can delay the window of task `i` at all.
    fn may_delay(sheet: &Sheet, i: u32, o: u32) -> bool
        requires i { i < length sheet.now.tasks }
        requires o { o < length sheet.now.tasks }
        requires other { i ≢ o }
        ensures { result ≡ meaning.may_delay sheet.now i o };

    ghost lawful: { (sheet : SheetParts) → IsValidSheet sheet → IsLawfulPolicy meaning sheet };
}
