//! The verdict on a certificate.

use conditions::Failed;
use lists::Items;

/// What the bytes of a certificate are worth, for a sheet.
#[derive(Debug, Drop, PartialEq)]
pub enum Verdict {
    /// All conditions hold. The bounds, in ticks and in the tasks' order.
    Accepted(Items<u64>),
    /// The bytes are no certificate's text, from this line on.
    Text { line: u64 },
    /// The first condition that fails.
    Refused(Failed),
}
