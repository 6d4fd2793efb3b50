//! What a byte of a certificate's text says.

use crate::cert::Terms;

/// What the line says that ends at a byte.
#[derive(Clone, Copy, Debug, PartialEq, Eq)]
pub enum LineStep {
    /// Nothing: no line ends here, or it is line 1.
    More,
    /// How many entries follow.
    Tasks(u32),
    /// The entry of a task, with the number of points that follow. Times are in ticks.
    Entry {
        task: u32,
        window: u64,
        bound: u64,
        count: u32,
    },
    /// A point of the entry before, in ticks, and in the second version its terms.
    Point {
        offset: u64,
        end: u64,
        terms: Option<Terms>,
    },
    /// The certificate is over.
    End,
    /// No certificate's text begins so.
    Bad,
}
