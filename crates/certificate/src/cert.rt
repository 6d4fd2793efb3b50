//! A certificate.

use lists::Items;

/// The versions of a certificate's text.
#[derive(Clone, Copy, Debug, PartialEq, Eq)]
pub enum Version {
    /// The line of a point says its offset and its end.
    One,
    /// It says the terms of the point too.
    Two,
}

/// An offset at which a bound is checked, and its end, in ticks from the window's start.
#[derive(Clone, Copy, Debug, PartialEq, Eq)]
pub struct Point {
    pub offset: u64,
    pub end: u64,
}

/// What a point's need is made of, in ticks.
#[derive(Clone, Copy, Debug, PartialEq, Eq)]
pub struct Terms {
    pub blocking: u128,
    pub own: u128,
    pub others: u128,
    pub need: u128,
}

/// What a certificate claims of one task.
#[derive(Debug, PartialEq, Drop)]
pub struct Entry {
    /// The busy window, in ticks: no busy stretch of the task is longer.
    pub window: u64,
    /// The response-time bound, in ticks.
    pub bound: u64,
    pub points: Items<Point>,
    /// The terms of the points, in their order: in the second version of each, in the first of none.
    pub terms: Items<Terms>,
}

/// A certificate: an entry for each task, in the tasks' order.
#[derive(Debug, PartialEq, Drop)]
pub struct Cert {
    pub version: Version,
    pub entries: Items<Entry>,
}
