//! The windows that decide whether arrivals keep to a curve, and ticks to a promise.
//!
//! Of arrivals, windows from one arrival of a task to another decide; of supply, those whose length
//! is a promised time. Past its horizon a curve or a promise repeats.
#![tactic(auto)]

mod crowds;
mod distances;
mod keeping;
mod room;
mod spans;
mod supplied;
mod times;

pub use crowds::first_crowded;
pub use distances::{Distance, needed_decide, needed_distances};
pub use room::allowance;
pub use supplied::{first_short, off_allowed, off_allowed_by};
pub use times::{PromisedTime, needed_times};
