//! The offsets at which a bound has to be judged.
//!
//! Between two of them nothing changes that a bound rests on.
#![tactic(auto)]

mod laws;
mod points;

pub use laws::{across_gap, between_points};
pub use points::{compared, is_point, is_same, next_point};
