//! Exercises: a sheet that a seed makes, with its best certificate and its dense run.
#![tactic(auto)]

mod counting;
mod laws;
mod making;
mod outcome;
mod running;

pub use laws::{exercise_succeeds, generated_is_valid};
pub use making::make_sheet;
pub use outcome::Exercise;
pub use running::exercise;
