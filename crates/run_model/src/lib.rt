//! Runs: which jobs there are, and what the processor does at each tick.
#![tactic(auto)]

mod progress;
mod run;

pub use progress::{is_done, is_pending, service};
pub use run::{Run, Tick};
