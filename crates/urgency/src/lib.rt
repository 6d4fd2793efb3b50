//! The jobs that wait, in the order of their urgency.
#![tactic(auto)]

mod queue;
mod rank;

pub use queue::{Queue, first_entry};
pub use rank::{Rank, rank_of};
