//! Lists that contracts see as lists, and the sums and searches that the layers above share.
#![tactic(auto)]

mod items;
pub mod limits;

pub use items::{Items, Text};
