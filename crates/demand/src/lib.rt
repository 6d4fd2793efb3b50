//! How much service jobs can ask for within a window.
#![tactic(auto)]

mod laws;
mod needs;
mod parts;

pub use laws::{demand_grows, need_falls, need_fits};
pub use needs::{blocking, need, others, own, rest, window_need};
