//! The simulated run of a sheet, as a definition, and what it has.
#![tactic(auto)]

mod laws;
mod mode;

pub use laws::{dense_is_full, simulation_complies};
pub use mode::Mode;
