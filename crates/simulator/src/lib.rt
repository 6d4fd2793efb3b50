//! Simulation: the run of a sheet that the seed or the fullest load gives, tick by tick.
#![tactic(auto)]

mod arrivals;
mod gaps;
mod loads;
mod openings;
mod refusal;
mod releases;
mod running;
mod simulation;
mod ticks;
mod words;

pub use refusal::SimRefusal;
pub use running::simulate;
pub use simulated_run::Mode;
