//! How much a job asks for, as its offset and its end move on.
#![tactic(auto)]

mod blockers;
mod changes;
mod meter;
mod moves;
mod soonest;
mod tracks;

pub use meter::Meter;
