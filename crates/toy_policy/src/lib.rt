//! A policy and a kind of preemption of one's own: the theorem over certificates serves both
//! unchanged.
#![tactic(auto)]

mod by_number;
mod even_cut;

pub use by_number::ByNumber;
pub use even_cut::EvenCut;

#[cfg(test)]
mod tests;
