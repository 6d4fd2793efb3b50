//! Priorities under which every deadline is met, after Audsley's optimal priority assignment.
#![tactic(auto)]

mod assignment;
mod filling;
mod trials;

pub use assignment::{AssignRefusal, Placed, assign};
