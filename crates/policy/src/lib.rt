//! Scheduling policies: what each means, and the laws that every one keeps.
#![tactic(auto)]

mod edf;
mod fifo;
mod fp;
mod keys;
mod policy;

pub use edf::Edf;
pub use fifo::Fifo;
pub use fp::Fp;
pub use keys::{Cap, Key};
pub use policy::Policy;
