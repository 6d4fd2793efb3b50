//! What is promised of the processor, and the laws that every promise keeps.
#![tactic(auto)]

mod promised;
mod stated;
mod supply;
mod unit;
mod windows;

pub use promised::Promised;
pub use supply::Supply;
pub use unit::Unit;
