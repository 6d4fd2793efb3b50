//! Policies by priority points, and which policy is a sheet's own.
#![tactic(auto)]

mod by_kind;
mod elf;
mod gel;
mod points;

pub use elf::Elf;
pub use gel::Gel;
pub use policy::{Edf, Fifo, Fp};
pub use task_sheet::PolicyKind;
