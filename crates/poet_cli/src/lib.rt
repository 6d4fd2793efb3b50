//! The commands of `poet`: from its words to what it writes and its status, on any shelf of files
//! and any two sinks.
#![tactic(auto)]

mod analysing;
mod assigning;
mod auditing;
mod checking;
mod exercising;
mod inferring;
mod on_sheet;
mod promising;
mod reading;
mod reporting;
mod simulating;
mod top;
mod upgrading;
mod verdict_telling;

pub use checking::judge;
pub use top::poet_run;
