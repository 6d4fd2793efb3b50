//! Judging runs: whether a run complies with its sheet, and else the first rule that it breaks.
#![tactic(auto)]

mod arrivals;
mod cuts;
mod idling;
mod jobs;
mod judging;
mod laws;
mod priorities;
mod progress;
mod releases;
mod responses;
mod segments;
mod service_counts;
mod ticks;
mod undone;
mod validity;
mod verdict;
mod waiting;

pub use judging::audit;
pub use laws::verdict_decides;
pub use verdict::{AuditVerdict, Rule, Seen};
