//! The conditions that a certificate has to meet, and the first that fails.
#![tactic(auto)]

mod certs;
mod failed;
mod filling;
mod laws;
mod points;
mod terms;

pub use certs::{entry_failed, first_failed};
pub use failed::{Cond, Failed};
pub use filling::{fill_terms, with_room};
pub use laws::{failed_means, terms_change_nothing};
pub use points::{gap_failed, point_failed};
pub use terms::terms_at;
