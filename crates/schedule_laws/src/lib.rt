//! Which runs comply with a sheet, the tests that decide it, and what holds of every prefix of a run.
#![tactic(auto)]

mod arrivals;
mod laws;
mod releases;
mod rules;
mod supplied;
mod validity;

pub use arrivals::crowded;
pub use laws::{
    crowds_decide, served_since_release, served_within_cost, tests_decide, uncut_has_begun,
};
pub use releases::release_broken;
pub use rules::{idle_broken, priority_broken, segment_broken};
pub use supplied::{is_on, short_at};
pub use validity::{fits, valid_at};
