//! The least curve that a recorded list of arrivals respects, and the text of such a list.
#![tactic(auto)]

mod draft;
mod inferring;
mod laws;
mod reading;
mod stage;
mod trace;
mod writing;

pub use inferring::infer;
pub use laws::text_has_one_reading;
pub use reading::read_trace;
pub use trace::Trace;
pub use writing::write_trace;
