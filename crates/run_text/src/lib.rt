//! Runs' texts in two versions: their writing and their reading.
#![tactic(auto)]

mod draft;
mod laws;
mod lines;
mod reading;
mod stage;
mod version;
mod words;
mod writing;

pub use laws::{stretches_expand, text_has_one_reading};
pub use reading::read_run;
pub use writing::write_run;
