//! The best certificate of a sheet: the least windows, ends and bounds that meet the conditions.
#![tactic(auto)]

mod analysis;
mod bounds;
mod caps;
mod ceilings;
mod ends;
mod entries;
mod groups;
mod laws;
mod load;
mod meaning;
mod pace;
mod searches;
mod together;
mod windows;

pub use analysis::{AnalyseRefusal, Part, analyse};
pub use bounds::{task_bound, task_has_one_bound};
pub use ceilings::{Ceiled, Ceiling, EVERY_TICK};
pub use meaning::analysis_has_one_answer;
pub use searches::{least_bound, least_end, least_window};
