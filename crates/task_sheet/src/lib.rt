//! Sheets of real-time tasks, and their jobs.
#![tactic(auto)]

mod checking;
mod copying;
mod refusal;
mod sheet;
mod tasks;

pub use checking::{MOST_JITTER, MOST_POINT, check_cut, check_supply, is_name, is_priority_point};
pub use refusal::{Field, Place, SheetRefusal};
pub use sheet::Sheet;
pub use tasks::{Cut, Job, PolicyKind, SupplySpec, Task};
