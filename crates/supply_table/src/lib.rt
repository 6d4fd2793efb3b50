//! Supply by a cyclic time table, turned into the promise that it implies.
#![tactic(auto)]

mod checking;
mod laws;
mod promising;
mod table;

pub use checking::LONGEST_CYCLE;
pub use laws::table_supplies;
pub use promising::promise;
pub use table::{Slot, Table, TableRefusal};
