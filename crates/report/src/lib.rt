//! Reports on what a certificate claims of a sheet's tasks, as a table and as JSON.
#![tactic(auto)]

mod object;
mod rows;
mod table;

pub use object::json_report;
pub use table::text_report;
