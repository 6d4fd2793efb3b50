//! Reading a sheet from its text, a TOML document.
#![tactic(auto)]

mod arrivals;
mod cuts;
mod document;
mod numbers;
mod promises;
mod reading;
mod tasks;
mod time_tables;

pub use reading::read_sheet;
