//! Printing a sheet as the TOML document that reads as that sheet.
#![tactic(auto)]

mod printing;

pub use printing::print_sheet;
