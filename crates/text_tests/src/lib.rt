//! Tests of sheet_text, sheet_print and report: texts written by hand.
#![tactic(auto)]

#[cfg(test)]
mod reports;
#[cfg(test)]
mod sheets;
#[cfg(test)]
mod time_tables;
