//! Tests of supply_table and curve_infer: rows and floors worked out by hand, and that they are fast.
#![tactic(auto)]

#[cfg(test)]
mod tables;
#[cfg(test)]
mod traces;
