//! Tests of curve and task_sheet: values worked out by hand, and what no clause shows.
#![tactic(auto)]

#[cfg(test)]
mod prefixes;
#[cfg(test)]
mod sheets;
#[cfg(test)]
mod stairs;
