//! Tests of run_model and schedule_laws: runs worked out by hand, and which of them comply.
#![tactic(auto)]

#[cfg(test)]
mod compliance;
#[cfg(test)]
mod runs;
