//! Tests of the texts of certificates and of runs, written by hand.
#![tactic(auto)]

#[cfg(test)]
mod certificates;
#[cfg(test)]
mod runs;
