//! Tests of runs, simulated and judged, and of what a seed makes, as texts that were worked out by
//! hand.
#![tactic(auto)]

#[cfg(test)]
mod laws;
#[cfg(test)]
mod seeds;
#[cfg(test)]
mod sheets;
#[cfg(test)]
mod simulations;
#[cfg(test)]
mod verdicts;
