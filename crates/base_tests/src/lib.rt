//! Tests of supply, policy and preemption: values worked out by hand, and what no clause shows.
#![tactic(auto)]

#[cfg(test)]
mod policies;
#[cfg(test)]
mod preemptions;
#[cfg(test)]
mod supplies;
