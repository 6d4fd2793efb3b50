//! Tests of sinks, in memory and of real files and streams, of decimals, and of lists.
#![tactic(auto)]

#[cfg(test)]
mod items;
#[cfg(test)]
mod numbers;
#[cfg(test)]
mod sinks;
