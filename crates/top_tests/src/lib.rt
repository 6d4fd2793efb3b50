//! Tests of the top call on files in memory: worked examples of the commands with their exact bytes.
//! The library itself is empty, so that no other crate is proved with these tests.
#![tactic(auto)]

#[cfg(test)]
mod analyses;
#[cfg(test)]
mod checks;
#[cfg(test)]
mod commands;
#[cfg(test)]
mod upgrades;
