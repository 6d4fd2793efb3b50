//! Tests of shelves: files in memory and real ones.
#![tactic(auto)]

#[cfg(test)]
mod shelves;
