//! Tests of the top call on sheets at their limits. The library itself is empty, so that no other
//! crate is proved with these tests.
#![tactic(auto)]

#[cfg(test)]
mod large;
