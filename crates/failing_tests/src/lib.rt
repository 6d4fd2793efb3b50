//! Tests of the top call on files and sinks that fail. The library itself is empty, so that no other
//! crate is proved with these tests.
#![tactic(auto)]

#[cfg(test)]
mod failing;
