//! Tests of the top call on words outside the grammar, on files past their limits and on files that are
//! not of the format. The library itself is empty, so that no other crate is proved with these tests.
#![tactic(auto)]

#[cfg(test)]
mod grammar;
#[cfg(test)]
mod malformed;
