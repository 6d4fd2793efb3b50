//! Tests of the conditions and of their terms, over small sheets and certificates that were worked out by
//! hand, of a certificate that is judged in pieces, and of a generated sheet from its making to its run.
#![tactic(auto)]

#[cfg(test)]
mod first_failures;
#[cfg(test)]
mod pieces;
#[cfg(test)]
mod terms;
#[cfg(test)]
mod whole;
