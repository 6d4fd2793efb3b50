//! Tests of best certificates, of bounds and of the laws, over small sheets that were worked out by
//! hand.
#![tactic(auto)]

#[cfg(test)]
mod best_certs;
#[cfg(test)]
mod bounds;
#[cfg(test)]
mod laws;
#[cfg(test)]
mod pieces;
#[cfg(test)]
mod points;
