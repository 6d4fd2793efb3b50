//! Tests of demand, of points and of the meter, over small sheets that were worked out by hand.
#![tactic(auto)]

#[cfg(test)]
mod meters;
#[cfg(test)]
mod needs;
#[cfg(test)]
mod offsets;

#[cfg(test)]
use std::fmt::Debug;
#[cfg(test)]
use std::process::Abort;

/// What was found is what is wanted.
#[cfg(test)]
fn assert_same<T: PartialEq + Debug>(rt: &impl Abort, found: &T, wanted: &T) {
    assert_eq!(rt; found, wanted);
}
