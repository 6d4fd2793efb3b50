//! Prefixes of arrival curves, extrapolated past their horizon.
#![tactic(auto)]

mod checking;
mod prefix;
mod searching;

pub use checking::CurveRefusal;
pub use prefix::{Prefix, Stair, Step};
