//! The laws of points.
ghost use Rattle.search_space.specs.PointLaws.{BetweenPoints, AcrossGap};

use policy::Policy;

/// From an offset up to the next point nothing changes.
pub fn between_points<P: Policy>()
    ensures { BetweenPoints P.meaning }
{}

/// Where two offsets are the same, so is every one between them.
pub fn across_gap<P: Policy>()
    ensures { AcrossGap P.meaning }
{}
