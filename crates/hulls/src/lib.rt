//! The hulls of copper and of board edges: the octagons that stand for them where a clearance is kept.
//! The crates above use the definitions of `specs/` and the laws that the functions here state; nothing here runs.
//! A hull's coordinate is a unit of the grid (2 nm), a core's is half a nanometre, and a board edge's a nanometre.
#![tactic(auto)]

ghost use Rattle.hulls.specs.Laws.{FloorLaw, CeilLaw, LeastRoundLaw, OneLeastLaw, CopperInHullsLaw, SegmentLaw, ChordLaw, ChordLengthLaw, OneHullLaw, CentreLaw};

/// The two roundings are the greatest whole number below and the least above.
pub fn rounding_law()
    ensures down { FloorLaw }
    ensures up { CeilLaw }
{}

/// The octagon round grid points is tight, holds them, and is in each other octagon that holds them; no other is so.
pub fn least_law()
    ensures least { LeastRoundLaw }
    ensures one { OneLeastLaw }
{}

/// Every point of copper, at every scale, is in one of its hulls.
pub fn copper_law()
    ensures { CopperInHullsLaw }
{}

/// Every point of a board edge that is a segment, and every point of the disc on an arc's chord, is in one of its hulls;
/// that disc's radius comes from the chord's length, rounded up.
pub fn edge_law()
    ensures segment { SegmentLaw }
    ensures disc { ChordLaw }
    ensures length { ChordLengthLaw }
{}

/// The core of a pad has one hull, and that holds the places of the core with both coordinates rounded down.
pub fn pad_law()
    ensures one { OneHullLaw }
    ensures centre { CentreLaw }
{}
