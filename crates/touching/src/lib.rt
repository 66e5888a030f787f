//! Touching of copper: cores, the copper round them, and a decision on whole numbers of whether two are within reach.
//! The crates above use the definitions of `specs/` and the laws that the functions here state; nothing here runs.
//! A coordinate is half a nanometre.
#![tactic(auto)]

ghost use Rattle.touching.specs.Laws.{DecisionLaw, TouchingOrderLaw, CopperLaw, CoreDistanceLaw, LeastLaw};

/// The decision on whole numbers holds for two cores exactly where some point of the one is within reach of some point of
/// the other: lines, areas, and one of each.
pub fn decision_law()
    ensures { DecisionLaw }
{}

/// Touching has no order.
pub fn order_law()
    ensures { TouchingOrderLaw }
{}

/// The law of distances: two cores are within reach exactly where they meet, or where a corner of the one is within reach
/// of a point of a side of the other.
pub fn distance_law()
    ensures { CoreDistanceLaw }
{}

/// Two pieces of copper touch exactly where they have a point in common.
pub fn copper_law()
    ensures { CopperLaw }
{}

/// The least distance of two cores that do not meet is that of a corner of the one and a point of a side of the other.
pub fn least_law()
    ensures { LeastLaw }
{}
