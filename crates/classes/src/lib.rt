//! Classes by reachability, of any relation: what links reach, and the least member of a class.
//! The crates above use `Reaches`, `IsLeastOf` and the laws; nothing here runs.
//! Things are of any type; no number here has a unit.
#![tactic(auto)]

ghost use Rattle.classes.specs.Laws.{ClassLaw, LeastMemberLaw};

/// Reaching along links that go both ways is reflexive, symmetric and transitive, holds every link, and goes no
/// further than a set that no link leaves.
pub fn class_law()
    ensures { ClassLaw }
{}

/// A class has at most one least member, which is the same whichever member one starts from.
pub fn least_law()
    ensures { LeastMemberLaw }
{}
