//! What is drawn from any strips in order that cover octagons is what the octagons' own strips draw.
//! The crates above use the law that the function here states; nothing here runs.
//! Octagons are in units of the grid (2 nm), strips in nanometres.
#![tactic(auto)]

ghost use Rattle.any_strips.specs.Laws.{SomeStripsLaw, AnyStripsLaw, AnyOutlinesLaw};

/// Octagons that aren't flat have strips, and any strips in order that cover the octagons have the area, the loops and the
/// rings of these: so their rings and twice their area are the outlines of the octagons.
pub fn any_law()
    ensures some { SomeStripsLaw }
    ensures any { AnyStripsLaw }
    ensures outlines { AnyOutlinesLaw }
{}
