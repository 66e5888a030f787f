//! What every accepted board has, in one place: how many things, how thick and wide they are, how far away they lie, how each
//! pad stands, which rules outlines keep, and where the lists stand in the text.
//! The record of it is `IsSoundBoard` of `board_language`; where the lists stand, and stamps, are told in `specs/`. The crates
//! above use the laws that the functions here state; nothing here runs.
//! Lengths are nanometres; outlines are in units of 2 nm, and shapes of pads in halves of a nanometre.
#![tactic(auto)]

ghost use Rattle.board_facts.specs.Laws.{AcceptedLaw, PlacesLaw, StampsLaw, FactsLaw};

/// The board of a text in which nothing offends is sound, under whatever rules that are in range.
pub fn accepted_law()
    ensures { AcceptedLaw }
{}

/// Its tracks, vias and zones stand in its text. A zone's tail is inside the zone, behind the lists that edits replace and the
/// fills that were written before, which are in order.
pub fn places_law()
    ensures { PlacesLaw }
{}

/// No two of its items have one stamp.
pub fn stamps_law()
    ensures { StampsLaw }
{}

/// All of this in one: the facts of the board of an accepted text.
pub fn facts_law()
    ensures { FactsLaw }
{}
