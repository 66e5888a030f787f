//! The contents of texts without their places, and texts that are put together: definitions with their laws.
//! The crates above use `specs/`, the law that the function here states, and the lemmas of `proofs/ItemSeen`: what is read of
//! the items of a text is told by their contents alone. Nothing here runs.
#![tactic(auto)]

ghost use Rattle.text_shapes.specs.Laws.{LaidLaw};

/// A text that is put together as one list spells that list.
pub fn shapes_law()
    ensures { LaidLaw }
{}
