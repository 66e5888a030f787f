//! That what is written of a filled board is the text of a board with the same fills, and filled again is the same bytes.
//! The crates above use the law that the function here states; nothing here runs.
#![tactic(auto)]

ghost use Rattle.refill_facts.specs.Laws.{RefilledLaw};

/// What is written of an accepted board is the text of an accepted board with the same fills and outlines, and what is written
/// of that one is the same bytes, where no word comes directly behind an old fill.
pub fn refilled_law()
    ensures { RefilledLaw }
{}
