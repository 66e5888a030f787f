//! That every board made by rule is a board without offence: its text spells one list, and nothing in it is refused.
//! The crates above use the law that the function here states; nothing here runs. The rule is in docs/rules/generator.md.
//! A board has so many cells of 2 mm by as many, from 1 to 200.
#![tactic(auto)]

ghost use Rattle.gen_facts.specs.Laws.{MadeLaw};

/// The text of every board that is made by rule is that of a board without offence.
pub fn made_law()
    ensures { MadeLaw }
{}
