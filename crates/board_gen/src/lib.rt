//! Boards made by rule, to try and to time the filler on: up to 40,000 vias and tracks between two zones.
//! The layer above may use that `generate` gives the text that the definition `generated` gives, byte for byte.
//! Lengths are nanometres. The rule is in docs/rules/generator.md.
#![tactic(auto)]

mod add;
mod board;
mod draw;
mod item;

ghost use Rattle.board_gen.specs.Laws.{DrawLaw};

pub use board::generate;

/// The first numbers that the seed 0 draws, and what their cells have.
pub fn draw_law()
    ensures { DrawLaw }
{}
