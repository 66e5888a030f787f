//! Tracks and vias, each by itself, and what offends in them, in the board, its layers and its nets. The layer above uses
//! each reading and the first offence of each item, exactly as `board_language` defines them.
//! Lengths and places are nanometres.
#![tactic(auto)]

mod board;
mod layers;
mod track;

pub use board::{board_kind, net_kind};
pub use layers::layers_kind;
pub use track::{track_fault, track_kind, track_of, via_fault, via_kind, via_of};
