//! The board of a text's tree, or the first offence in it. The layer above uses `Board::read` and the readers of `Board`;
//! contracts see the board that `board_language` defines, with the stamps of its things.
//! Lengths and places on the board are nanometres, places in the text are bytes.
#![tactic(auto)]

mod board;
mod copper;
mod error;
mod items;
mod laws;
mod lines;
mod names;
mod pads;
mod reading;
mod zones;

pub use board::Board;
pub use board_language::{
    Area, Edge, FillSpans, IslandMode, Join, Name, Offence, OffenceKind, Pad, PadKind, Rules,
    Stamped, Track, Via, Zone, ZoneSpans, one_offence_law,
};
pub use error::BoardError;
pub use laws::stamp_law;
