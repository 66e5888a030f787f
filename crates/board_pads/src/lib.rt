//! Footprints and their pads: which pads are read, what is read of them, and their first offence.
//! The layer above uses each exactly as `board_language` defines it, and that a pad's core holds the pad's centre.
//! Lengths and places are nanometres, shapes are halves of a nanometre, angles are quarter turns.
#![tactic(auto)]

mod angle;
mod bridge;
mod decimal;
mod drill;
mod footprint;
mod form;
mod given;
mod join;
mod kind;
mod pad;
mod place;
mod ratio;
mod read;
mod shape;
mod size;

pub use footprint::footprint_kind;
pub use given::ReadFootprint;
pub use kind::pad_kind;
pub use pad::pad_of;
pub use read::{has_read_pad, is_read_pad};
