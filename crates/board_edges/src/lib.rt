//! The board's edge and the other drawings of a board and of its footprints.
//! The layer above uses the edges of each drawing, and its first offence, exactly as `board_language` defines them.
//! Places are in nanometres.
#![tactic(auto)]

mod edges;
mod form;
mod kind;
mod wide;

pub use edges::edges_of;
pub use kind::{drawing_kind, footprint_drawing_kind};
