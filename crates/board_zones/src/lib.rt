//! Copper zones and rule areas: which are read, what is read of them, and their first offence.
//! The layer above uses each of these exactly as `board_language` defines it.
//! Lengths and places are in nanometres, outlines that are made in units of 2 nm.
#![tactic(auto)]

mod faults;
mod inside;
mod islands;
mod kind;
mod lists;
mod outline;
mod read;
mod settings;
mod spans;
mod zone;

pub use kind::{area_kind, zone_kind};
pub use read::{is_read_area, is_read_zone};
pub use spans::{spans_of, tail_of};
pub use zone::{area_of, zone_of};
