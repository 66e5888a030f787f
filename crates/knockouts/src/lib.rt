//! Which tasks a board has, in which order they are filled, and what each keeps away from, is joined by and is held by.
//! The layer above uses exact answers: those of the rules of the fill, over a board that is read.
//! Places and octagons are units of the grid (2 nm), lengths of the board nanometres, shapes of copper halves.
#![tactic(auto)]

mod copper;
mod frames;
mod holding;
pub mod laws;
mod lengths;
mod obstacles;
mod pads;
mod rank;
mod thermal;

pub use fills::Task;
pub use frames::reach;
pub use holding::anchors;
pub use lengths::brush_radius;
pub use obstacles::{Need, needs};
pub use rank::{has_layer, tasks, zone_of};
pub use thermal::spokes;
