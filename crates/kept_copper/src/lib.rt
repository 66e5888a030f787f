//! Which cells of a task's copper are kept, and the pieces that these make.
//! The layer above uses `stays`, `kept_cells` and `fill_of_cells`, with cells of grid points (`cell_octs`) and what the brush covers at them
//! (`all_grown`). No board is looked at here.
//! Octagons and grid points are in units of the grid (2 nm), board edges in nanometres, cores and radii of copper in halves.
#![tactic(auto)]

mod brush;
mod cells;
mod labels;
mod pieces;
mod staying;

pub use brush::{all_grown, grown};
pub use cells::cell_octs;
pub use labels::kept_cells;
pub use pieces::fill_of_cells;
pub use staying::stays;
