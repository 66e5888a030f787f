//! The fill of a task, and of a whole board, as the rules of the fill define it.
//! The layer above uses `fill_task` and `fill_all`: exactly the fills of the definition (`IsFillOf` of `fills`), one step a task;
//! and `above`, which picks the fills that the next task is filled over.
//! Octagons and grid points are in units of the grid (2 nm).
#![tactic(auto)]

mod all;
mod allowed;
mod cuts;
mod fill;
mod live;
mod walls;

pub use all::{above, fill_all};
pub use fill::fill_task;
