//! The fills of an edited board, by the fills of the board before and flags of what edits dirtied.
//! The layer above uses `refilled`: it fills exactly those tasks again that can be come to from flagged ones by changed fills, a step
//! each, and keeps the other fills.
//! Ranks are places among the tasks of a board in rank order, octagons are in units of the grid (2 nm).
#![tactic(auto)]

mod anew;
mod edited;
mod made;
mod next;
mod old;
mod same;
mod walk;

pub use walk::{Refill, refilled};
