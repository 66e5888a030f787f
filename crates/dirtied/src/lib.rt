//! Which tasks one edit of a board dirties directly: a new track or via by where it is, one that is dropped by where it was, and
//! a zone's new priority or clearance by the zone's tasks and those in reach of them.
//! The layer above uses `dirtied`, whose contract speaks in the definitions of `dirty_rules`.
//! Lengths of a board are nanometres, octagons and needs units of the grid (2 nm).
#![tactic(auto)]

mod beside;
mod copper;
mod edit;
mod named;
mod zones;

pub use board_edit::Edit;
pub use board_model::Board;
pub use edit::dirtied;
