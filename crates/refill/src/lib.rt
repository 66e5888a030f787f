//! An editor's session: a board with its fills, edits of it, and a refill of what they dirtied alone.
//! The layer above uses `Session`; contracts see what it holds as a `State`.
//! Tasks are told by rank, in the order in which they are filled.
#![tactic(auto)]

mod error;
mod flags;
mod opening;
mod session;

pub use error::OpenError;
pub use session::Session;
