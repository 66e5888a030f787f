//! The pool of a board's tasks: workers take tasks, hand in their fills, or give tasks back.
//! The layer above uses `fill_with`, which fills a board by workers; `Pool` and `Ticket`, which stand for one named board, for
//! workers of its own; and the laws of `laws` over every lawful run.
//! Tasks are numbers by rank, from 0; workers are any numbers; fills are in units of the grid (2 nm).
#![tactic(auto)]

mod copies;
mod filling;
pub mod laws;
mod machine;
mod named;
mod pool;
mod slots;
mod table;
mod ticket;
mod workers;

pub use named::Named;
pub use pool::Pool;
pub use pool_rules::PoolEvent;
pub use ticket::Ticket;
pub use workers::{Gate, OpenGate, fill_with};
