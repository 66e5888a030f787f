//! The text of a filled board, its report, and the fills that a text holds.
//! The layer above uses `board_text` (the board's text with its old fills taken out and the rings of its fills put in, byte for byte
//! that of the definition, `text_with_rings` of `output_rules`), `report_text` (the report of the definitions there, by its bytes)
//! and `read_fills` (the rings that stand in a board's text, as `FillLists` of `specs/` defines them).
//! Corners of rings are nanometres, places bytes from the front of the text.
#![tactic(auto)]

mod board;
mod corners;
mod error;
mod fill_layer;
mod fill_lists;
mod lines_of_nets;
mod lines_of_nodes;
mod lines_of_tasks;
mod members;
mod numbered;
mod reading;
mod report;
mod zone;
mod zone_lists;

pub use board::board_text;
pub use error::FillsError;
pub use reading::{read_fills, read_law};
pub use report::{Report, report_text};
