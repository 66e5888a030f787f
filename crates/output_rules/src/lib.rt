//! What a run writes and says: the written board, the report, and the lines beside it.
//! The layer above uses the definitions of `specs/`, and calls that give the texts of the definitions byte for byte.
//! Coordinates are nanometres, areas square nanometres, places bytes from the front of the text.
#![tactic(auto)]

ghost use Rattle.output_rules.specs.Laws.{ReplacedLaw, PlacedLaw, SomeBytesLaw, BareLaw, NetsLaw, OneReportLaw};
ghost use Rattle.output_rules.specs.Rows.{OutputRows};

mod add;
mod cluster;
mod pieces;
mod report;
mod ring_text;

pub use board_language::Name;
pub use cluster::Cluster;
pub use pieces::{Piece, are_in_order, replaced, zone_pieces};
pub use report::{
    Copper, NetLines, NodeLine, RatsnestLine, TaskLine, refilled_text, report_text, summary_text,
    unjoined,
};
pub use ring_text::rings_text;

/// Pieces that lie in order within a text are replaced, and all other bytes stay, each in its order: by one text and no other,
/// of the size that it must have.
pub fn replaced_law()
    ensures { ReplacedLaw }
{}

/// The pieces that the fills of a board replace lie in order within its list, and so within its text; so what is written of
/// it isn't empty.
pub fn placed_law()
    ensures placed { PlacedLaw }
    ensures some { SomeBytesLaw }
{}

/// Where there are no rings, what is written is the text without its old fills.
pub fn bare_law()
    ensures { BareLaw }
{}

/// The nets of a report are those of its nodes, each once, in the order of their numbers.
pub fn nets_law()
    ensures { NetsLaw }
{}

/// At most one report fits a board, its fills and their outlines.
pub fn report_law()
    ensures { OneReportLaw }
{}

/// Small boards worked by hand: what is written of them, and what is said.
pub fn rows()
    ensures { OutputRows }
{}
