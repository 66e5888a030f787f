// A board is filled, and its fills outlined.
ghost use Rattle.std.specs.Prelude.{◌≡◌, ◌<◌, map, IfOk};
ghost use Rattle.std.specs.Arc.{arc_value};
ghost use Rattle.fills.specs.Fills.{AreBoardFills};

use board_language::Rules;
use board_model::{Board, BoardError};
use fills::Fill;
use grid_num::Memory;
use outlines::{Traced, drawable_law, outlines_single};
use sexpr_text::TextError;
use std::alloc::Global;
use std::sync::Arc;
use std::sync::ledger::{Blank, Ledger};
use step_count::Steps;
use zone_fill::fill_all;

/// A clearance of 0.2 mm everywhere, and one of 0.5 mm to the board's edge.
const RULES: Rules = Rules {
    floor: 200_000,
    edge: 500_000,
};

/// A board with the fills of its tasks and their outlines, both in rank order.
#[derive(Drop)]
pub struct FilledBoard {
    pub board: Board,
    pub fills: Vec<Arc<Fill>>,
    pub traced: Vec<Traced>,
}

/// Why a board isn't filled.
pub enum Stop {
    Memory,
    /// It is no text, or something offends in it.
    Refused,
}

impl From<Memory> for Stop {
    fn from(_: Memory) -> Self {
        Stop::Memory
    }
}

impl From<TextError> for Stop {
    fn from(error: TextError) -> Self {
        match error {
            TextError::Memory => Stop::Memory,
            TextError::Bad(_) => Stop::Refused,
        }
    }
}

impl From<BoardError> for Stop {
    fn from(error: BoardError) -> Self {
        match error {
            BoardError::Memory => Stop::Memory,
            BoardError::Bad(_) => Stop::Refused,
        }
    }
}

/// The board of the text, filled.
pub fn filled<L: Ledger>(alloc: Global, text: &[u8], blank: Blank) -> Result<FilledBoard, Stop>
    requires name { blank.name ≡ L.name }
    requires parts { blank.parts ≡ L.parts }
    requires some { 0 < blank.parts }
    ensures { IfOk result (λ f. AreBoardFills f.board.board (map arc_value f.fills.items)) }
{
    let tree = sexpr_text::read(alloc, text)?;
    let board = Board::read(alloc, text, &tree, RULES)?;
    board.sound();
    drawable_law();
    let mut steps = Steps::<L>::new(blank);
    let fills = fill_all(alloc, &board, &mut steps)?;
    let traced = outlines_single(alloc, &fills)?;
    Ok(FilledBoard {
        board,
        fills,
        traced,
    })
}
