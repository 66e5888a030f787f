// A script is read, and its edits are made one after another.
ghost use Rattle.std.specs.Prelude.{All};
ghost use Rattle.edit_language.specs.Scripts.{IsWritten};
ghost use Rattle.board_edit.specs.Edited.{IsReadOf};

use board_edit::{Edit, EditError, EditFault, EditRefusal, Script, ScriptError, edited};
use board_language::Rules;
use board_model::{Board, BoardError};
use grid_num::Memory;
use sexpr_text::TextError;
use std::alloc::Global;

/// A clearance of 0.2 mm everywhere, and one of 0.5 mm to the board's edge.
const RULES: Rules = Rules {
    floor: 200_000,
    edge: 500_000,
};

/// Why no edit is made.
pub enum Stop {
    Memory,
    /// A line of the script is faulty.
    Script(EditFault),
    /// What is to be edited is no text, or something offends in its board.
    Board,
}

impl From<Memory> for Stop {
    fn from(_: Memory) -> Self {
        Stop::Memory
    }
}

impl From<ScriptError> for Stop {
    fn from(error: ScriptError) -> Self {
        match error {
            ScriptError::Memory => Stop::Memory,
            ScriptError::Bad(fault) => Stop::Script(fault),
        }
    }
}

impl From<TextError> for Stop {
    fn from(error: TextError) -> Self {
        match error {
            TextError::Memory => Stop::Memory,
            TextError::Bad(_) => Stop::Board,
        }
    }
}

impl From<BoardError> for Stop {
    fn from(error: BoardError) -> Self {
        match error {
            BoardError::Memory => Stop::Memory,
            BoardError::Bad(_) => Stop::Board,
        }
    }
}

/// The number of the first edit that is refused, from 1, and why it is.
#[derive(Clone, Copy)]
pub struct Refused {
    pub number: usize,
    pub refusal: EditRefusal,
}

/// The last text that was made, and the edit that is refused on it.
#[derive(Drop)]
pub struct Outcome {
    pub text: Vec<u8>,
    pub refused: Option<Refused>,
}

/// Makes these edits of a board one after another, up to the first that is refused.
fn changed(alloc: Global, text: &[u8], board: Board, edits: &[Edit]) -> Result<Outcome, Memory>
    requires board { IsReadOf text.now board }
    requires edits { All IsWritten edits.now }
{
    let mut text = Vec::from_slice(alloc, text)?;
    let mut board = board;
    'edits: for place in 0..edits.len() {
        match edited(alloc, &text, &board, &edits[place]) {
            Ok(new) => (text, board) = new,
            Err(EditError::Memory) => return Err(Memory),
            Err(EditError::Bad(refusal)) => {
                let number = place + 1;
                let refused = Some(Refused { number, refusal });
                return Ok(Outcome { text, refused });
            }
        }
    }
    Ok(Outcome {
        text,
        refused: None,
    })
}

/// What a script makes of the text of a board.
pub fn outcome_of(alloc: Global, script: &[u8], text: &[u8]) -> Result<Outcome, Stop> {
    let script = Script::read(alloc, script)?;
    let tree = sexpr_text::read(alloc, text)?;
    let board = Board::read(alloc, text, &tree, RULES)?;
    Ok(changed(alloc, text, board, script.edits())?)
}
