// What is due of a text, as `Board::read` gives it.
ghost use Rattle.std.specs.Prelude.{IfOk};
ghost use Rattle.board_table.specs.Verdicts.{IsVerdict};

use board_language::Rules;
use board_model::{Board, BoardError, Offence};
use grid_num::Memory;
use sexpr_text::{TextError, TextFault};
use std::alloc::Global;

/// A clearance of 0.2 mm everywhere, and one of 0.5 mm to the board's edge.
const RULES: Rules = Rules {
    floor: 200_000,
    edge: 500_000,
};

/// What a text is.
#[derive(Drop)]
pub enum Verdict {
    /// It is no text.
    NoText(TextFault),
    /// It is a text whose board is refused.
    Refused(Offence),
    /// It is the text of this board.
    Read(Board),
}

/// The verdict on a text. Refuses for want of memory alone.
pub fn verdict_on(alloc: Global, text: &[u8]) -> Result<Verdict, Memory>
    ensures { IfOk result (IsVerdict text.now) }
{
    let tree = match sexpr_text::read(alloc, text) {
        Ok(tree) => tree,
        Err(TextError::Memory) => return Err(Memory),
        Err(TextError::Bad(fault)) => return Ok(Verdict::NoText(fault)),
    };
    match Board::read(alloc, text, &tree, RULES) {
        Ok(board) => Ok(Verdict::Read(board)),
        Err(BoardError::Memory) => Err(Memory),
        Err(BoardError::Bad(offence)) => Ok(Verdict::Refused(offence)),
    }
}
