// The board of a text, and its fills.
ghost use Rattle.std.specs.Prelude.{◌≡◌, ◌<◌, map, IfOk, IfErr};
ghost use Rattle.std.specs.Arc.{arc_value};
ghost use Rattle.fills.specs.Fills.{AreBoardFills};
ghost use Rattle.board_edit.specs.Edited.{IsReadOf};
ghost use Rattle.refill.specs.Sessions.{IsOpenRefusal};

use crate::error::OpenError;
use board_model::{Board, Rules};
use fills::Fill;
use grid_num::Memory;
use std::alloc::Global;
use std::marker::Brand;
use std::sync::Arc;
use std::sync::ledger::{Blank, Ledger};
use step_count::Steps;
use zone_fill::fill_all;

/// The board of a text under these rules, or why the text has none.
pub fn board_of(alloc: Global, text: &[u8], rules: Rules) -> Result<Board, OpenError>
    ensures read { IfOk result (IsReadOf text.now) }
    ensures rules { IfOk result (λ board. board.board.rules ≡ rules) }
    ensures refused { IfErr result (IsOpenRefusal text.now) }
{
    let tree = sexpr_text::read(alloc, text)?;
    let board = Board::read(alloc, text, &tree, rules)?;
    Ok(board)
}

/// The fills of all tasks of the board, in rank order, over a count of steps that nobody reads.
pub fn all_fills(alloc: Global, board: &Board) -> Result<Vec<Arc<Fill>>, Memory>
    ensures { IfOk result (λ fills. AreBoardFills board.now.board (map arc_value fills.items)) }
{
    counted_fills::<Brand>(alloc, board, Blank::new(1))
}

// The fills, with the count that the blank begins.
fn counted_fills<L: Ledger>(
    alloc: Global,
    board: &Board,
    blank: Blank,
) -> Result<Vec<Arc<Fill>>, Memory>
    requires name { blank.name ≡ L.name }
    requires parts { blank.parts ≡ L.parts }
    requires some { 0 < blank.parts }
    ensures { IfOk result (λ fills. AreBoardFills board.now.board (map arc_value fills.items)) }
{
    let mut steps = Steps::<L>::new(blank);
    fill_all(alloc, board, &mut steps)
}
