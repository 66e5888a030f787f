// One edit of a board: its new text, and the board of that.
ghost use Rattle.std.specs.Prelude.{◌≡◌, IfOk, IfErr};
ghost use Rattle.sexpr_text.specs.Items.{Item};
ghost use Rattle.sexpr_text.specs.Trees.{IsRoot};
ghost use Rattle.edit_language.specs.Scripts.{IsWritten};
ghost use Rattle.edit_language.specs.Edited.{IsAcceptedEdit};
ghost use Rattle.board_edit.specs.Edited.{IsReadOf, IsEditRefusal};
ghost use Rattle.board_edit.specs.Inner.Boards.{IsBoardRefusal};

use crate::error::EditError;
use crate::splice::new_text;
use crate::stamp::{stamp_of, stamp_refusal};
use board_language::Rules;
use board_model::{Board, BoardError};
use edit_language::{Edit, EditRefusal};
use sexpr_text::TextError;
use std::alloc::Global;

/// The board of a text that is one list, or what offends in it first.
fn board_of(alloc: Global, text: &[u8], rules: Rules) -> Result<Board, EditError>
    requires { (root : Item) × IsRoot text.now root }
    ensures read { IfOk result (IsReadOf text.now) }
    ensures rules { IfOk result (λ b. b.board.rules ≡ rules) }
    ensures refused { IfErr result (IsBoardRefusal text.now) }
{
    let tree = match sexpr_text::read(alloc, text) {
        Ok(tree) => tree,
        Err(TextError::Memory) => return Err(EditError::Memory),
        Err(TextError::Bad(_)) => unreachable!(),
    };
    match Board::read(alloc, text, &tree, rules) {
        Ok(board) => Ok(board),
        Err(BoardError::Memory) => Err(EditError::Memory),
        Err(BoardError::Bad(offence)) => Err(EditError::Bad(EditRefusal::Breaks(offence))),
    }
}

/// The text that an edit makes of a board's text, and the board of the new text, under the same rules.
///
/// # Errors
///
/// Want of memory, or why the edit is refused.
pub fn edited(
    alloc: Global,
    text: &[u8],
    board: &Board,
    edit: &Edit,
) -> Result<(Vec<u8>, Board), EditError>
    requires board { IsReadOf text.now board.now }
    requires edit { IsWritten edit.now }
    ensures text { IfOk result (λ new. IsAcceptedEdit text.now edit.now new.0.items) }
    ensures board { IfOk result (λ new. IsReadOf new.0.items new.1) }
    ensures rules { IfOk result (λ new. new.1.board.rules ≡ board.now.board.rules) }
    ensures refused { IfErr result (IsEditRefusal text.now edit.now) }
{
    let thing = board.stamp_of(stamp_of(edit));
    if let Some(refusal) = stamp_refusal(edit, thing) {
        return Err(EditError::Bad(refusal));
    }
    let new = new_text(alloc, text, board, edit, thing)?;
    let board = board_of(alloc, &new, board.rules())?;
    Ok((new, board))
}
