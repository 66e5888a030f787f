// The session.
ghost use Rattle.std.specs.Prelude.{◌≡◌, ◌+◌, length, map, unwrap_or, IfOk, IfErr};
ghost use Rattle.std.specs.Arc.{arc_value};
ghost use Rattle.fill_rules.specs.Tasks.{ranked};
ghost use Rattle.fills.specs.Fills.{AreBoardFills};
ghost use Rattle.edit_language.specs.Scripts.{IsWritten};
ghost use Rattle.board_edit.specs.Edited.{IsReadOf, IsEditRefusal};
ghost use Rattle.refill.specs.Sessions.{IsSoundState, IsNewOf, IsOpened, IsOpenRefusal, IsApplied, IsRefilled, TakesAtMost};
ghost use Rattle.refill.specs.Inner.Kept.{with_edited, with_filled};

use crate::error::OpenError;
use crate::flags::{next_flags, none_set};
use crate::opening::{all_fills, board_of};
use board_edit::{Edit, EditError, edited};
use board_model::{Board, Rules};
use fills::Fill;
use grid_num::Memory;
use refill_walk::refilled;
use std::alloc::Global;
use std::marker::Model;
use std::sync::Arc;
use std::sync::ledger::Ledger;
use step_count::Steps;

/// A board with its fills, and edits of it. Between an edit and the next refill the fills are still those of the board that was
/// filled last, which is kept beside the edited one. Contracts see all that it holds.
#[derive(Drop)]
pub struct Session {
    alloc: Global,
    text: Vec<u8>,
    board: Board,
    // the board that was filled last, where edits have made another of it
    filled: Option<Board>,
    fills: Vec<Arc<Fill>>,
    dirty: Vec<bool>,
}

impl Model for Session {
    ghost use Rattle.std.specs.Prelude.{map, unwrap_or};
    ghost use Rattle.std.specs.Arc.{arc_value};
    ghost use Rattle.refill.specs.Sessions.{State, IsSoundState};

    ghost Value = { State };

    ghost view = { λ s. record {
      text = s.text.items;
      board = s.board;
      filled = unwrap_or s.filled s.board;
      fills = map arc_value s.fills.items;
      dirty = s.dirty.items;
    } };

    ghost invariant = { λ s. IsSoundState (record {
      text = s.text.items;
      board = s.board;
      filled = unwrap_or s.filled s.board;
      fills = map arc_value s.fills.items;
      dirty = s.dirty.items;
    }) };
}

/// The board that is kept, or else this one.
fn kept_or(kept: Option<Board>, board: Board) -> Board
    ensures { result ≡ unwrap_or kept board }
{
    match kept {
        Some(kept) => kept,
        None => board,
    }
}

impl Session {
    /// Opens a session over a board's text, and fills the board.
    ///
    /// # Errors
    ///
    /// Want of memory, the text's fault, or the first offence of its board.
    pub fn open(alloc: Global, text: Vec<u8>, rules: Rules) -> Result<Session, OpenError>
        ensures opened { IfOk result (IsOpened text.items rules) }
        ensures refused { IfErr result (IsOpenRefusal text.items) }
    {
        let board = board_of(alloc, &text, rules)?;
        let fills = all_fills(alloc, &board)?;
        Ok(Session::adopt(alloc, text, board, fills)?)
    }

    /// Takes over a board that is filled already.
    ///
    /// # Errors
    ///
    /// Want of memory.
    pub fn adopt(
        alloc: Global,
        text: Vec<u8>,
        board: Board,
        fills: Vec<Arc<Fill>>,
    ) -> Result<Session, Memory>
        requires read { IsReadOf text.items board }
        requires fills { AreBoardFills board.board (map arc_value fills.items) }
        ensures new { IfOk result (IsNewOf text.items board) }
        ensures fills { IfOk result (λ s. s.fills ≡ map arc_value fills.items) }
    {
        let dirty = none_set(alloc, fills.len())?;
        Ok(Session {
            alloc,
            text,
            board,
            filled: None,
            fills,
            dirty,
        })
    }

    /// What always holds of a session. It only says so, for callers to know.
    pub fn sound(&self)
        ensures { IsSoundState self.now }
    {
        let _ = &self.text;
    }

    /// Makes the edit. A refused one leaves the session as it was. What was filled stays until the next refill.
    ///
    /// # Errors
    ///
    /// Want of memory, or why the edit is refused.
    pub fn apply(&mut self, edit: &Edit) -> Result<(), EditError>
        requires edit { IsWritten edit.now }
        ensures applied { IfOk result (λ _. IsApplied edit.now self.old self.new) }
        ensures refused { IfErr result (IsEditRefusal self.old.text edit.now) }
        ensures same { IfErr result (λ _. self.new ≡ self.old) }
    {
        let new = edited(self.alloc, &self.text, &self.board, edit)?;
        let dirty = next_flags(self.alloc, &self.board, &new.1, edit, &self.dirty)?;
        new.1.sound();
        self.put_edited(new.0, new.1, dirty);
        Ok(())
    }

    /// Puts an edited board in the place of the board.
    fn put_edited(&mut self, text: Vec<u8>, board: Board, dirty: Vec<bool>)
        requires { IsSoundState (with_edited self.old text.items board dirty.items) }
        ensures { self.new ≡ with_edited self.old text.items board dirty.items }
    {
        let before = std::mem::replace(&mut self.board, board);
        let kept = std::mem::replace(&mut self.filled, None);
        self.filled = Some(kept_or(kept, before));
        self.text = text;
        self.dirty = dirty;
    }

    /// The text, as edits have made it.
    pub fn text(&self) -> &[u8]
        ensures { result.now ≡ self.now.text }
    {
        &self.text
    }

    /// Its board.
    pub fn board(&self) -> &Board
        ensures { result.now ≡ self.now.board }
    {
        &self.board
    }

    /// For each task of the board, by its rank, whether an edit dirtied it directly since the board was filled.
    pub fn dirty(&self) -> &[bool]
        ensures { result.now ≡ self.now.dirty }
    {
        &self.dirty
    }

    /// The fills of the board that was filled last, in its rank order.
    pub fn fills(&self) -> &[Arc<Fill>]
        ensures { map arc_value result.now ≡ self.now.fills }
    {
        &self.fills
    }

    /// The board that was filled last.
    pub fn filled_board(&self) -> &Board
        ensures { result.now ≡ self.now.filled }
    {
        match &self.filled {
            Some(filled) => filled,
            None => &self.board,
        }
    }

    /// Fills the edited board: the dirty tasks, and those that changed fills reach. It gives how many these are.
    ///
    /// # Errors
    ///
    /// Want of memory; the session is then as it was.
    pub fn refill<L: Ledger>(&mut self, steps: &mut Steps<L>) -> Result<u32, Memory>
        ensures refilled { IfOk result (λ n. IsRefilled n self.old self.new) }
        ensures counts { IfOk result (λ n. steps.new ≡ steps.old + n) }
        ensures most { TakesAtMost self.old steps.old steps.new }
        ensures same { IfErr result (λ _. self.new ≡ self.old) }
    {
        let again = refilled(
            self.alloc,
            self.filled_board(),
            &self.board,
            &self.fills,
            &self.dirty,
            steps,
        )?;
        let dirty = none_set(self.alloc, self.dirty.len())?;
        self.put_filled(again.fills, dirty);
        Ok(again.count)
    }

    /// Puts the fills of the board in the place of those that were there, with these flags.
    fn put_filled(&mut self, fills: Vec<Arc<Fill>>, dirty: Vec<bool>)
        requires { IsSoundState (with_filled self.old (map arc_value fills.items) dirty.items) }
        ensures { self.new ≡ with_filled self.old (map arc_value fills.items) dirty.items }
    {
        self.filled = None;
        self.fills = fills;
        self.dirty = dirty;
    }
}
