// The text of a board with the rings of its fills.
ghost use Rattle.std.specs.Prelude.{◌≡◌, length, map, IfOk};
ghost use Rattle.board_language.specs.declared.board.Rules.{Rules};
ghost use Rattle.edit_language.specs.Edited.{IsBoardOf};
ghost use Rattle.fill_rules.specs.Tasks.{ranked};
ghost use Rattle.fills.specs.Fills.{task_of};
ghost use Rattle.output_rules.specs.Output.{board_pieces, text_with_rings};
ghost use Rattle.output_rules.specs.Shown.{piece_shown};
ghost use Rattle.outlines.specs.Drawn.{AreRingsInRange};

use crate::zone::{WrittenBoard, zone_text};
use board_model::Board;
use grid_num::Memory;
use knockouts::tasks;
use output_rules::{Piece, placed_law, replaced, zone_pieces};
use rings::Traced;
use std::alloc::Global;

// What is replaced in the board's text: in each zone its old fills, and its rings at the tail.
#[tactic(auto, unfolding(output_rules::specs::Output::board_pieces))]
fn pieces_of(alloc: Global, text: &[u8], it: &WrittenBoard<'_>) -> Result<Vec<Piece>, Memory>
    requires order { map task_of it.now.tasks.now ≡ ranked it.now.board.now.board }
    requires range { AreRingsInRange it.now.traced.now }
    ensures { IfOk result (λ v. map piece_shown v.items ≡ board_pieces text.now it.now.board.now.board it.now.traced.now) }
{
    it.board.sound();
    let zones = it.board.zones();
    let mut pieces = Vec::new(alloc);
    'each: for zone in 0..zones.len() {
        let rings = zone_text(alloc, it, zone as u32)?;
        let mut more = zone_pieces(alloc, text, &zones[zone].spans, rings)?;
        pieces.append(&mut more)?;
    }
    Ok(pieces)
}

/// The text of the board, its own, with the old fills of its copper zones taken out and these outlines put in, which stand in
/// rank order. All other bytes stay. Corners of rings lie within 500 mm.
///
/// # Errors
///
/// Want of memory.
#[tactic(auto, unfolding(output_rules::specs::Output::text_with_rings))]
pub fn board_text(
    alloc: Global,
    text: &[u8],
    board: &Board,
    traced: &[Traced],
) -> Result<Vec<u8>, Memory>
    requires board { (rules : Rules) × IsBoardOf text.now rules board.now.board }
    requires range { AreRingsInRange traced.now }
    ensures { IfOk result (λ v. v.items ≡ text_with_rings text.now board.now.board traced.now) }
{
    placed_law();
    let tasks = tasks(alloc, board)?;
    let it = WrittenBoard {
        board,
        tasks: tasks.as_slice(),
        traced,
    };
    let pieces = pieces_of(alloc, text, &it)?;
    replaced(alloc, text, &pieces)
}
