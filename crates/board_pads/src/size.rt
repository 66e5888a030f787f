// The size of a pad, in nanometres.
ghost use Rattle.std.specs.Prelude.{◌≡◌, ◌≤◌, max, codes, Some, IfOk};
ghost use Rattle.grid_num.specs.Length.{IsInRange};
ghost use Rattle.board_text.specs.Fields.{list_of};
ghost use Rattle.board_text.specs.Numbers.{length_at};
ghost use Rattle.board_text.specs.Items.{size_of};
ghost use Rattle.board_language.specs.Pads.{drilled_size, size_on_board, swapped, written_size};

use crate::angle::turns_in;
use crate::drill::{drill_height, drill_width};
use crate::read::is_hole;
use board_items::size_of;
use board_text::Part;
use grid_num::Memory;
use std::alloc::Global;

/// A width and a height.
#[derive(Clone, Copy)]
pub struct Size {
    pub width: u32,
    pub height: u32,
}

/// The written width of a pad at place 0, and its height at place 1; 0 where none is written.
///
/// # Errors
///
/// Want of memory.
pub fn size_at(alloc: Global, pad: &Part<'_>, place: usize) -> Result<i64, Memory>
    ensures value { IfOk result (λ nm. nm ≡ length_at pad.now.bytes place (list_of pad.now.bytes (codes "size") pad.now.item)) }
    ensures range { IfOk result IsInRange }
{
    match pad.list(b"size") {
        Some(list) => list.length_at(alloc, place),
        None => Ok(0),
    }
}

fn written_size(alloc: Global, pad: &Part<'_>) -> Result<Size, Memory>
    ensures width { IfOk result (λ s. s.width ≡ (written_size pad.now.bytes pad.now.item).width) }
    ensures height { IfOk result (λ s. s.height ≡ (written_size pad.now.bytes pad.now.item).height) }
{
    let width = size_at(alloc, pad, 0)?;
    let height = size_at(alloc, pad, 1)?;
    Ok(Size {
        width: size_of(width),
        height: size_of(height),
    })
}

/// The size that covers both.
fn greater(size: Size, width: u32, height: u32) -> Size
    ensures width { result.width ≡ max size.width width }
    ensures height { result.height ≡ max size.height height }
{
    Size {
        width: size.width.max(width),
        height: size.height.max(height),
    }
}

/// A hole is at least as wide and as high as its drill.
fn drilled_size(alloc: Global, pad: &Part<'_>) -> Result<Size, Memory>
    ensures width { IfOk result (λ s. s.width ≡ (drilled_size pad.now.bytes pad.now.item).width) }
    ensures height { IfOk result (λ s. s.height ≡ (drilled_size pad.now.bytes pad.now.item).height) }
{
    let size = written_size(alloc, pad)?;
    if !is_hole(alloc, pad)? {
        return Ok(size);
    }
    let width = drill_width(alloc, pad)?;
    let height = drill_height(alloc, pad)?;
    Ok(greater(size, size_of(width), size_of(height)))
}

/// An odd number of quarter turns swaps width and height.
fn swapped(turns: u64, size: Size) -> Size
    ensures width { result.width ≡ (swapped turns (record { width = size.width; height = size.height })).width }
    ensures height { result.height ≡ (swapped turns (record { width = size.width; height = size.height })).height }
{
    if turns % 2 == 1 {
        Size {
            width: size.height,
            height: size.width,
        }
    } else {
        size
    }
}

/// The size of a pad on the board.
///
/// # Errors
///
/// Want of memory.
#[tactic(auto, unfolding(board_language::specs::Pads::size_on_board))]
pub fn size_on_board(alloc: Global, pad: &Part<'_>) -> Result<Size, Memory>
    ensures width { IfOk result (λ s. s.width ≡ (size_on_board pad.now.bytes pad.now.item).width) }
    ensures height { IfOk result (λ s. s.height ≡ (size_on_board pad.now.bytes pad.now.item).height) }
{
    let size = drilled_size(alloc, pad)?;
    let turns = turns_in(alloc, pad)?;
    let turned = swapped(turns, size);
    Ok(turned)
}
