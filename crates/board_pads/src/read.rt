// Which pads are read.
ghost use Rattle.std.specs.Prelude.{◌≡◌, ◌&&◌, codes, IfOk};
ghost use Rattle.std.specs.List.{list_any};
ghost use Rattle.sexpr_text.specs.Items.{is_headed};
ghost use Rattle.board_text.specs.Fields.{list_of};
ghost use Rattle.board_text.specs.Layers.{has_copper};
ghost use Rattle.board_language.specs.Pads.{has_read_pad, is_hole, is_read_pad};
ghost use Rattle.board_items.specs.Known.{context};

use board_items::{Known, has_copper};
use board_text::Part;
use grid_num::Memory;
use std::alloc::Global;

/// Whether a pad is a bare hole.
///
/// # Errors
///
/// Want of memory.
pub fn is_hole(alloc: Global, pad: &Part<'_>) -> Result<bool, Memory>
    ensures { IfOk result (λ yes. yes ≡ is_hole pad.now.bytes pad.now.item) }
{
    pad.says_at(alloc, 1, b"np_thru_hole")
}

fn is_on_copper(alloc: Global, known: &Known, pad: &Part<'_>) -> Result<bool, Memory>
    ensures { IfOk result (λ yes. yes ≡ has_copper pad.now.bytes known.now.copper (list_of pad.now.bytes (codes "layers") pad.now.item)) }
{
    match pad.list(b"layers") {
        Some(list) => has_copper(alloc, known, &list),
        None => Ok(false),
    }
}

/// Whether a pad is read: it is on copper, or a bare hole.
///
/// # Errors
///
/// Want of memory.
pub fn is_read_pad(alloc: Global, known: &Known, pad: &Part<'_>) -> Result<bool, Memory>
    ensures { IfOk result (λ yes. yes ≡ is_read_pad (context pad.now.bytes known.now) pad.now.item) }
{
    let hole = is_hole(alloc, pad)?;
    let copper = is_on_copper(alloc, known, pad)?;
    Ok(hole || copper)
}

fn is_one(alloc: Global, known: &Known, item: &Part<'_>) -> Result<bool, Memory>
    ensures { IfOk result (λ yes. yes ≡ (is_headed item.now.bytes (codes "pad") item.now.item && is_read_pad (context item.now.bytes known.now) item.now.item)) }
{
    let read = is_read_pad(alloc, known, item)?;
    Ok(item.is_headed(b"pad") && read)
}

fn has_one(alloc: Global, known: &Known, lists: &[Part<'_>]) -> Result<bool, Memory>
    ensures { IfOk result (λ yes. yes ≡ list_any (λ p. is_headed p.bytes (codes "pad") p.item && is_read_pad (context p.bytes known.now) p.item) lists.now) }
{
    'each: for list in lists {
        if is_one(alloc, known, list)? {
            return Ok(true);
        }
    }
    Ok(false)
}

/// Whether a footprint has a pad that is read.
///
/// # Errors
///
/// Want of memory.
#[tactic(auto, using(crate::proofs::Parts::read_is))]
pub fn has_read_pad(alloc: Global, known: &Known, footprint: &Part<'_>) -> Result<bool, Memory>
    ensures { IfOk result (λ yes. yes ≡ has_read_pad (context footprint.now.bytes known.now) footprint.now.item) }
{
    let lists = footprint.lists(alloc)?;
    let found = has_one(alloc, known, &lists)?;
    Ok(found)
}
