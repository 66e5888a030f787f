// What is read of a pad.
ghost use Rattle.std.specs.Prelude.{◌≡◌, ◌≤◌, Bool, false, length, codes, unwrap_or, Some, None, IfOk};
ghost use Rattle.std.specs.Option.{option_or};
ghost use Rattle.plane.specs.Plane.{grid_point};
ghost use Rattle.touching.specs.Core.{InCore};
ghost use Rattle.hulls.specs.Laws.{IsPad};
ghost use Rattle.grid_num.specs.Length.{IsInRange};
ghost use Rattle.board_text.specs.Fields.{list_of};
ghost use Rattle.board_text.specs.Layers.{layer_set};
ghost use Rattle.board_text.specs.Items.{line_of, size_of};
ghost use Rattle.board_language.specs.Offences.{is_bad_ratio, pad_kind};
ghost use Rattle.board_language.specs.Pads.{double, own_length, pad_of, pad_place, ratio_in, shape_of, size_on_board};
ghost use Rattle.board_items.specs.Known.{context};
ghost use Rattle.board_pads.specs.Ranges.{IsInRanges};

use crate::form::kind_of;
use crate::given::ReadFootprint;
use crate::join::{bridge_of, clearance_of, gap_of, join_of};
use crate::place::pad_place;
use crate::ratio::ratio_in;
use crate::shape::shape_of;
use crate::size::size_on_board;
use board_items::{Known, layer_set, no_layers_law};
use board_language::Pad;
use board_text::Part;
use copper_shape::Shape;
use grid_num::{Memory, Point};
use std::alloc::Global;

fn layers_of(alloc: Global, known: &Known, pad: &Part<'_>) -> Result<u32, Memory>
    requires few { length known.now.copper ≤ 32 }
    ensures { IfOk result (λ set. set ≡ layer_set pad.now.bytes known.now.copper (list_of pad.now.bytes (codes "layers") pad.now.item)) }
{
    match pad.list(b"layers") {
        Some(list) => layer_set(alloc, known, &list),
        None => {
            no_layers_law();
            Ok(0)
        }
    }
}

#[tactic(auto, using(crate::proofs::Ranges::ratio_is, crate::proofs::Ranges::ratio_most))]
fn sound_ratio(alloc: Global, pad: &Part<'_>) -> Result<u64, Memory>
    requires sound { is_bad_ratio (ratio_in pad.now.bytes pad.now.item) ≡ false }
    ensures value { IfOk result (λ q. q ≡ size_of (ratio_in pad.now.bytes pad.now.item)) }
    ensures most { IfOk result (λ q. q ≤ 5000000000) }
{
    let ratio = ratio_in(alloc, pad)?;
    let known = ratio.unwrap_or(0);
    Ok(known)
}

fn copper_at(alloc: Global, pad: &Part<'_>, at: Point) -> Result<Shape, Memory>
    requires x { IsInRange at.x }
    requires y { IsInRange at.y }
    requires width { (size_on_board pad.now.bytes pad.now.item).width ≤ 100000000 }
    requires height { (size_on_board pad.now.bytes pad.now.item).height ≤ 100000000 }
    requires ratio { is_bad_ratio (ratio_in pad.now.bytes pad.now.item) ≡ false }
    ensures value { IfOk result (λ s. s ≡ shape_of pad.now.bytes pad.now.item at (size_on_board pad.now.bytes pad.now.item)) }
    ensures pad { IfOk result (λ s. IsPad s.core) }
    ensures centre { IfOk result (λ s. InCore s.core (grid_point (double at.x) (double at.y))) }
{
    let size = size_on_board(alloc, pad)?;
    let ratio = sound_ratio(alloc, pad)?;
    let shape = shape_of(alloc, pad, at, size.width, size.height, ratio)?;
    Ok(shape)
}

/// The pad that is read of an item on this line, in a footprint of the same text, of a board with at most 32 copper
/// layers. The pad doesn't offend. Its core holds its place.
///
/// # Errors
///
/// Want of memory.
#[tactic(auto, unfolding(board_language::specs::Pads::pad_of))]
pub fn pad_of(
    alloc: Global,
    known: &Known,
    footprint: &ReadFootprint<'_, '_>,
    pad: &Part<'_>,
    line: u64,
) -> Result<Pad, Memory>
    requires same { footprint.now.bytes ≡ pad.now.bytes }
    requires few { length known.now.copper ≤ 32 }
    requires line { line ≡ line_of pad.now.bytes pad.now.item.from }
    requires sound { (many : Bool) × (pad_kind (context pad.now.bytes known.now) footprint.now.item pad.now.item many ≡ None) }
    ensures value { IfOk result (λ p. p ≡ pad_of (context pad.now.bytes known.now) footprint.now.item pad.now.item) }
    ensures core { IfOk result (λ p. IsPad p.shape.core) }
    ensures centre { IfOk result (λ p. InCore p.shape.core (grid_point (double p.at.x) (double p.at.y))) }
{
    let at = pad_place(alloc, footprint, pad)?;
    Ok(Pad {
        shape: copper_at(alloc, pad, at)?,
        at,
        layers: layers_of(alloc, known, pad)?,
        net: pad.whole_in(alloc, b"net")?,
        kind: kind_of(alloc, pad)?,
        clearance: clearance_of(alloc, footprint, pad)?,
        join: join_of(alloc, footprint, pad)?,
        gap: gap_of(alloc, footprint, pad)?,
        bridge: bridge_of(alloc, footprint, pad)?,
        line,
    })
}
