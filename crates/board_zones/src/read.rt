// Which zones and rule areas are read, and their layers.
ghost use Rattle.std.specs.Prelude.{◌≡◌, ◌≤◌, length, IfOk};
ghost use Rattle.board_text.specs.Layers.{has_unknown, layer_set};
ghost use Rattle.board_language.specs.Zones.{is_read_area, is_read_zone, keeps_copper_out, layer_list};
ghost use Rattle.board_items.specs.Known.{context};

use crate::inside::says_inside;
use crate::lists::layer_list;
use board_items::{Known, has_copper, has_unknown, layer_set, no_layers_law};
use board_text::Part;
use grid_num::Memory;
use std::alloc::Global;

/// Whether a zone is read: it has a copper layer.
///
/// # Errors
///
/// Want of memory.
pub fn is_read_zone(alloc: Global, known: &Known, zone: &Part<'_>) -> Result<bool, Memory>
    ensures { IfOk result (λ yes. yes ≡ is_read_zone (context zone.now.bytes known.now) zone.now.item) }
{
    match layer_list(zone) {
        Some(list) => has_copper(alloc, known, &list),
        None => Ok(false),
    }
}

fn keeps_copper_out(alloc: Global, zone: &Part<'_>) -> Result<bool, Memory>
    ensures { IfOk result (λ yes. yes ≡ keeps_copper_out zone.now.bytes zone.now.item) }
{
    says_inside(alloc, zone, b"keepout", b"copperpour", b"not_allowed")
}

/// Whether a rule area is read: it keeps copper pour out, and has a copper layer.
///
/// # Errors
///
/// Want of memory.
pub fn is_read_area(alloc: Global, known: &Known, zone: &Part<'_>) -> Result<bool, Memory>
    ensures { IfOk result (λ yes. yes ≡ is_read_area (context zone.now.bytes known.now) zone.now.item) }
{
    let keeps_out = keeps_copper_out(alloc, zone)?;
    let read = is_read_zone(alloc, known, zone)?;
    Ok(keeps_out && read)
}

/// Whether a zone or rule area names a copper layer that isn't declared.
///
/// # Errors
///
/// Want of memory.
pub fn has_unknown_layer(alloc: Global, known: &Known, zone: &Part<'_>) -> Result<bool, Memory>
    ensures { IfOk result (λ yes. yes ≡ has_unknown zone.now.bytes known.now.copper (layer_list zone.now.bytes zone.now.item)) }
{
    match layer_list(zone) {
        Some(list) => has_unknown(alloc, known, &list),
        None => Ok(false),
    }
}

/// The set of the copper layers of a zone or rule area, on a board with at most 32 of them.
///
/// # Errors
///
/// Want of memory.
pub fn layers_of(alloc: Global, known: &Known, zone: &Part<'_>) -> Result<u32, Memory>
    requires few { length known.now.copper ≤ 32 }
    ensures { IfOk result (λ set. set ≡ layer_set zone.now.bytes known.now.copper (layer_list zone.now.bytes zone.now.item)) }
{
    no_layers_law();
    match layer_list(zone) {
        Some(list) => layer_set(alloc, known, &list),
        None => Ok(0),
    }
}
