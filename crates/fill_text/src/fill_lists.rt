// The fills of a zone.
ghost use Rattle.std.specs.Prelude.{◌≡◌, ◌≤◌, [], length, codes, IfOk, IfErr};
ghost use Rattle.std.specs.List.{All};
ghost use Rattle.sexpr_text.specs.Items.{is_headed};
ghost use Rattle.rings.specs.Rings.{IsRingInRange};
ghost use Rattle.fill_text.specs.FillLists.{is_bad, is_fill_on, bad_among, names_of_set, rings_on};
ghost use Rattle.fill_text.specs.Refused.{IsRefusedFor};

use crate::corners::{has_corners, ring_of};
use crate::error::FillsError;
use crate::fill_layer::{is_on_one_of, layer_of};
use board_language::Name;
use board_text::{Part, is_text};
use grid_num::Memory;
use rings::Ring;
use std::alloc::Global;

// Whether a list of a zone is a fill.
fn is_fill(list: &Part<'_>) -> bool
    ensures { result ≡ is_headed list.now.bytes (codes "filled_polygon") list.now.item }
{
    list.is_headed(b"filled_polygon")
}

// Whether a list of a zone on the layers in the set is a fill that can't be read.
fn is_bad(alloc: Global, layers: &[Name], set: u32, list: &Part<'_>) -> Result<bool, Memory>
    requires { length layers.now ≤ 32 }
    ensures { IfOk result (λ yes. yes ≡ is_bad list.now.bytes (names_of_set layers.now set) list.now.item) }
{
    if !is_fill(list) {
        return Ok(false);
    }
    let layer = is_on_one_of(alloc, layers, set, list)?;
    let corners = has_corners(alloc, list)?;
    Ok(!(layer && corners))
}

// Whether a list is a fill on the layer of this name.
fn is_fill_on(alloc: Global, name: &[u8], list: &Part<'_>) -> Result<bool, Memory>
    ensures { IfOk result (λ yes. yes ≡ is_fill_on list.now.bytes name.now list.now.item) }
{
    if !is_fill(list) {
        return Ok(false);
    }
    let layer = layer_of(alloc, list)?;
    Ok(is_text(&layer, name))
}

/// Tries the fills of a zone on the layers in the set.
///
/// # Errors
///
/// Want of memory, or the first fill that can't be read.
pub fn try_zone(alloc: Global, layers: &[Name], set: u32, zone: &Part<'_>) -> Result<(), FillsError>
    requires { length layers.now ≤ 32 }
    ensures read { IfOk result (λ _. bad_among zone.now.bytes (names_of_set layers.now set) zone.now.item ≡ []) }
    ensures bad { IfErr result (IsRefusedFor (bad_among zone.now.bytes (names_of_set layers.now set) zone.now.item)) }
{
    'each: for place in 0..zone.len() {
        let list = zone.child(place);
        if is_bad(alloc, layers, set, &list)? {
            return Err(FillsError::Bad {
                at: list.span().from,
            });
        }
    }
    Ok(())
}

/// The rings of a zone's fills on the layer of this name.
///
/// # Errors
///
/// Want of memory.
pub fn rings_on(alloc: Global, name: &[u8], zone: &Part<'_>) -> Result<Vec<Ring>, Memory>
    ensures value { IfOk result (λ v. v.items ≡ rings_on zone.now.bytes name.now zone.now.item) }
    ensures range { IfOk result (λ v. All IsRingInRange v.items) }
{
    let mut rings = Vec::new(alloc);
    'each: for place in 0..zone.len() {
        let list = zone.child(place);
        if is_fill_on(alloc, name, &list)? {
            rings.push(ring_of(alloc, &list)?)?;
        }
    }
    Ok(rings)
}
