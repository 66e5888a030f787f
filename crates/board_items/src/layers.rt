// The names of layers in a list of an item.
ghost use Rattle.std.specs.Prelude.{◌≡◌, map, IfOk};
ghost use Rattle.std.specs.List.{list_any};
ghost use Rattle.board_text.specs.Layers.{is_copper, is_drawn_on, is_edge_name, layer_names, name_at};

use board_text::{Part, has_text};
use grid_num::Memory;
use std::alloc::Global;

/// The contents of the names in the list with this head.
///
/// # Errors
///
/// Want of memory.
pub fn layer_names(alloc: Global, item: &Part<'_>, head: &[u8]) -> Result<Vec<Vec<u8>>, Memory>
    ensures { IfOk result (λ v. map (λ t. t.items) v.items ≡ layer_names item.now.bytes head.now item.now.item) }
{
    match item.list(head) {
        Some(list) => list.texts(alloc),
        None => Ok(Vec::new(alloc)),
    }
}

/// The name at a place; the empty one where there is none.
pub fn name_at(names: &[Vec<u8>], place: usize) -> &[u8]
    ensures { result.now ≡ name_at place (map (λ t. t.items) names.now) }
{
    match names.get(place) {
        Some(name) => name.as_slice(),
        None => b"",
    }
}

/// Whether a layer of this name is of copper.
pub fn is_copper(name: &[u8]) -> bool
    ensures { result ≡ is_copper name.now }
{
    name.ends_with(b".Cu")
}

fn has_copper_name(names: &[Vec<u8>]) -> bool
    ensures { result ≡ list_any is_copper (map (λ v. v.items) names.now) }
{
    'each: for name in names {
        if is_copper(name.as_slice()) {
            return true;
        }
    }
    false
}

/// Whether a drawing is on copper.
///
/// # Errors
///
/// Want of memory.
pub fn is_on_copper(alloc: Global, item: &Part<'_>) -> Result<bool, Memory>
    ensures { IfOk result (λ yes. yes ≡ is_drawn_on is_copper item.now.bytes item.now.item) }
{
    let names = layer_names(alloc, item, b"layer")?;
    Ok(has_copper_name(&names))
}

/// Whether a drawing is on `Edge.Cuts`.
///
/// # Errors
///
/// Want of memory.
pub fn is_on_edge(alloc: Global, item: &Part<'_>) -> Result<bool, Memory>
    ensures { IfOk result (λ yes. yes ≡ is_drawn_on is_edge_name item.now.bytes item.now.item) }
{
    let names = layer_names(alloc, item, b"layer")?;
    Ok(has_text(&names, b"Edge.Cuts"))
}
