// The layer of a fill.
ghost use Rattle.std.specs.Prelude.{◌≡◌, ◌≤◌, ◌<◌, ◌&&◌, [], length, get_or, option_map, IfOk};
ghost use Rattle.std.specs.Str.{bytes_eq};
ghost use Rattle.board_text.specs.Layers.{is_among};
ghost use Rattle.board_language.specs.Copper.{has_layer};
ghost use Rattle.fill_text.specs.FillLists.{layer_of, is_some_name, names_of_set};

use board_language::Name;
use board_text::Part;
use grid_num::Memory;
use knockouts::has_layer;
use std::alloc::Global;

/// The layer that a fill names.
///
/// # Errors
///
/// Want of memory.
pub fn layer_of(alloc: Global, fill: &Part<'_>) -> Result<Option<Vec<u8>>, Memory>
    ensures { IfOk result (λ name. option_map (λ v. v.items) name ≡ layer_of fill.now.bytes fill.now.item) }
{
    match fill.list(b"layer") {
        Some(list) => list.text_at(alloc, 0),
        None => Ok(None),
    }
}

// Whether the layer is in the set, and this is its name.
fn is_named(layers: &[Name], set: u32, layer: u8, name: &[u8]) -> bool
    requires few { layer < 32 }
    requires there { layer < length layers.now }
    ensures { result ≡ (has_layer set layer && bytes_eq (get_or layers.now layer []) name.now) }
{
    let own = layers[usize::from(layer)].bytes() == name;
    has_layer(set, layer) && own
}

// Whether this is the name of one of the layers in the set.
fn is_among(layers: &[Name], set: u32, name: &[u8]) -> bool
    requires { length layers.now ≤ 32 }
    ensures { result ≡ is_among (names_of_set layers.now set) name.now }
{
    let mut found = false;
    'each: for layer in 0..layers.len() as u8 {
        let named = is_named(layers, set, layer, name);
        found = found || named;
    }
    found
}

/// Whether the layer that a fill names is one of those in the set.
///
/// # Errors
///
/// Want of memory.
pub fn is_on_one_of(
    alloc: Global,
    layers: &[Name],
    set: u32,
    fill: &Part<'_>,
) -> Result<bool, Memory>
    requires { length layers.now ≤ 32 }
    ensures { IfOk result (λ yes. yes ≡ is_some_name (names_of_set layers.now set) (layer_of fill.now.bytes fill.now.item)) }
{
    match layer_of(alloc, fill)? {
        Some(name) => Ok(is_among(layers, set, &name)),
        None => Ok(false),
    }
}
