// The layers that a board declares, and those that a via goes through.
ghost use Rattle.std.specs.Prelude.{◌≡◌, ℕ, ◌+◌, ◌*◌, ◌^◌, ◌<◌, ◌≤◌, ◌&&◌, ◌||◌, ◌∷◌, [], not, nat_le, nat_lt, cond, is_none, length, map, filter, filter_map, option_map, codes, Some, None, IfOk};
ghost use Rattle.std.specs.List.{list_any};
ghost use Rattle.sexpr_text.specs.Parts.{part_of};
ghost use Rattle.board_text.specs.Layers.{bits, between_from, copper_layers, has_double, is_between, is_copper, is_layer, layers_between, layers_in, name_of_layer, layer_fault, layer_names_in};
ghost use Rattle.board_text.specs.Numbers.{first_of};
ghost use Rattle.board_items.specs.Known.{context};

use crate::layer_lists::bit;
use crate::layers::is_copper;
use crate::seen::Seen;
use crate::{Known, LayerNames};
use board_text::Part;
use grid_num::{Memory, NumFault};
use sexpr_text::NodeKind;
use std::alloc::Global;

/// Whether n is one of the two numbers, or between them, in either order.
pub fn is_between(a: usize, b: usize, n: usize) -> bool
    ensures { result ≡ is_between a b n }
{
    (a <= n && n <= b) || (b <= n && n <= a)
}

/// Of so many layers, the set of those between two numbers, the first layer as the lowest bit.
fn set_between(a: usize, b: usize, count: usize) -> u32
    requires few { count ≤ 32 }
    ensures { result ≡ bits (between_from a b 0 count) }
{
    let mut set = 0;
    'each: for step in 0..count {
        set = 2 * set + bit(is_between(a, b, count - 1 - step));
    }
    set
}

/// The set of all copper layers from the one to the other, both counted in, of a board with at most 32 of them. Each name
/// stands for itself alone.
#[tactic(auto, unfolding(board_text::specs::Layers::layers_between))]
pub fn layers_between(copper: &LayerNames, top: &[u8], bottom: &[u8]) -> u32
    requires few { length copper.now ≤ 32 }
    ensures { result ≡ layers_between copper.now top.now bottom.now }
{
    let first = copper.number(top) as usize;
    let last = copper.number(bottom) as usize;
    set_between(first, last, copper.len())
}

/// Whether an item of `layers` stands for a layer: a list, or a string, which is a layer without a name.
pub fn is_layer(item: &Part<'_>) -> bool
    ensures { result ≡ is_layer item.now.item }
{
    match item.kind() {
        NodeKind::List => true,
        NodeKind::Text => true,
        NodeKind::Word => false,
    }
}

/// The name of a layer, where it has one.
///
/// # Errors
///
/// Want of memory.
pub fn name_of_layer(alloc: Global, layer: &Part<'_>) -> Result<Option<Vec<u8>>, Memory>
    ensures { IfOk result (λ n. option_map (λ v. v.items) n ≡ name_of_layer layer.now.bytes layer.now.item) }
{
    if layer.is_list() {
        layer.text_at(alloc, 0)
    } else {
        Ok(None)
    }
}

/// What is wrong with the number of a layer, the first item of its list.
///
/// # Errors
///
/// Want of memory.
pub fn layer_fault(alloc: Global, layer: &Part<'_>) -> Result<Option<NumFault>, Memory>
    ensures { IfOk result (λ f. f ≡ layer_fault layer.now.bytes layer.now.item) }
{
    if layer.len() == 0 {
        return Ok(None);
    }
    layer.child(0).whole_fault(alloc)
}

/// The items of `layers` that stand for layers, in order.
///
/// # Errors
///
/// Want of memory.
pub fn layers_in<'a>(alloc: Global, item: &Part<'a>) -> Result<Vec<Part<'a>>, Memory>
    ensures { IfOk result (λ v. v.items ≡ map (part_of item.now.bytes) (layers_in item.now.item)) }
{
    let mut layers = Vec::new(alloc);
    'each: for place in 1..item.len() {
        let layer = item.child(place);
        if is_layer(&layer) {
            layers.push(layer)?;
        }
    }
    Ok(layers)
}

/// Whether one of the layers has no name.
///
/// # Errors
///
/// Want of memory.
pub fn lacks_name(alloc: Global, layers: &[Part<'_>]) -> Result<bool, Memory>
    ensures { IfOk result (λ yes. yes ≡ list_any (λ layer. is_none (name_of_layer layer.bytes layer.item)) layers.now) }
{
    'each: for layer in layers {
        let name = name_of_layer(alloc, layer)?;
        if name.is_none() {
            return Ok(true);
        }
    }
    Ok(false)
}

/// The first of the layers' numbers that can't be read.
///
/// # Errors
///
/// Want of memory.
pub fn layers_fault(alloc: Global, layers: &[Part<'_>]) -> Result<Option<NumFault>, Memory>
    ensures { IfOk result (λ f. f ≡ first_of (map (λ layer. layer_fault layer.bytes layer.item) layers.now)) }
{
    'each: for layer in layers {
        let fault = layer_fault(alloc, layer)?;
        if fault.is_some() {
            return Ok(fault);
        }
    }
    Ok(None)
}

/// The names of the layers that have one, in order.
///
/// # Errors
///
/// Want of memory.
pub fn names_of_layers(alloc: Global, layers: &[Part<'_>]) -> Result<Vec<Vec<u8>>, Memory>
    ensures { IfOk result (λ v. map (λ t. t.items) v.items ≡ filter_map (λ layer. name_of_layer layer.bytes layer.item) layers.now) }
{
    let mut names = Vec::new(alloc);
    'each: for layer in layers {
        if let Some(name) = name_of_layer(alloc, layer)? {
            names.push(name)?;
        }
    }
    Ok(names)
}

fn copy_of(alloc: Global, name: &[u8]) -> Result<Vec<u8>, Memory>
    ensures { IfOk result (λ copy. copy.items ≡ name.now) }
{
    Ok(name.to_vec(alloc)?)
}

/// Whether a name stands twice.
///
/// # Errors
///
/// Want of memory.
pub fn has_double(alloc: Global, names: &[Vec<u8>]) -> Result<bool, Memory>
    ensures { IfOk result (λ yes. yes ≡ has_double (map (λ t. t.items) names.now)) }
{
    let mut behind = Seen::new(alloc);
    'each: for step in 0..names.len() {
        let name = &names[names.len() - 1 - step];
        let new = behind.put(copy_of(alloc, name.as_slice())?)?;
        if !new {
            return Ok(true);
        }
    }
    Ok(false)
}

/// Those of the names that are of copper, in order.
///
/// # Errors
///
/// Want of memory.
pub fn copper_among(alloc: Global, names: &[Vec<u8>]) -> Result<LayerNames, Memory>
    ensures { IfOk result (λ c. c ≡ filter is_copper (map (λ t. t.items) names.now)) }
{
    let mut copper = LayerNames::new(alloc);
    'each: for name in names {
        if is_copper(name.as_slice()) {
            copper.push(name.as_slice().to_vec(alloc)?)?;
        }
    }
    Ok(copper)
}

/// The copper layers that a `layers` declares, in order.
fn copper_in(alloc: Global, item: &Part<'_>) -> Result<LayerNames, Memory>
    ensures { IfOk result (λ c. c ≡ filter is_copper (layer_names_in item.now.bytes item.now.item)) }
{
    let layers = layers_in(alloc, item)?;
    let names = names_of_layers(alloc, &layers)?;
    copper_among(alloc, &names)
}

/// The copper layers of a board, in its order. A layer's number is its place among these.
///
/// # Errors
///
/// Want of memory.
#[tactic(auto, unfolding(board_text::specs::Layers::copper_layers))]
pub fn copper_names(alloc: Global, board: &Part<'_>) -> Result<LayerNames, Memory>
    ensures { IfOk result (λ c. c ≡ copper_layers board.now.bytes board.now.item) }
{
    match board.list(b"layers") {
        Some(item) => copper_in(alloc, &item),
        None => Ok(LayerNames::new(alloc)),
    }
}
