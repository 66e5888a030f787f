// The lists of a zone that are found by their heads.
ghost use Rattle.std.specs.Prelude.{◌≡◌, ◌||◌, length, map, codes, option_map, IfOk};
ghost use Rattle.sexpr_text.specs.Items.{is_headed};
ghost use Rattle.board_text.specs.Lists.{headed};
ghost use Rattle.sexpr_text.specs.Parts.{part_of};
ghost use Rattle.board_language.specs.Zones.{layer_list, corner_lists};

use board_text::Part;
use grid_num::Memory;
use std::alloc::Global;

fn is_layer_list(list: &Part<'_>) -> bool
    ensures { result ≡ (is_headed list.now.bytes (codes "layer") list.now.item || is_headed list.now.bytes (codes "layers") list.now.item) }
{
    list.is_headed(b"layer") || list.is_headed(b"layers")
}

/// The list of a zone's layers: the first that is a `layer` or a `layers`.
pub fn layer_list<'a>(zone: &Part<'a>) -> Option<Part<'a>>
    ensures { result ≡ option_map (part_of zone.now.bytes) (layer_list zone.now.bytes zone.now.item) }
{
    'each: for place in 0..zone.len() {
        let child = zone.child(place);
        if child.is_list() && is_layer_list(&child) {
            return Some(child);
        }
    }
    None
}

/// How many lists with this head stand in an item.
pub fn count_headed(item: &Part<'_>, name: &[u8]) -> usize
    ensures { result ≡ length (headed item.now.bytes name.now item.now.item) }
{
    let mut count = 0;
    'each: for place in 0..item.len() {
        if item.child(place).is_headed(name) {
            count += 1;
        }
    }
    count
}

/// The lists among the points of a zone's outline.
///
/// # Errors
///
/// Want of memory.
pub fn corner_lists<'a>(alloc: Global, zone: &Part<'a>) -> Result<Vec<Part<'a>>, Memory>
    ensures { IfOk result (λ v. v.items ≡ map (part_of zone.now.bytes) (corner_lists zone.now.bytes zone.now.item)) }
{
    match zone.list_in(b"polygon", b"pts") {
        Some(list) => list.lists(alloc),
        None => Ok(Vec::new(alloc)),
    }
}
