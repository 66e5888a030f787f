// The width of a pad's bridges: of its two lists for it the first counts.
ghost use Rattle.std.specs.Prelude.{◌≡◌, ◌&&◌, ◌||◌, option_map, codes, IfOk};
ghost use Rattle.grid_num.specs.Length.{IsInRange};
ghost use Rattle.board_text.specs.Lists.{is_list};
ghost use Rattle.sexpr_text.specs.Parts.{part_of};
ghost use Rattle.sexpr_text.specs.Items.{is_headed};
ghost use Rattle.board_text.specs.Numbers.{is_short, length_at, length_fault_at};
ghost use Rattle.board_text.specs.Items.{is_bad_length};
ghost use Rattle.board_language.specs.Pads.{bridge_list};

use board_items::is_no_length;
use board_text::Part;
use grid_num::{Memory, NumFault};
use std::alloc::Global;

fn is_for_bridges(item: &Part<'_>) -> bool
    ensures { result ≡ (is_list item.now.item && (is_headed item.now.bytes (codes "thermal_bridge_width") item.now.item || is_headed item.now.bytes (codes "thermal_width") item.now.item)) }
{
    item.is_list() && (item.is_headed(b"thermal_bridge_width") || item.is_headed(b"thermal_width"))
}

/// The list for the width of a pad's bridges.
fn bridge_list<'a>(pad: &Part<'a>) -> Option<Part<'a>>
    ensures { result ≡ option_map (part_of pad.now.bytes) (bridge_list pad.now.bytes pad.now.item) }
{
    'each: for place in 0..pad.len() {
        let child = pad.child(place);
        if is_for_bridges(&child) {
            return Some(child);
        }
    }
    None
}

/// Whether the list is there and empty.
pub fn is_short_bridge(pad: &Part<'_>) -> bool
    ensures { result ≡ is_short 1 (bridge_list pad.now.bytes pad.now.item) }
{
    match bridge_list(pad) {
        Some(list) => list.is_short(1),
        None => false,
    }
}

/// What is wrong with the length.
///
/// # Errors
///
/// Want of memory.
pub fn bridge_fault(alloc: Global, pad: &Part<'_>) -> Result<Option<NumFault>, Memory>
    ensures { IfOk result (λ f. f ≡ length_fault_at pad.now.bytes 0 (bridge_list pad.now.bytes pad.now.item)) }
{
    match bridge_list(pad) {
        Some(list) => list.length_fault_at(alloc, 0),
        None => Ok(None),
    }
}

/// The length, in nanometres; 0 where there is none.
///
/// # Errors
///
/// Want of memory.
pub fn bridge_width(alloc: Global, pad: &Part<'_>) -> Result<i64, Memory>
    ensures value { IfOk result (λ nm. nm ≡ length_at pad.now.bytes 0 (bridge_list pad.now.bytes pad.now.item)) }
    ensures range { IfOk result IsInRange }
{
    match bridge_list(pad) {
        Some(list) => list.length_at(alloc, 0),
        None => Ok(0),
    }
}

/// Whether the length is negative, or above 100 mm.
///
/// # Errors
///
/// Want of memory.
pub fn is_bad_bridge(alloc: Global, pad: &Part<'_>) -> Result<bool, Memory>
    ensures { IfOk result (λ yes. yes ≡ is_bad_length pad.now.bytes (bridge_list pad.now.bytes pad.now.item)) }
{
    let width = bridge_width(alloc, pad)?;
    Ok(is_no_length(width))
}
