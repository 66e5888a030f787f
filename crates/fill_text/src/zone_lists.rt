// The copper zones of a board, as they stand in its text.
ghost use Rattle.std.specs.Prelude.{◌≡◌, map, IfOk};
ghost use Rattle.sexpr_text.specs.Parts.{part_of};
ghost use Rattle.board_items.specs.Known.{context};
ghost use Rattle.fill_text.specs.FillLists.{is_copper_zone, zones_in};

use board_items::{Known, Thing, known_of, thing_on_board};
use board_text::Part;
use board_zones::is_read_zone;
use grid_num::Memory;
use std::alloc::Global;

// Whether a list of the board is a copper zone.
fn is_copper_zone(alloc: Global, known: &Known, list: &Part<'_>) -> Result<bool, Memory>
    ensures { IfOk result (λ yes. yes ≡ is_copper_zone (context list.now.bytes known.now) list.now.item) }
{
    match thing_on_board(list) {
        Thing::Zone => is_read_zone(alloc, known, list),
        Thing::Layers
        | Thing::Net
        | Thing::Track
        | Thing::CurvedTrack
        | Thing::Via
        | Thing::Footprint
        | Thing::RuleArea
        | Thing::Drawing
        | Thing::Other => Ok(false),
    }
}

/// The copper zones of a board, in file order.
///
/// # Errors
///
/// Want of memory.
#[tactic(auto, unfolding(crate::specs::FillLists::zones_in))]
pub fn copper_zones<'a>(alloc: Global, root: &Part<'a>) -> Result<Vec<Part<'a>>, Memory>
    ensures { IfOk result (λ v. v.items ≡ map (part_of root.now.bytes) (zones_in root.now.bytes root.now.item)) }
{
    let known = known_of(alloc, root)?;
    let mut zones = Vec::new(alloc);
    'each: for place in 0..root.len() {
        let list = root.child(place);
        if list.is_list() && is_copper_zone(alloc, &known, &list)? {
            zones.push(list)?;
        }
    }
    Ok(zones)
}
