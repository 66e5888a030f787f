// The numbers of a zone that can't be read, or that lack or are out of their range.
ghost use Rattle.std.specs.Prelude.{◌≡◌, ◌||◌, ◌∷◌, [], codes, IfOk};
ghost use Rattle.std.specs.List.{list_any};
ghost use Rattle.board_text.specs.Numbers.{first_of, is_short, has_short};
ghost use Rattle.board_text.specs.Items.{is_no_length};
ghost use Rattle.board_language.specs.Zones.{zone_fault, clearance_list, gap_list, bridge_list, mode_list, island_area_list};
ghost use Rattle.board_language.specs.Offences.{zone_lacks, zone_is_bad};

use crate::inside::{is_bare_inside, length_fault_inside, whole_fault_inside};
use crate::islands::{is_bare_island_area, island_area_fault};
use crate::outline::{corners_fault, outline_lacks};
use crate::settings::{bridge_in, clearance_in, gap_in, thickness_in};
use board_items::{has_short, is_no_length};
use board_text::{Part, first_of};
use grid_num::{Memory, NumFault};
use std::alloc::Global;

/// The first of a zone's numbers that can't be read.
///
/// # Errors
///
/// Want of memory.
#[tactic(auto, unfolding(board_language::specs::Zones::zone_fault))]
pub fn zone_fault(alloc: Global, zone: &Part<'_>) -> Result<Option<NumFault>, Memory>
    ensures { IfOk result (λ f. f ≡ zone_fault zone.now.bytes zone.now.item) }
{
    let net = zone.whole_fault_in(alloc, b"net")?;
    let priority = zone.whole_fault_in(alloc, b"priority")?;
    let clearance = length_fault_inside(alloc, zone, b"connect_pads", b"clearance")?;
    let thickness = zone.length_fault_in(alloc, b"min_thickness")?;
    let gap = length_fault_inside(alloc, zone, b"fill", b"thermal_gap")?;
    let bridge = length_fault_inside(alloc, zone, b"fill", b"thermal_bridge_width")?;
    let mode = whole_fault_inside(alloc, zone, b"fill", b"island_removal_mode")?;
    let area = island_area_fault(alloc, zone)?;
    let corners = corners_fault(alloc, zone)?;
    Ok(first_of(&[
        net, priority, clearance, thickness, gap, bridge, mode, area, corners,
    ]))
}

fn has_bare_list(zone: &Part<'_>) -> bool
    ensures { result ≡ has_short zone.now.bytes 1 (codes "net" ∷ codes "priority" ∷ codes "min_thickness" ∷ []) zone.now.item }
{
    let names: [&[u8]; 3] = [b"net", b"priority", b"min_thickness"];
    has_short(zone, 1, &names)
}

fn has_bare_setting(alloc: Global, zone: &Part<'_>) -> Result<bool, Memory>
    ensures { IfOk result (λ yes. yes ≡ list_any (is_short 1) (clearance_list zone.now.bytes zone.now.item ∷ gap_list zone.now.bytes zone.now.item ∷ bridge_list zone.now.bytes zone.now.item ∷ mode_list zone.now.bytes zone.now.item ∷ island_area_list zone.now.bytes zone.now.item ∷ [])) }
{
    let area = is_bare_island_area(alloc, zone)?;
    Ok(
        is_bare_inside(zone, b"connect_pads", b"clearance")
            || is_bare_inside(zone, b"fill", b"thermal_gap")
            || is_bare_inside(zone, b"fill", b"thermal_bridge_width")
            || is_bare_inside(zone, b"fill", b"island_removal_mode")
            || area,
    )
}

/// Whether a zone lacks a part.
///
/// # Errors
///
/// Want of memory.
pub fn zone_lacks(alloc: Global, zone: &Part<'_>) -> Result<bool, Memory>
    ensures { IfOk result (λ yes. yes ≡ zone_lacks zone.now.bytes zone.now.item) }
{
    let lacks = outline_lacks(alloc, zone)?;
    let bare = has_bare_setting(alloc, zone)?;
    Ok(lacks || has_bare_list(zone) || bare)
}

/// Whether one of a zone's lengths is negative or above 100 mm.
///
/// # Errors
///
/// Want of memory.
pub fn zone_is_bad(alloc: Global, zone: &Part<'_>) -> Result<bool, Memory>
    ensures { IfOk result (λ yes. yes ≡ zone_is_bad zone.now.bytes zone.now.item) }
{
    let clearance = clearance_in(alloc, zone)?;
    let thickness = thickness_in(alloc, zone)?;
    let gap = gap_in(alloc, zone)?;
    let bridge = bridge_in(alloc, zone)?;
    Ok(
        is_no_length(clearance)
            || is_no_length(thickness)
            || is_no_length(gap)
            || is_no_length(bridge),
    )
}
