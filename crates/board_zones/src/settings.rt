// What a zone says of its fill, with what stands for it where it says nothing.
ghost use Rattle.std.specs.Prelude.{◌≡◌, map, codes, IfOk};
ghost use Rattle.grid_num.specs.Length.{IsInRange};
ghost use Rattle.board_text.specs.Fields.{list_of};
ghost use Rattle.board_text.specs.Items.{size_of};
ghost use Rattle.board_language.specs.Zones.{clearance_in, thickness_in, gap_in, bridge_in, join_by_word, first_join, join_in};

use crate::inside::{length_first, length_inside};
use board_items::size_of;
use board_language::Join;
use board_text::Part;
use grid_num::Memory;
use std::alloc::Global;

/// The clearance; none where none is given.
///
/// # Errors
///
/// Want of memory.
pub fn clearance_in(alloc: Global, zone: &Part<'_>) -> Result<i64, Memory>
    ensures value { IfOk result (λ nm. nm ≡ clearance_in zone.now.bytes zone.now.item) }
    ensures range { IfOk result IsInRange }
{
    length_inside(alloc, zone, b"connect_pads", b"clearance", 0)
}

/// The minimum thickness; 0.25 mm where none is given.
///
/// # Errors
///
/// Want of memory.
pub fn thickness_in(alloc: Global, zone: &Part<'_>) -> Result<i64, Memory>
    ensures value { IfOk result (λ nm. nm ≡ thickness_in zone.now.bytes zone.now.item) }
    ensures range { IfOk result IsInRange }
{
    match zone.list(b"min_thickness") {
        Some(list) => length_first(alloc, &list, 250_000),
        None => Ok(250_000),
    }
}

/// The gap of thermal reliefs; 0.5 mm where none is given.
///
/// # Errors
///
/// Want of memory.
pub fn gap_in(alloc: Global, zone: &Part<'_>) -> Result<i64, Memory>
    ensures value { IfOk result (λ nm. nm ≡ gap_in zone.now.bytes zone.now.item) }
    ensures range { IfOk result IsInRange }
{
    length_inside(alloc, zone, b"fill", b"thermal_gap", 500_000)
}

/// The width of the bridges of thermal reliefs; 0.5 mm where none is given.
///
/// # Errors
///
/// Want of memory.
pub fn bridge_in(alloc: Global, zone: &Part<'_>) -> Result<i64, Memory>
    ensures value { IfOk result (λ nm. nm ≡ bridge_in zone.now.bytes zone.now.item) }
    ensures range { IfOk result IsInRange }
{
    length_inside(alloc, zone, b"fill", b"thermal_bridge_width", 500_000)
}

/// The clearance that counts.
///
/// # Errors
///
/// Want of memory.
pub fn clearance_of(alloc: Global, zone: &Part<'_>) -> Result<u32, Memory>
    ensures { IfOk result (λ n. n ≡ size_of (clearance_in zone.now.bytes zone.now.item)) }
{
    let nm = clearance_in(alloc, zone)?;
    Ok(size_of(nm))
}

/// The minimum thickness that counts.
///
/// # Errors
///
/// Want of memory.
pub fn thickness_of(alloc: Global, zone: &Part<'_>) -> Result<u32, Memory>
    ensures { IfOk result (λ n. n ≡ size_of (thickness_in zone.now.bytes zone.now.item)) }
{
    let nm = thickness_in(alloc, zone)?;
    Ok(size_of(nm))
}

/// The gap that counts.
///
/// # Errors
///
/// Want of memory.
pub fn gap_of(alloc: Global, zone: &Part<'_>) -> Result<u32, Memory>
    ensures { IfOk result (λ n. n ≡ size_of (gap_in zone.now.bytes zone.now.item)) }
{
    let nm = gap_in(alloc, zone)?;
    Ok(size_of(nm))
}

/// The width of the bridges that counts.
///
/// # Errors
///
/// Want of memory.
pub fn bridge_of(alloc: Global, zone: &Part<'_>) -> Result<u32, Memory>
    ensures { IfOk result (λ n. n ≡ size_of (bridge_in zone.now.bytes zone.now.item)) }
{
    let nm = bridge_in(alloc, zone)?;
    Ok(size_of(nm))
}

/// How a word of `connect_pads` says that pads are joined.
fn join_by_word(text: &[u8]) -> Option<Join>
    ensures { result ≡ join_by_word text.now }
{
    if text == b"yes".as_slice() || text == b"full".as_slice() {
        return Some(Join::Solid);
    }
    if text == b"no".as_slice() {
        return Some(Join::Apart);
    }
    if text == b"thru_hole_only".as_slice() {
        return Some(Join::PlatedThermal);
    }
    None
}

/// What the first of the words says that says how pads are joined; thermal where none does.
fn first_join(texts: &[Vec<u8>]) -> Join
    ensures { result ≡ first_join (map (λ t. t.items) texts.now) }
{
    'each: for text in texts {
        if let Some(join) = join_by_word(text.as_slice()) {
            return join;
        }
    }
    Join::Thermal
}

/// How pads are joined.
///
/// # Errors
///
/// Want of memory.
pub fn join_in(alloc: Global, zone: &Part<'_>) -> Result<Join, Memory>
    ensures { IfOk result (λ j. j ≡ join_in zone.now.bytes (list_of zone.now.bytes (codes "connect_pads") zone.now.item)) }
{
    match zone.list(b"connect_pads") {
        Some(list) => {
            let texts = list.texts(alloc)?;
            Ok(first_join(&texts))
        }
        None => Ok(Join::Thermal),
    }
}
