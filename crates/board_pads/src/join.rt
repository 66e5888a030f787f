// How a pad is joined: what it says for itself, and what its footprint says for it.
ghost use Rattle.std.specs.Prelude.{◌≡◌, ℤ, option_map, unwrap_or, codes, Some, IfOk};
ghost use Rattle.std.specs.Option.{option_or};
ghost use Rattle.grid_num.specs.Length.{IsInRange};
ghost use Rattle.board_text.specs.Fields.{list_of};
ghost use Rattle.board_text.specs.Numbers.{length_at, value_at, whole_number};
ghost use Rattle.board_language.specs.Pads.{bridge_list, join_by_number, own_join, own_length, some_length};

use crate::bridge::bridge_width;
use crate::given::ReadFootprint;
use board_items::size_of;
use board_language::Join;
use board_text::Part;
use grid_num::Memory;
use std::alloc::Global;

/// A length of 0 counts as absent.
fn some_length(nm: i64) -> Option<u32>
    requires { IsInRange nm }
    ensures { result ≡ some_length nm }
{
    let size = size_of(nm);
    if size == 0 { None } else { Some(size) }
}

/// The length that an item gives, where it is above 0.
///
/// # Errors
///
/// Want of memory.
pub fn own_length(alloc: Global, item: &Part<'_>, name: &[u8]) -> Result<Option<u32>, Memory>
    ensures { IfOk result (λ n. n ≡ own_length item.now.bytes name.now item.now.item) }
{
    let length = item.length_in(alloc, name)?;
    Ok(some_length(length))
}

fn join_by_number(number: u32) -> Join
    ensures { result ≡ join_by_number number }
{
    match number {
        0 => Join::Apart,
        1 => Join::Thermal,
        2 => Join::Solid,
        _ => Join::PlatedThermal,
    }
}

/// What an item says of how its pads are joined.
///
/// # Errors
///
/// Want of memory.
pub fn own_join(alloc: Global, item: &Part<'_>) -> Result<Option<Join>, Memory>
    ensures { IfOk result (λ j. j ≡ own_join item.now.bytes item.now.item) }
{
    match item.list(b"zone_connect") {
        Some(list) => {
            let number = list.whole_at(alloc, 0)?;
            Ok(Some(join_by_number(number)))
        }
        None => Ok(None),
    }
}

/// The first length, or the second where there is none.
fn length_or(own: Option<u32>, other: Option<u32>) -> Option<u32>
    ensures { result ≡ option_or own other }
{
    match own {
        Some(length) => Some(length),
        None => other,
    }
}

/// The clearance that a pad gives, or its footprint; 0 where neither does.
///
/// # Errors
///
/// Want of memory.
pub fn clearance_of(
    alloc: Global,
    footprint: &ReadFootprint<'_, '_>,
    pad: &Part<'_>,
) -> Result<u32, Memory>
    ensures { IfOk result (λ n. n ≡ unwrap_or (option_or (own_length pad.now.bytes (codes "clearance") pad.now.item) (own_length footprint.now.bytes (codes "clearance") footprint.now.item)) 0) }
{
    let own = own_length(alloc, pad, b"clearance")?;
    let length = length_or(own, footprint.clearance());
    Ok(length.unwrap_or(0))
}

/// The gap of thermal reliefs that a pad gives, or its footprint.
///
/// # Errors
///
/// Want of memory.
pub fn gap_of(
    alloc: Global,
    footprint: &ReadFootprint<'_, '_>,
    pad: &Part<'_>,
) -> Result<Option<u32>, Memory>
    ensures { IfOk result (λ n. n ≡ option_or (own_length pad.now.bytes (codes "thermal_gap") pad.now.item) (own_length footprint.now.bytes (codes "thermal_gap") footprint.now.item)) }
{
    let own = own_length(alloc, pad, b"thermal_gap")?;
    Ok(length_or(own, footprint.gap()))
}

/// The width of bridges that a pad gives, or its footprint.
///
/// # Errors
///
/// Want of memory.
pub fn bridge_of(
    alloc: Global,
    footprint: &ReadFootprint<'_, '_>,
    pad: &Part<'_>,
) -> Result<Option<u32>, Memory>
    ensures { IfOk result (λ n. n ≡ option_or (some_length (length_at pad.now.bytes 0 (bridge_list pad.now.bytes pad.now.item))) (own_length footprint.now.bytes (codes "thermal_width") footprint.now.item)) }
{
    let own = bridge_width(alloc, pad)?;
    Ok(length_or(some_length(own), footprint.bridge()))
}

/// How a pad is joined, by its own word or its footprint's.
///
/// # Errors
///
/// Want of memory.
pub fn join_of(
    alloc: Global,
    footprint: &ReadFootprint<'_, '_>,
    pad: &Part<'_>,
) -> Result<Option<Join>, Memory>
    ensures { IfOk result (λ j. j ≡ option_or (own_join pad.now.bytes pad.now.item) (own_join footprint.now.bytes footprint.now.item)) }
{
    let own = own_join(alloc, pad)?;
    if own.is_some() {
        return Ok(own);
    }
    Ok(footprint.join())
}
