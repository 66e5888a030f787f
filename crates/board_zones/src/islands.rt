// Which islands of a zone stay: by its mode, and where that says so by the area of the least that stays.
ghost use Rattle.std.specs.Prelude.{◌≡◌, option_map, IfOk};
ghost use Rattle.sexpr_text.specs.Parts.{part_of};
ghost use Rattle.board_text.specs.Numbers.{area_fault_at, is_short};
ghost use Rattle.board_language.specs.Zones.{island_area_in, island_area_list, islands_by, islands_in, mode_in};

use board_language::IslandMode;
use board_text::{Part, area_number};
use grid_num::{Memory, NumFault};
use std::alloc::Global;

/// The area that counts where none is given: 10 square millimetres, in millionths of one.
const ABSENT_AREA: u64 = 10_000_000;

/// How islands are removed: 0 always, 1 never, 2 below an area; always where nothing is said.
fn mode_in(alloc: Global, zone: &Part<'_>) -> Result<u32, Memory>
    ensures { IfOk result (λ n. n ≡ mode_in zone.now.bytes zone.now.item) }
{
    match zone.list_in(b"fill", b"island_removal_mode") {
        Some(list) => list.whole_at(alloc, 0),
        None => Ok(0),
    }
}

/// The list that gives the area of the least island that stays, where it is read.
fn island_area_list<'a>(alloc: Global, zone: &Part<'a>) -> Result<Option<Part<'a>>, Memory>
    ensures { IfOk result (λ list. list ≡ option_map (part_of zone.now.bytes) (island_area_list zone.now.bytes zone.now.item)) }
{
    let mode = mode_in(alloc, zone)?;
    if mode == 2 {
        Ok(zone.list_in(b"fill", b"island_area_min"))
    } else {
        Ok(None)
    }
}

/// What is wrong with that area.
///
/// # Errors
///
/// Want of memory.
pub fn island_area_fault(alloc: Global, zone: &Part<'_>) -> Result<Option<NumFault>, Memory>
    ensures { IfOk result (λ f. f ≡ area_fault_at zone.now.bytes 0 (island_area_list zone.now.bytes zone.now.item)) }
{
    match island_area_list(alloc, zone)? {
        Some(list) => list.area_fault_at(alloc, 0),
        None => Ok(None),
    }
}

/// Whether its list is read, with nothing behind its head.
///
/// # Errors
///
/// Want of memory.
pub fn is_bare_island_area(alloc: Global, zone: &Part<'_>) -> Result<bool, Memory>
    ensures { IfOk result (λ yes. yes ≡ is_short 1 (island_area_list zone.now.bytes zone.now.item)) }
{
    match island_area_list(alloc, zone)? {
        Some(list) => Ok(list.is_short(1)),
        None => Ok(false),
    }
}

/// That area, in millionths of a square millimetre; 10 square millimetres where none is given.
fn island_area_in(alloc: Global, zone: &Part<'_>) -> Result<u64, Memory>
    ensures { IfOk result (λ n. n ≡ island_area_in zone.now.bytes zone.now.item) }
{
    let Some(list) = island_area_list(alloc, zone)? else {
        return Ok(ABSENT_AREA);
    };
    match list.text_at(alloc, 0)? {
        Some(text) => Ok(area_number(&text)),
        None => Ok(ABSENT_AREA),
    }
}

/// Which islands stay, by the mode and the area.
fn islands_by(mode: u32, area: u64) -> IslandMode
    ensures { result ≡ islands_by mode area }
{
    match mode {
        0 => IslandMode::Remove,
        1 => IslandMode::Keep,
        _ => IslandMode::Below(area),
    }
}

/// Which islands stay.
///
/// # Errors
///
/// Want of memory.
#[tactic(auto, unfolding(board_language::specs::Zones::islands_in))]
pub fn islands_in(alloc: Global, zone: &Part<'_>) -> Result<IslandMode, Memory>
    ensures { IfOk result (λ mode. mode ≡ islands_in zone.now.bytes zone.now.item) }
{
    let mode = mode_in(alloc, zone)?;
    let area = island_area_in(alloc, zone)?;
    Ok(islands_by(mode, area))
}
