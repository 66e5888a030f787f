// What is read of zones and rule areas.
ghost use Rattle.std.specs.Prelude.{◌≡◌, ◌≤◌, length, IfOk};
ghost use Rattle.board_text.specs.Items.{line_of};
ghost use Rattle.board_language.specs.Zones.{area_of, zone_of};
ghost use Rattle.board_items.specs.Known.{context};
ghost use Rattle.board_zones.specs.Kinds.{IsAreaWithoutOffence, IsZoneWithoutOffence};

use crate::islands::islands_in;
use crate::outline::outline_of;
use crate::read::layers_of;
use crate::settings::{bridge_of, clearance_of, gap_of, join_in, thickness_of};
use crate::spans::spans_of;
use board_items::Known;
use board_language::{Area, Zone};
use board_text::Part;
use grid_num::Memory;
use std::alloc::Global;

/// The zone that is read of an item on this line, in which nothing offends, of a board with at most 32 copper layers.
///
/// # Errors
///
/// Want of memory.
#[tactic(auto, unfolding(board_language::specs::Zones::zone_of))]
pub fn zone_of(alloc: Global, known: &Known, zone: &Part<'_>, line: u64) -> Result<Zone, Memory>
    requires few { length known.now.copper ≤ 32 }
    requires line { line ≡ line_of zone.now.bytes zone.now.item.from }
    requires sound { IsZoneWithoutOffence (context zone.now.bytes known.now) zone.now.item }
    ensures { IfOk result (λ z. z ≡ zone_of (context zone.now.bytes known.now) zone.now.item) }
{
    let clearance = clearance_of(alloc, zone)?;
    let thickness = thickness_of(alloc, zone)?;
    let gap = gap_of(alloc, zone)?;
    let bridge = bridge_of(alloc, zone)?;
    let islands = islands_in(alloc, zone)?;
    Ok(Zone {
        outline: outline_of(alloc, zone)?,
        layers: layers_of(alloc, known, zone)?,
        net: zone.whole_in(alloc, b"net")?,
        priority: zone.whole_in(alloc, b"priority")?,
        join: join_in(alloc, zone)?,
        clearance,
        thickness,
        gap,
        bridge,
        islands,
        spans: spans_of(alloc, zone)?,
        span: zone.span(),
        line,
    })
}

/// The rule area that is read of an item in which nothing offends, of a board with at most 32 copper layers.
///
/// # Errors
///
/// Want of memory.
#[tactic(auto, unfolding(board_language::specs::Zones::area_of))]
pub fn area_of(alloc: Global, known: &Known, zone: &Part<'_>) -> Result<Area, Memory>
    requires few { length known.now.copper ≤ 32 }
    requires sound { IsAreaWithoutOffence (context zone.now.bytes known.now) zone.now.item }
    ensures { IfOk result (λ a. a ≡ area_of (context zone.now.bytes known.now) zone.now.item) }
{
    Ok(Area {
        outline: outline_of(alloc, zone)?,
        layers: layers_of(alloc, known, zone)?,
    })
}
