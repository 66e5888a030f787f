// Lengths in units, and how far copper of a zone stays away.
ghost use Rattle.std.specs.Prelude.{◌≡◌, ◌+◌, ◌/◌, ◌≤◌, ◌^◌};
ghost use Rattle.fill_rules.specs.Tasks.{settings_of};
ghost use Rattle.fill_rules.specs.Needs.{is_foreign, units, item_need, zone_need, edge_need};
ghost use Rattle.fill_rules.specs.Reliefs.{brush_radius};

use board_language::Zone;
use board_model::Board;

/// Nanometres as a distance in units, rounded up.
pub fn units(nanometres: u32) -> u32
    ensures value { result ≡ units nanometres }
    ensures most { result ≤ 2 ^ 31 }
{
    nanometres.div_ceil(2)
}

/// Half of a width in nanometres, in units, rounded up.
pub fn half_units(width: u32) -> u32
    ensures value { result ≡ (width + 3) / 4 }
    ensures most { result ≤ 2 ^ 30 }
{
    width.div_ceil(4)
}

/// Whether copper of the one net is foreign to copper of the other; copper without a net is foreign to all.
pub fn is_foreign(net: u32, other: u32) -> bool
    ensures { result ≡ is_foreign net other }
{
    net != other || net == 0
}

/// How far copper of the zone stays from an item with a clearance of its own, in units.
pub fn item_need(board: &Board, zone: &Zone, own: u32) -> u32
    ensures value { result ≡ item_need board.now.board (settings_of zone.now) own }
    ensures most { result ≤ 2 ^ 31 }
{
    let rules = board.rules();
    units(zone.clearance.max(own).max(rules.floor))
}

/// How far copper of the one zone stays from copper of the other, in units.
pub fn zone_need(board: &Board, upper: &Zone, lower: &Zone) -> u32
    ensures value { result ≡ zone_need board.now.board (settings_of upper.now) (settings_of lower.now) }
    ensures least { 1 ≤ result }
    ensures most { result ≤ 2 ^ 31 }
{
    let rules = board.rules();
    units(upper.clearance.max(lower.clearance).max(rules.floor))
}

/// How far copper stays from the board's edge, in units.
pub fn edge_need(board: &Board) -> u32
    ensures value { result ≡ edge_need board.now.board }
    ensures most { result ≤ 2 ^ 31 }
{
    let rules = board.rules();
    units(rules.edge)
}

/// How far the zone's brush reaches, in units.
pub fn brush_radius(zone: &Zone) -> u32
    ensures value { result ≡ brush_radius (settings_of zone.now) }
    ensures most { result ≤ 2 ^ 30 }
{
    half_units(zone.thickness)
}
