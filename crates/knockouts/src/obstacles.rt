// What copper of a task keeps away from.
ghost use Rattle.std.specs.Prelude.{◌≡◌, ◌<◌, ◌≤◌, ◌^◌, ◌++◌, flat_map, map, length, IfOk};
ghost use Rattle.std.specs.List.{All};
ghost use Rattle.std.specs.Arc.{arc_value};
ghost use Rattle.board_language.specs.Copper.{pad_hulls};
ghost use Rattle.board_language.specs.Facts.{IsSoundBoardEdge};
ghost use Rattle.fill_rules.specs.Tasks.{settings_of, task_zone};
ghost use Rattle.fill_rules.specs.Ranking.{IsTask};
ghost use Rattle.fill_rules.specs.Needs.{at_need, track_needs, via_needs, pad_needs, edge_needs, item_needs};
ghost use Rattle.fill_rules.specs.Reliefs.{gap_of, thermal_needs};
ghost use Rattle.fills.specs.Fills.{task_of};
ghost use Rattle.fill_rules.specs.Made.{Made};
ghost use Rattle.fills.specs.Above.{AreFillsAboveTask};
ghost use Rattle.knockouts.specs.Inner.Reach.{IsTrackInReach, IsViaInReach};
ghost use Rattle.knockouts.specs.Obstacles.{need_of, gap_needs, fill_needs, needs_of, IsNeedInRange};

use crate::copper::{track_copper, via_copper};
use crate::lengths::{edge_need, is_foreign, item_need, units, zone_need};
use crate::pads::{is_barred, is_thermal};
use crate::rank::{has_layer, zone_of};
use board_language::{Edge, Pad, Track, Via, Zone};
use board_model::Board;
use copper_shape::edge_hulls;
use fills::{Fill, Task};
use grid_num::Memory;
use octagon::Oct;
use std::alloc::Global;
use std::sync::Arc;

/// An octagon, and how far copper stays away from it, both in units.
#[derive(Clone, Copy, PartialEq, Eq, Debug, Drop)]
pub struct Need {
    pub oct: Oct,
    pub need: u32,
}

// The octagons, all at one need.
fn at_need(alloc: Global, need: u32, hulls: &[Oct]) -> Result<Vec<Need>, Memory>
    ensures { IfOk result (λ v. map need_of v.items ≡ at_need need hulls.now) }
{
    let mut needs = Vec::with_capacity(alloc, hulls.len())?;
    'each: for hull in hulls {
        needs.push(Need { oct: *hull, need })?;
    }
    Ok(needs)
}

// What the zone's copper on the layer keeps away from for the sake of a track.
fn of_track(
    alloc: Global,
    board: &Board,
    zone: &Zone,
    layer: u8,
    track: &Track,
) -> Result<Vec<Need>, Memory>
    requires { IsTrackInReach track.now }
    ensures { IfOk result (λ v. map need_of v.items ≡ track_needs board.now.board (settings_of zone.now) layer track.now) }
{
    if track.layer == layer && is_foreign(zone.net, track.net) {
        let hulls = track_copper(track).hulls(alloc)?;
        return at_need(alloc, item_need(board, zone, 0), &hulls);
    }
    Ok(Vec::new(alloc))
}

// The same of a via.
fn of_via(
    alloc: Global,
    board: &Board,
    zone: &Zone,
    layer: u8,
    via: &Via,
) -> Result<Vec<Need>, Memory>
    requires layer { layer < 32 }
    requires via { IsViaInReach via.now }
    ensures { IfOk result (λ v. map need_of v.items ≡ via_needs board.now.board (settings_of zone.now) layer via.now) }
{
    if has_layer(via.layers, layer) && is_foreign(zone.net, via.net) {
        let hulls = via_copper(via).hulls(alloc)?;
        return at_need(alloc, item_need(board, zone, 0), &hulls);
    }
    Ok(Vec::new(alloc))
}

// The same of a pad or a hole.
fn of_pad(
    alloc: Global,
    board: &Board,
    zone: &Zone,
    layer: u8,
    pad: &Pad,
) -> Result<Vec<Need>, Memory>
    requires { layer < 32 }
    ensures { IfOk result (λ v. map need_of v.items ≡ pad_needs board.now.board (settings_of zone.now) layer pad.now) }
{
    if is_barred(zone, layer, pad) {
        let hulls = pad_hulls(alloc, pad)?;
        return at_need(alloc, item_need(board, zone, pad.clearance), &hulls);
    }
    Ok(Vec::new(alloc))
}

// The same of a piece of the board's edge.
fn of_edge(alloc: Global, board: &Board, edge: &Edge) -> Result<Vec<Need>, Memory>
    requires { IsSoundBoardEdge edge.now }
    ensures { IfOk result (λ v. map need_of v.items ≡ edge_needs board.now.board edge.now) }
{
    let hulls = edge_hulls(alloc, edge)?;
    at_need(alloc, edge_need(board), &hulls)
}

// The gap round a pad that the zone joins by spokes.
fn of_gap(alloc: Global, zone: &Zone, layer: u8, pad: &Pad) -> Result<Vec<Need>, Memory>
    requires { layer < 32 }
    ensures { IfOk result (λ v. map need_of v.items ≡ gap_needs (settings_of zone.now) layer pad.now) }
{
    if is_thermal(zone, layer, pad) {
        let hulls = pad_hulls(alloc, pad)?;
        return at_need(alloc, gap_of(zone, pad), &hulls);
    }
    Ok(Vec::new(alloc))
}

/// The hulls of a pad's copper.
#[tactic(auto, unfolding(board_language::specs::Copper::pad_hulls))]
pub fn pad_hulls(alloc: Global, pad: &Pad) -> Result<Vec<Oct>, Memory>
    ensures { IfOk result (λ v. v.items ≡ pad_hulls pad.now) }
{
    pad.shape.hulls(alloc)
}

/// The gap round a pad with spokes, in units: the pad's, else the zone's, and at least one unit.
pub fn gap_of(zone: &Zone, pad: &Pad) -> u32
    ensures value { result ≡ gap_of (settings_of zone.now) pad.now }
    ensures most { result ≤ 2 ^ 31 }
{
    units(pad.gap.unwrap_or(zone.gap)).max(1)
}

fn of_tracks(
    alloc: Global,
    board: &Board,
    zone: &Zone,
    layer: u8,
    tracks: &[Track],
) -> Result<Vec<Need>, Memory>
    requires { All IsTrackInReach tracks.now }
    ensures { IfOk result (λ v. map need_of v.items ≡ flat_map (track_needs board.now.board (settings_of zone.now) layer) tracks.now) }
{
    let mut needs = Vec::new(alloc);
    'each: for track in tracks {
        let mut more = of_track(alloc, board, zone, layer, track)?;
        needs.append(&mut more)?;
    }
    Ok(needs)
}

fn of_vias(
    alloc: Global,
    board: &Board,
    zone: &Zone,
    layer: u8,
    vias: &[Via],
) -> Result<Vec<Need>, Memory>
    requires sound { All IsViaInReach vias.now }
    requires layer { layer < 32 }
    ensures { IfOk result (λ v. map need_of v.items ≡ flat_map (via_needs board.now.board (settings_of zone.now) layer) vias.now) }
{
    let mut needs = Vec::new(alloc);
    'each: for via in vias {
        let mut more = of_via(alloc, board, zone, layer, via)?;
        needs.append(&mut more)?;
    }
    Ok(needs)
}

fn of_pads(
    alloc: Global,
    board: &Board,
    zone: &Zone,
    layer: u8,
    pads: &[Pad],
) -> Result<Vec<Need>, Memory>
    requires { layer < 32 }
    ensures { IfOk result (λ v. map need_of v.items ≡ flat_map (pad_needs board.now.board (settings_of zone.now) layer) pads.now) }
{
    let mut needs = Vec::new(alloc);
    'each: for pad in pads {
        let mut more = of_pad(alloc, board, zone, layer, pad)?;
        needs.append(&mut more)?;
    }
    Ok(needs)
}

fn of_edges(alloc: Global, board: &Board, edges: &[Edge]) -> Result<Vec<Need>, Memory>
    requires { All IsSoundBoardEdge edges.now }
    ensures { IfOk result (λ v. map need_of v.items ≡ flat_map (edge_needs board.now.board) edges.now) }
{
    let mut needs = Vec::new(alloc);
    'each: for edge in edges {
        let mut more = of_edge(alloc, board, edge)?;
        needs.append(&mut more)?;
    }
    Ok(needs)
}

fn of_gaps(alloc: Global, zone: &Zone, layer: u8, pads: &[Pad]) -> Result<Vec<Need>, Memory>
    requires { layer < 32 }
    ensures { IfOk result (λ v. map need_of v.items ≡ flat_map (gap_needs (settings_of zone.now) layer) pads.now) }
{
    let mut needs = Vec::new(alloc);
    'each: for pad in pads {
        let mut more = of_gap(alloc, zone, layer, pad)?;
        needs.append(&mut more)?;
    }
    Ok(needs)
}

// What stands on the board whatever the fills are: foreign tracks, vias and pads, holes, pads that are not to be joined,
// and the board's edge.
#[tactic(auto, unfolding(fill_rules::specs::Needs::item_needs))]
fn of_items(alloc: Global, board: &Board, zone: &Zone, layer: u8) -> Result<Vec<Need>, Memory>
    requires { layer < 32 }
    ensures { IfOk result (λ v. map need_of v.items ≡ item_needs board.now.board (settings_of zone.now) layer) }
{
    board.sound();
    let mut edges = of_edges(alloc, board, board.edges())?;
    let mut pads = of_pads(alloc, board, zone, layer, board.pads())?;
    pads.append(&mut edges)?;
    let mut vias = of_vias(alloc, board, zone, layer, board.vias())?;
    vias.append(&mut pads)?;
    let mut needs = of_tracks(alloc, board, zone, layer, board.tracks())?;
    needs.append(&mut vias)?;
    Ok(needs)
}

// What the fill of a zone above keeps from the zone's copper.
fn of_fill(alloc: Global, board: &Board, zone: &Zone, fill: &Fill) -> Result<Vec<Need>, Memory>
    requires { IsTask board.now.board fill.now.task }
    ensures { IfOk result (λ v. map need_of v.items ≡ fill_needs board.now.board (settings_of zone.now) fill.now) }
{
    let need = zone_need(board, zone_of(board, fill.task), zone);
    at_need(alloc, need, &fill.pieces)
}

fn of_fills(
    alloc: Global,
    board: &Board,
    zone: &Zone,
    above: &[Arc<Fill>],
) -> Result<Vec<Need>, Memory>
    requires { All (λ (f : Made). IsTask board.now.board f.task) (map arc_value above.now) }
    ensures { IfOk result (λ v. map need_of v.items ≡ flat_map (fill_needs board.now.board (settings_of zone.now)) (map arc_value above.now)) }
{
    let mut needs = Vec::new(alloc);
    'each: for fill in above {
        let mut more = of_fill(alloc, board, zone, fill)?;
        needs.append(&mut more)?;
    }
    Ok(needs)
}

/// What copper of the task keeps away from, and how far, over the fills of the tasks that reach it: foreign tracks, vias and
/// pads with the holes, in the order of the file, then the board's edge, then those fills; and last, pad by pad, the gaps
/// round the pads that are joined by spokes, one a pad.
///
/// # Errors
///
/// Want of memory.
pub fn needs(
    alloc: Global,
    board: &Board,
    task: Task,
    above: &[Arc<Fill>],
) -> Result<Vec<Need>, Memory>
    requires { AreFillsAboveTask board.now.board (task_of task) (map arc_value above.now) }
    ensures value { IfOk result
        (λ v. map need_of v.items ≡ needs_of board.now.board (task_of task) (map arc_value above.now)) }
    ensures range { IfOk result (λ v. All IsNeedInRange (map need_of v.items)) }
{
    board.sound();
    let zone = zone_of(board, task);
    let mut gaps = of_gaps(alloc, zone, task.layer, board.pads())?;
    let mut fills = of_fills(alloc, board, zone, above)?;
    fills.append(&mut gaps)?;
    let mut needs = of_items(alloc, board, zone, task.layer)?;
    needs.append(&mut fills)?;
    Ok(needs)
}
