// The copper that holds islands of a task.
ghost use Rattle.std.specs.Prelude.{◌≡◌, ◌∷◌, [], ◌<◌, flat_map, IfOk};
ghost use Rattle.std.specs.List.{All};
ghost use Rattle.fill_rules.specs.Tasks.{settings_of};
ghost use Rattle.fill_rules.specs.Anchors.{pad_anchors, via_anchors, track_anchors};
ghost use Rattle.fill_rules.specs.Ranking.{IsTask};
ghost use Rattle.fills.specs.Fills.{task_of};
ghost use Rattle.knockouts.specs.Inner.Reach.{IsTrackInReach, IsViaInReach};
ghost use Rattle.knockouts.specs.OfTask.{task_anchors};

use crate::copper::{track_copper, via_copper};
use crate::pads::is_solid;
use crate::rank::{has_layer, zone_of};
use board_language::{Pad, Track, Via, Zone};
use board_model::Board;
use copper_shape::Shape;
use fills::Task;
use grid_num::Memory;
use std::alloc::Global;

fn alone(alloc: Global, copper: Shape) -> Result<Vec<Shape>, Memory>
    ensures { IfOk result (λ v. v.items ≡ copper ∷ []) }
{
    let mut shapes = Vec::new(alloc);
    shapes.push(copper)?;
    Ok(shapes)
}

// The copper of a pad, where it is joined all round.
fn of_pad(alloc: Global, zone: &Zone, layer: u8, pad: &Pad) -> Result<Vec<Shape>, Memory>
    requires { layer < 32 }
    ensures { IfOk result (λ v. v.items ≡ pad_anchors (settings_of zone.now) layer pad.now) }
{
    if is_solid(zone, layer, pad) {
        return alone(alloc, pad.shape);
    }
    Ok(Vec::new(alloc))
}

// That of a via of the zone's net.
fn of_via(alloc: Global, zone: &Zone, layer: u8, via: &Via) -> Result<Vec<Shape>, Memory>
    requires layer { layer < 32 }
    requires via { IsViaInReach via.now }
    ensures { IfOk result (λ v. v.items ≡ via_anchors (settings_of zone.now) layer via.now) }
{
    if has_layer(via.layers, layer) && via.net == zone.net {
        return alone(alloc, via_copper(via));
    }
    Ok(Vec::new(alloc))
}

// That of a track of the zone's net.
fn of_track(alloc: Global, zone: &Zone, layer: u8, track: &Track) -> Result<Vec<Shape>, Memory>
    requires { IsTrackInReach track.now }
    ensures { IfOk result (λ v. v.items ≡ track_anchors (settings_of zone.now) layer track.now) }
{
    if track.layer == layer && track.net == zone.net {
        return alone(alloc, track_copper(track));
    }
    Ok(Vec::new(alloc))
}

fn of_pads(alloc: Global, zone: &Zone, layer: u8, pads: &[Pad]) -> Result<Vec<Shape>, Memory>
    requires { layer < 32 }
    ensures { IfOk result (λ v. v.items ≡ flat_map (pad_anchors (settings_of zone.now) layer) pads.now) }
{
    let mut shapes = Vec::new(alloc);
    'each: for pad in pads {
        let mut more = of_pad(alloc, zone, layer, pad)?;
        shapes.append(&mut more)?;
    }
    Ok(shapes)
}

fn of_vias(alloc: Global, zone: &Zone, layer: u8, vias: &[Via]) -> Result<Vec<Shape>, Memory>
    requires layer { layer < 32 }
    requires sound { All IsViaInReach vias.now }
    ensures { IfOk result (λ v. v.items ≡ flat_map (via_anchors (settings_of zone.now) layer) vias.now) }
{
    let mut shapes = Vec::new(alloc);
    'each: for via in vias {
        let mut more = of_via(alloc, zone, layer, via)?;
        shapes.append(&mut more)?;
    }
    Ok(shapes)
}

fn of_tracks(alloc: Global, zone: &Zone, layer: u8, tracks: &[Track]) -> Result<Vec<Shape>, Memory>
    requires { All IsTrackInReach tracks.now }
    ensures { IfOk result (λ v. v.items ≡ flat_map (track_anchors (settings_of zone.now) layer) tracks.now) }
{
    let mut shapes = Vec::new(alloc);
    'each: for track in tracks {
        let mut more = of_track(alloc, zone, layer, track)?;
        shapes.append(&mut more)?;
    }
    Ok(shapes)
}

/// The copper that anchors an island of the task which it touches: pads that are joined all round, then vias, then tracks,
/// all of the zone's net and on the layer. A zone without a net has none.
///
/// # Errors
///
/// Want of memory.
#[tactic(auto, unfolding(fill_rules::specs::Anchors::anchors_of))]
pub fn anchors(alloc: Global, board: &Board, task: Task) -> Result<Vec<Shape>, Memory>
    requires { IsTask board.now.board (task_of task) }
    ensures { IfOk result (λ v. v.items ≡ task_anchors board.now.board (task_of task)) }
{
    board.sound();
    let zone = zone_of(board, task);
    if zone.net == 0 {
        return Ok(Vec::new(alloc));
    }
    let mut tracks = of_tracks(alloc, zone, task.layer, board.tracks())?;
    let mut vias = of_vias(alloc, zone, task.layer, board.vias())?;
    vias.append(&mut tracks)?;
    let mut shapes = of_pads(alloc, zone, task.layer, board.pads())?;
    shapes.append(&mut vias)?;
    Ok(shapes)
}
