// The spokes of thermal reliefs.
//
//           | N |            each leads from one brush behind the pad's centre g to as far beyond
//        ___|   |___         the gap as the brush reaches
//       W___  g  ___E
//           |   |
//           | S |
ghost use Rattle.std.specs.Prelude.{◌≡◌, ◌<◌, ◌≤◌, ◌^◌, pos, ◌+ℤ◌, ◌-ℤ◌, ◌≤ℤ◌, flat_map, IfOk};
ghost use Rattle.std.specs.List.{All};
ghost use Rattle.plane.specs.Plane.{Within, box_of};
ghost use Rattle.octagon.specs.Room.{IsAround};
ghost use Rattle.octagon.specs.Bounded.{IsNearZero};
ghost use Rattle.cores.specs.Room.{IsInRoom};
ghost use Rattle.hulls.specs.Cells.{floor_of};
ghost use Rattle.fill_rules.specs.Tasks.{settings_of};
ghost use Rattle.board_language.specs.Copper.{pad_hulls};
ghost use Rattle.fill_rules.specs.Reliefs.{half_bridge, spokes_by, pad_spokes};
ghost use Rattle.fill_rules.specs.Ranking.{IsTask};
ghost use Rattle.fills.specs.Fills.{task_of};
ghost use Rattle.knockouts.specs.Inner.Reach.{IsPadInReach};
ghost use Rattle.knockouts.specs.OfTask.{task_spokes};
ghost use Rattle.knockouts.specs.Spokes.{IsRelief, IsSpokeHull, thermal_spokes, four_spokes, east_spoke, south_spoke, west_spoke, north_spoke};

use crate::lengths::{brush_radius, half_units};
use crate::obstacles::gap_of;
use crate::pads::is_thermal;
use crate::rank::zone_of;
use board_language::{Pad, Zone};
use board_model::Board;
use fills::Task;
use grid_num::{Memory, Point, ceil_div};
use octagon::Oct;
use std::alloc::Global;

/// All spokes of the pads that the task's zone joins by spokes: pad by pad in the order of the file, of each those to the
/// east, south, west and north.
///
/// # Errors
///
/// Want of memory.
#[tactic(auto, unfolding(fill_rules::specs::Reliefs::spokes_of))]
pub fn spokes(alloc: Global, board: &Board, task: Task) -> Result<Vec<Oct>, Memory>
    requires { IsTask board.now.board (task_of task) }
    ensures { IfOk result (λ v. v.items ≡ task_spokes board.now.board (task_of task)) }
{
    board.sound();
    of_pads(alloc, zone_of(board, task), task.layer, board.pads())
}

fn of_pads(alloc: Global, zone: &Zone, layer: u8, pads: &[Pad]) -> Result<Vec<Oct>, Memory>
    requires layer { layer < 32 }
    requires sound { All IsPadInReach pads.now }
    ensures { IfOk result (λ v. v.items ≡ flat_map (thermal_spokes (settings_of zone.now) layer) pads.now) }
{
    let mut spokes = Vec::new(alloc);
    'each: for pad in pads {
        let mut more = of_pad(alloc, zone, layer, pad)?;
        spokes.append(&mut more)?;
    }
    Ok(spokes)
}

// The spokes of a pad that the zone joins by spokes; none of another.
fn of_pad(alloc: Global, zone: &Zone, layer: u8, pad: &Pad) -> Result<Vec<Oct>, Memory>
    requires layer { layer < 32 }
    requires pad { IsPadInReach pad.now }
    ensures { IfOk result (λ v. v.items ≡ thermal_spokes (settings_of zone.now) layer pad.now) }
{
    if is_thermal(zone, layer, pad) {
        return pad_spokes(alloc, zone, pad);
    }
    Ok(Vec::new(alloc))
}

// The four spokes of a pad.
#[tactic(auto, unfolding(fill_rules::specs::Reliefs::pad_spokes))]
fn pad_spokes(alloc: Global, zone: &Zone, pad: &Pad) -> Result<Vec<Oct>, Memory>
    requires { IsPadInReach pad.now }
    ensures { IfOk result (λ v. v.items ≡ pad_spokes (settings_of zone.now) pad.now) }
{
    let brush = brush_radius(zone);
    let relief = Relief {
        centre: floored(pad.at),
        brush,
        half: half_bridge(zone, pad),
        reach: gap_of(zone, pad) + brush,
    };
    let hulls = hulls_round(alloc, pad)?;
    across(alloc, &relief, &hulls)
}

// The hulls of the pad; its centre, rounded down, is in each.
#[tactic(auto, unfolding(board_language::specs::Copper::pad_hulls))]
fn hulls_round(alloc: Global, pad: &Pad) -> Result<Vec<Oct>, Memory>
    requires { IsPadInReach pad.now }
    ensures value { IfOk result (λ v. v.items ≡ pad_hulls pad.now) }
    ensures centre { IfOk result (λ v. All (IsSpokeHull (floor_of 2 pad.now.at.x) (floor_of 2 pad.now.at.y)) v.items) }
{
    let hulls = pad.shape.hulls(alloc)?;
    Ok(hulls)
}

// Half a spoke's width, in units: that of the pad's bridges, else of the zone's, and no less than the brush reaches.
fn half_bridge(zone: &Zone, pad: &Pad) -> u32
    ensures value { result ≡ half_bridge (settings_of zone.now) pad.now }
    ensures most { result ≤ 2 ^ 30 }
{
    brush_radius(zone).max(half_units(pad.bridge.unwrap_or(zone.bridge)))
}

// The four spokes across the gap round each hull.
fn across(alloc: Global, relief: &Relief, hulls: &[Oct]) -> Result<Vec<Oct>, Memory>
    requires relief { IsRelief relief.now }
    requires hulls { All (IsSpokeHull relief.now.centre.x relief.now.centre.y) hulls.now }
    ensures { IfOk result (λ v. v.items ≡ flat_map (four_spokes relief.now) hulls.now) }
{
    let mut spokes = Vec::new(alloc);
    'each: for hull in hulls {
        let mut more = relief.four(alloc, hull)?;
        spokes.append(&mut more)?;
    }
    Ok(spokes)
}

// A thermal relief: where its spokes begin, how far the brush and half a spoke's width reach, and how far the spokes lead
// beyond the pad's hull.
#[derive(Clone, Copy)]
struct Relief {
    centre: Point,
    brush: u32,
    half: u32,
    reach: u32,
}

impl Relief {
    // The spokes to the east, south, west and north.
    fn four(&self, alloc: Global, hull: &Oct) -> Result<Vec<Oct>, Memory>
        requires relief { IsRelief self.now }
        requires hull { IsSpokeHull self.now.centre.x self.now.centre.y hull.now }
        ensures { IfOk result (λ v. v.items ≡ four_spokes self.now hull.now) }
    {
        let mut spokes = Vec::with_capacity(alloc, 4)?;
        spokes.push(self.east(hull))?;
        spokes.push(self.south(hull))?;
        spokes.push(self.west(hull))?;
        spokes.push(self.north(hull))?;
        Ok(spokes)
    }

    fn east(&self, hull: &Oct) -> Oct
        requires relief { IsRelief self.now }
        requires hull { IsSpokeHull self.now.centre.x self.now.centre.y hull.now }
        ensures { result ≡ east_spoke self.now hull.now }
    {
        let Point { x, y } = self.centre;
        let left = less(x, self.brush);
        let right = more(hull.x1(), self.reach);
        rectangle(left, right, less(y, self.half), more(y, self.half))
    }

    fn south(&self, hull: &Oct) -> Oct
        requires relief { IsRelief self.now }
        requires hull { IsSpokeHull self.now.centre.x self.now.centre.y hull.now }
        ensures { result ≡ south_spoke self.now hull.now }
    {
        let Point { x, y } = self.centre;
        let top = less(y, self.brush);
        let bottom = more(hull.y1(), self.reach);
        rectangle(less(x, self.half), more(x, self.half), top, bottom)
    }

    fn west(&self, hull: &Oct) -> Oct
        requires relief { IsRelief self.now }
        requires hull { IsSpokeHull self.now.centre.x self.now.centre.y hull.now }
        ensures { result ≡ west_spoke self.now hull.now }
    {
        let Point { x, y } = self.centre;
        let left = less(hull.x0(), self.reach);
        let right = more(x, self.brush);
        rectangle(left, right, less(y, self.half), more(y, self.half))
    }

    fn north(&self, hull: &Oct) -> Oct
        requires relief { IsRelief self.now }
        requires hull { IsSpokeHull self.now.centre.x self.now.centre.y hull.now }
        ensures { result ≡ north_spoke self.now hull.now }
    {
        let Point { x, y } = self.centre;
        let top = less(hull.y0(), self.reach);
        let bottom = more(y, self.brush);
        rectangle(less(x, self.half), more(x, self.half), top, bottom)
    }
}

fn less(z: i64, n: u32) -> i64
    requires { IsNearZero (2 ^ 39) z }
    ensures value { result ≡ z -ℤ pos n }
    ensures near { IsNearZero (2 ^ 40) result }
{
    z - n as i64
}

fn more(z: i64, n: u32) -> i64
    requires { IsNearZero (2 ^ 39) z }
    ensures value { result ≡ z +ℤ pos n }
    ensures near { IsNearZero (2 ^ 40) result }
{
    z + n as i64
}

// The upright rectangle between the sides.
fn rectangle(left: i64, right: i64, top: i64, bottom: i64) -> Oct
    requires left { IsNearZero (2 ^ 40) left }
    requires right { IsNearZero (2 ^ 40) right }
    requires top { IsNearZero (2 ^ 40) top }
    requires bottom { IsNearZero (2 ^ 40) bottom }
    requires wide { left ≤ℤ right }
    requires high { top ≤ℤ bottom }
    ensures { result ≡ box_of left right top bottom }
{
    Oct::of_points(&[
        Point { x: left, y: top },
        Point { x: right, y: top },
        Point { x: left, y: bottom },
        Point {
            x: right,
            y: bottom,
        },
    ])
}

// Nanometres as units, rounded down.
fn floored(p: Point) -> Point
    requires { IsInRoom 500000000 p }
    ensures x { result.x ≡ floor_of 2 p.x }
    ensures y { result.y ≡ floor_of 2 p.y }
    ensures within { IsInRoom 250000000 result }
{
    Point {
        x: half_down(p.x),
        y: half_down(p.y),
    }
}

// Half of it, rounded down.
fn half_down(z: i64) -> i64
    requires { IsNearZero 500000000 z }
    ensures value { result ≡ floor_of 2 z }
    ensures near { IsNearZero 250000000 result }
{
    -ceil_div(-z, 2)
}
