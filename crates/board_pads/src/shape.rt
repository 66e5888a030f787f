// The copper of a pad: lengths in halves of a nanometre, so that a width in nanometres is a half extent.
ghost use Rattle.std.specs.Prelude.{◌≡◌, ◌≤◌, ◌-◌, ◌*◌, ◌+ℤ◌, ◌-ℤ◌, pos, IfOk};
ghost use Rattle.plane.specs.Plane.{grid_point};
ghost use Rattle.cores.specs.Room.{IsInRoom};
ghost use Rattle.touching.specs.Core.{InCore};
ghost use Rattle.hulls.specs.Laws.{IsPad};
ghost use Rattle.grid_num.specs.Length.{IsInRange};
ghost use Rattle.board_text.specs.Items.{size_of};
ghost use Rattle.board_language.specs.Pads.{box_round, circle, corner_radius, double, oval, ratio_in, rectangle, rounded_by, shape_of};

use board_text::{Part, is_text};
use copper_shape::Shape;
use grid_num::{Memory, Point};
use std::alloc::Global;

/// The place of a pad, in halves.
fn doubled(at: Point) -> Point
    requires x { IsInRange at.x }
    requires y { IsInRange at.y }
    ensures x { result.x ≡ double at.x }
    ensures y { result.y ≡ double at.y }
    ensures within { IsInRoom 1000000000 result }
{
    Point {
        x: at.x + at.x,
        y: at.y + at.y,
    }
}

/// The box of these half extents round a place, with rounded corners.
fn box_round(at: Point, half_width: u32, half_height: u32, radius: u32) -> Shape
    requires x { IsInRange at.x }
    requires y { IsInRange at.y }
    requires width { half_width ≤ 100000000 }
    requires height { half_height ≤ 100000000 }
    requires radius { radius ≤ 100000000 }
    ensures value { result ≡ record { core = box_round at half_width half_height; radius = radius } }
    ensures pad { IsPad result.core }
    ensures centre { InCore result.core (grid_point (double at.x) (double at.y)) }
{
    Shape::box_round(doubled(at), half_width, half_height, radius)
}

/// The place so far to the left and above.
fn before(center: Point, long: u32, tall: u32) -> Point
    requires center { IsInRoom 1000000000 center }
    requires long { long ≤ 100000000 }
    requires tall { tall ≤ 100000000 }
    ensures x { result.x ≡ center.x -ℤ pos long }
    ensures y { result.y ≡ center.y -ℤ pos tall }
    ensures within { IsInRoom 2000000000 result }
{
    Point {
        x: center.x - long as i64,
        y: center.y - tall as i64,
    }
}

/// The place so far to the right and below.
fn behind(center: Point, long: u32, tall: u32) -> Point
    requires center { IsInRoom 1000000000 center }
    requires long { long ≤ 100000000 }
    requires tall { tall ≤ 100000000 }
    ensures x { result.x ≡ center.x +ℤ pos long }
    ensures y { result.y ≡ center.y +ℤ pos tall }
    ensures within { IsInRoom 2000000000 result }
{
    Point {
        x: center.x + long as i64,
        y: center.y + tall as i64,
    }
}

/// The segment along the longer side, with round ends.
fn oval(at: Point, width: u32, height: u32) -> Shape
    requires x { IsInRange at.x }
    requires y { IsInRange at.y }
    requires width { width ≤ 100000000 }
    requires height { height ≤ 100000000 }
    ensures value { result ≡ oval at (record { width = width; height = height }) }
    ensures pad { IsPad result.core }
    ensures centre { InCore result.core (grid_point (double at.x) (double at.y)) }
{
    let long = width.saturating_sub(height);
    let tall = height.saturating_sub(width);
    let center = doubled(at);
    let from = before(center, long, tall);
    let to = behind(center, long, tall);
    Shape::capsule(from, to, width.min(height))
}

/// The radius of rounded corners: the ratio of the shorter side, in halves and rounded down.
fn corner_radius(ratio: u64, width: u32, height: u32) -> u32
    requires ratio { ratio ≤ 5000000000 }
    requires width { width ≤ 100000000 }
    requires height { height ≤ 100000000 }
    ensures value { result ≡ corner_radius ratio (record { width = width; height = height }) }
    ensures most { result ≤ 100000000 }
{
    let shorter = u64::from(width.min(height));
    ((2 * (shorter * ratio)) / 10_000_000_000) as u32
}

fn rounded(at: Point, width: u32, height: u32, ratio: u64) -> Shape
    requires x { IsInRange at.x }
    requires y { IsInRange at.y }
    requires width { width ≤ 100000000 }
    requires height { height ≤ 100000000 }
    requires ratio { ratio ≤ 5000000000 }
    ensures value { result ≡ rounded_by (corner_radius ratio (record { width = width; height = height })) at (record { width = width; height = height }) }
    ensures pad { IsPad result.core }
    ensures centre { InCore result.core (grid_point (double at.x) (double at.y)) }
{
    let radius = corner_radius(ratio, width, height);
    box_round(
        at,
        width.saturating_sub(radius),
        height.saturating_sub(radius),
        radius,
    )
}

/// The copper of a pad at a place, of this width and height and this ratio of its corners.
///
/// # Errors
///
/// Want of memory.
#[tactic(auto, unfolding(board_language::specs::Pads::shape_of))]
pub fn shape_of(
    alloc: Global,
    pad: &Part<'_>,
    at: Point,
    width: u32,
    height: u32,
    ratio: u64,
) -> Result<Shape, Memory>
    requires x { IsInRange at.x }
    requires y { IsInRange at.y }
    requires width { width ≤ 100000000 }
    requires height { height ≤ 100000000 }
    requires most { ratio ≤ 5000000000 }
    requires ratio { ratio ≡ size_of (ratio_in pad.now.bytes pad.now.item) }
    ensures value { IfOk result (λ s. s ≡ shape_of pad.now.bytes pad.now.item at (record { width = width; height = height })) }
    ensures pad { IfOk result (λ s. IsPad s.core) }
    ensures centre { IfOk result (λ s. InCore s.core (grid_point (double at.x) (double at.y))) }
{
    let found = pad.text_at(alloc, 2)?;
    if is_text(&found, b"circle") {
        return Ok(box_round(at, 0, 0, width));
    }
    if is_text(&found, b"oval") {
        return Ok(oval(at, width, height));
    }
    if is_text(&found, b"roundrect") {
        return Ok(rounded(at, width, height, ratio));
    }
    Ok(box_round(at, width, height, 0))
}
