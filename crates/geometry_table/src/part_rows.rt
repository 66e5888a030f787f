// The parts of the octagons, and which octagons are held in place.
ghost use Rattle.std.specs.Prelude.{IfOk, IfSome, IsTrue, ◌≤◌, ◌≤ℤ◌, pos, neg_ℤ};
ghost use Rattle.std.specs.List.{All};
ghost use Rattle.octagon.specs.Room.{IsAround};
ghost use Rattle.cores.specs.Room.{IsInRoom};
ghost use Rattle.islands.specs.Held.{IsAnchorInRoom};

use crate::cores_pair::place;
use copper_shape::Shape;
use geometry_tests::shapes::octagon;
use grid_num::{Memory, Point};
use islands::{kept, parts};
use octagon::Oct;
use std::alloc::{AllocError, Global};

// Whether the range lies within 300,000,000 of 0.
fn is_range_near(low: i64, high: i64) -> bool
    ensures { IsTrue result → (neg_ℤ (pos 300000000) ≤ℤ low) × (high ≤ℤ pos 300000000) }
{
    -300_000_000 <= low && high <= 300_000_000
}

// Whether the octagon does.
fn is_near(oct: &Oct) -> bool
    ensures { IsTrue result → IsAround 300000000 oct.now }
{
    let across = is_range_near(oct.x0(), oct.x1());
    let down = is_range_near(oct.y0(), oct.y1());
    both(across, down)
}

fn both(first: bool, second: bool) -> bool
    ensures { IsTrue result → IsTrue first × IsTrue second }
{
    first && second
}

// The octagon of the bounds, where it lies within 300,000,000 of 0, as all of the table do.
fn near_octagon(bounds: [i32; 8]) -> Option<Oct>
    ensures { IfSome result (λ o. IsAround 300000000 o) }
{
    let oct = octagon(bounds)?;
    if is_near(&oct) {
        return Some(oct);
    }
    None
}

fn octagons(alloc: Global, all: &[[i32; 8]]) -> Result<Vec<Oct>, Memory>
    ensures { IfOk result (λ v. All (IsAround 300000000) v.items) }
{
    let mut octs = Vec::new(alloc);
    'each: for bounds in all {
        if let Some(oct) = near_octagon(*bounds) {
            octs.push(oct)?;
        }
    }
    Ok(octs)
}

/// A disc of copper, in halves: its centre and its radius.
#[derive(Clone, Copy)]
pub struct Disc {
    pub x: i64,
    pub y: i64,
    pub radius: u32,
}

fn disc_at(center: Point, radius: u32) -> Shape
    requires center { IsInRoom 1200000000 center }
    requires radius { radius ≤ 200000000 }
    ensures { IsAnchorInRoom result }
{
    Shape::disc(center, radius)
}

// The disc as a shape, within the room that anchors have, as all of the table are.
fn shape(disc: Disc) -> Shape
    ensures { IsAnchorInRoom result }
{
    disc_at(place(disc.x, disc.y), disc.radius.min(200_000_000))
}

fn shapes(alloc: Global, discs: &[Disc]) -> Result<Vec<Shape>, Memory>
    ensures { IfOk result (λ v. All IsAnchorInRoom v.items) }
{
    let mut shapes = Vec::new(alloc);
    'each: for disc in discs {
        shapes.push(shape(*disc))?;
    }
    Ok(shapes)
}

/// Says the labels of the octagons.
pub fn labels(alloc: Global, all: &[[i32; 8]]) -> Result<Option<String>, AllocError> {
    let mut text = format!(in alloc; "parts")?;
    let Ok(octs) = octagons(alloc, all) else {
        return Ok(None);
    };
    let Ok(labels) = parts(alloc, &octs) else {
        return Ok(None);
    };
    for label in &labels {
        let word = format!(in alloc; " {label}")?;
        text.push_str(word.as_str())?;
    }
    text.push('\n')?;
    Ok(Some(text))
}

// Which octagons are held; None for want of memory.
fn held(
    alloc: Global,
    all: &[[i32; 8]],
    discs: &[Disc],
    spokes: &[[i32; 8]],
) -> Result<Vec<bool>, Memory> {
    let octs = octagons(alloc, all)?;
    let labels = parts(alloc, &octs)?;
    let anchors = shapes(alloc, discs)?;
    let live = octagons(alloc, spokes)?;
    kept(alloc, &octs, &labels, &anchors, &live)
}

/// Says of each octagon whether it is held.
pub fn holding(
    alloc: Global,
    all: &[[i32; 8]],
    discs: &[Disc],
    spokes: &[[i32; 8]],
) -> Result<Option<String>, AllocError> {
    let Ok(kept) = held(alloc, all, discs, spokes) else {
        return Ok(None);
    };
    let mut text = format!(in alloc; "held")?;
    for yes in &kept {
        text.push_str(if *yes { " yes" } else { " no" })?;
    }
    text.push('\n')?;
    Ok(Some(text))
}
