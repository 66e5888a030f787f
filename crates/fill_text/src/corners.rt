// The corners of a fill.
ghost use Rattle.std.specs.Prelude.{◌≡◌, map, Some, IfOk};
ghost use Rattle.std.specs.List.{All, list_all};
ghost use Rattle.grid_num.specs.Length.{IsInRange};
ghost use Rattle.board_text.specs.Items.{point_at};
ghost use Rattle.board_text.specs.Lists.{behind_head};
ghost use Rattle.rings.specs.Rings.{IsRingInRange};
ghost use Rattle.fill_text.specs.FillLists.{is_corner, corner_items, ring_of};

use board_text::Part;
use grid_num::{Memory, Point};
use rings::Ring;
use std::alloc::Global;

// Whether an item is a corner that can be read.
fn is_corner(alloc: Global, item: &Part<'_>) -> Result<bool, Memory>
    ensures { IfOk result (λ yes. yes ≡ is_corner item.now.bytes item.now.item) }
{
    let fault = item.point_fault(alloc)?;
    Ok(item.is_headed(b"xy") && !item.is_short(2) && fault.is_none())
}

// Whether all items behind the head are.
fn are_corners(alloc: Global, points: &Part<'_>) -> Result<bool, Memory>
    ensures { IfOk result (λ yes. yes ≡ list_all (is_corner points.now.bytes) (behind_head points.now.item)) }
{
    'each: for place in 1..points.len() {
        if !is_corner(alloc, &points.child(place))? {
            return Ok(false);
        }
    }
    Ok(true)
}

/// Whether each corner of a fill can be read.
///
/// # Errors
///
/// Want of memory.
pub fn has_corners(alloc: Global, fill: &Part<'_>) -> Result<bool, Memory>
    ensures { IfOk result (λ yes. yes ≡ list_all (is_corner fill.now.bytes) (corner_items fill.now.bytes fill.now.item)) }
{
    match fill.list(b"pts") {
        Some(points) => are_corners(alloc, &points),
        None => Ok(true),
    }
}

// The items behind the head as points.
fn points_behind(alloc: Global, points: &Part<'_>) -> Result<Vec<Point>, Memory>
    ensures value { IfOk result (λ v. v.items ≡ map (λ corner. point_at points.now.bytes (Some corner)) (behind_head points.now.item)) }
    ensures range { IfOk result (λ v. IsRingInRange v.items) }
{
    let mut corners = Vec::new(alloc);
    'each: for place in 1..points.len() {
        let corner = points.child(place).point(alloc)?;
        corners.push(corner)?;
    }
    Ok(corners)
}

/// The ring along the corners of a fill, in nanometres.
///
/// # Errors
///
/// Want of memory.
pub fn ring_of(alloc: Global, fill: &Part<'_>) -> Result<Ring, Memory>
    ensures value { IfOk result (λ r. r ≡ ring_of fill.now.bytes fill.now.item) }
    ensures range { IfOk result IsRingInRange }
{
    match fill.list(b"pts") {
        Some(points) => {
            let corners = points_behind(alloc, &points)?;
            Ok(Ring { corners })
        }
        None => Ok(Ring {
            corners: Vec::new(alloc),
        }),
    }
}
