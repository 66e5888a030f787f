// The sides of strips, and their ends.
ghost use Rattle.std.specs.Prelude.{◌≡◌, ◌++◌, IfOk};
ghost use Rattle.std.specs.List.Sorted.{IsPermutation};
ghost use Rattle.sheet_trace.specs.Edges.{left_side, right_side, strip_sides, edge_ends, ArePointsFromTop};

use crate::edge::BoundaryEdge;
use grid_num::{Memory, Point};
use std::alloc::Global;
use strips::Strip;

// The left side of a strip, which goes up.
fn left_side(strip: Strip) -> BoundaryEdge
    ensures { result ≡ left_side strip }
{
    BoundaryEdge {
        start: Point {
            x: strip.left_end,
            y: strip.bottom,
        },
        finish: Point {
            x: strip.left,
            y: strip.top,
        },
    }
}

// The right side of a strip, which goes down.
fn right_side(strip: Strip) -> BoundaryEdge
    ensures { result ≡ right_side strip }
{
    BoundaryEdge {
        start: Point {
            x: strip.right,
            y: strip.top,
        },
        finish: Point {
            x: strip.right_end,
            y: strip.bottom,
        },
    }
}

/// The sides of the strips. Refuses for want of memory alone.
pub fn sides_of(alloc: Global, strips: &[Strip]) -> Result<Vec<BoundaryEdge>, Memory>
    ensures { IfOk result (λ v. v.items ≡ strip_sides strips.now) }
{
    let mut sides = Vec::new(alloc);
    'each: for strip in strips {
        sides.push(left_side(*strip))?;
        sides.push(right_side(*strip))?;
    }
    Ok(sides)
}

// The ends of edges, as they stand.
fn ends_of(alloc: Global, edges: &[BoundaryEdge]) -> Result<Vec<Point>, Memory>
    ensures { IfOk result (λ v. v.items ≡ edge_ends edges.now) }
{
    let mut ends = Vec::new(alloc);
    'each: for edge in edges {
        ends.push(edge.start)?;
        ends.push(edge.finish)?;
    }
    Ok(ends)
}

/// The ends of edges, from the top and in each row from the left. Refuses for want of memory alone.
pub fn corners_of(alloc: Global, edges: &[BoundaryEdge]) -> Result<Vec<Point>, Memory>
    ensures ends { IfOk result (λ v. IsPermutation (edge_ends edges.now) v.items) }
    ensures order { IfOk result (λ v. ArePointsFromTop v.items) }
{
    let mut corners = ends_of(alloc, edges)?;
    corners.sort_by_key(|corner| (corner.y, corner.x))?;
    Ok(corners)
}
