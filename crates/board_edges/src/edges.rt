// The edges of a drawing.
ghost use Rattle.std.specs.Prelude.{◌≡◌, ◌+◌, ◌<◌, ◌∷◌, [], length, map, codes, slice_index_or, IfOk};
ghost use Rattle.board_language.specs.Edges.{edges_as, edges_read, rectangle_corners, sides_of, straight, corner_lists};
ghost use Rattle.board_text.specs.Items.{point_at, point_in};
ghost use Rattle.board_language.specs.declared.EdgeForm.TheVariants.{Line, Rectangle, Arc, Polygon, Other};

use crate::form::{corner_lists, form_of};
use crate::kind::is_edge;
use board_items::points_of;
use board_language::{Edge, EdgeForm};
use board_text::Part;
use grid_num::{Memory, Point};
use std::alloc::Global;

fn straight(from: Point, to: Point) -> Edge
    ensures { result ≡ straight from to }
{
    Edge {
        from,
        to,
        bow: false,
    }
}

/// The corner behind a place; z behind the last one.
fn corner_behind(corners: &[Point], place: usize, z: Point) -> Point
    requires { place < length corners.now }
    ensures { result ≡ slice_index_or corners.now (place + 1) z }
{
    if place + 1 < corners.len() {
        corners[place + 1]
    } else {
        z
    }
}

/// The sides of a closed chain of corners.
fn sides_of(alloc: Global, corners: &[Point]) -> Result<Vec<Edge>, Memory>
    ensures { IfOk result (λ v. v.items ≡ sides_of corners.now) }
{
    let mut sides = Vec::new(alloc);
    if corners.is_empty() {
        return Ok(sides);
    }
    let z = corners[0];
    'each: for i in 0..corners.len() {
        sides.push(straight(corners[i], corner_behind(corners, i, z)))?;
    }
    Ok(sides)
}

fn line_of(alloc: Global, item: &Part<'_>) -> Result<Vec<Edge>, Memory>
    ensures { IfOk result (λ v. v.items ≡ edges_as Line item.now.bytes item.now.item) }
{
    let from = item.point_in(alloc, b"start")?;
    let to = item.point_in(alloc, b"end")?;
    let mut edges = Vec::new(alloc);
    edges.push(straight(from, to))?;
    Ok(edges)
}

fn rectangle_of(alloc: Global, item: &Part<'_>) -> Result<Vec<Edge>, Memory>
    ensures { IfOk result (λ v. v.items ≡ edges_as Rectangle item.now.bytes item.now.item) }
{
    let a = item.point_in(alloc, b"start")?;
    let b = item.point_in(alloc, b"end")?;
    let corners = [a, Point { x: b.x, y: a.y }, b, Point { x: a.x, y: b.y }];
    sides_of(alloc, &corners)
}

fn arc_of(alloc: Global, item: &Part<'_>) -> Result<Vec<Edge>, Memory>
    ensures { IfOk result (λ v. v.items ≡ edges_as Arc item.now.bytes item.now.item) }
{
    let from = item.point_in(alloc, b"start")?;
    let to = item.point_in(alloc, b"end")?;
    let mut edges = Vec::new(alloc);
    edges.push(Edge {
        from,
        to,
        bow: true,
    })?;
    Ok(edges)
}

fn polygon_of(alloc: Global, item: &Part<'_>) -> Result<Vec<Edge>, Memory>
    ensures { IfOk result (λ v. v.items ≡ edges_as Polygon item.now.bytes item.now.item) }
{
    let lists = corner_lists(alloc, item)?;
    let corners = points_of(alloc, &lists)?;
    sides_of(alloc, &corners)
}

/// The edges of a drawing; none where it is no piece of the board's edge.
///
/// # Errors
///
/// Want of memory.
#[tactic(auto, unfolding(board_language::specs::Edges::edges_read))]
pub fn edges_of(alloc: Global, item: &Part<'_>) -> Result<Vec<Edge>, Memory>
    ensures { IfOk result (λ v. v.items ≡ edges_read item.now.bytes item.now.item) }
{
    if !is_edge(alloc, item)? {
        return Ok(Vec::new(alloc));
    }
    match form_of(item) {
        EdgeForm::Line => line_of(alloc, item),
        EdgeForm::Rectangle => rectangle_of(alloc, item),
        EdgeForm::Arc => arc_of(alloc, item),
        EdgeForm::Polygon => polygon_of(alloc, item),
        EdgeForm::Other => Ok(Vec::new(alloc)),
    }
}
