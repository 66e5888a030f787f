// The contour of a walk: its corners without those that are passed straight, begun so that the list is least.
ghost use Rattle.std.specs.Prelude.{◌≡◌, ◌++◌, ◌<◌, ◌≤◌, [], length, IfOk};
ghost use Rattle.rings.specs.Inner.Tracing.{contour_of, is_less_list, least_from};
ghost use Rattle.sheet_trace.specs.Edges.{edge_of, edges_in};
ghost use Rattle.sheet_trace.specs.Inner.Visits.{visit_of, bend_at, bends_after, place_around, begun_at};

use crate::edge::BoundaryEdge;
use crate::next::{heading, is_before};
use crate::order::is_same;
use grid_num::{Memory, Point};
use std::alloc::Global;

// Adds the corner of a visit if the direction changes there.
fn put_bend(
    corners: &mut Vec<Point>,
    comes: &BoundaryEdge,
    goes: &BoundaryEdge,
) -> Result<(), Memory>
    ensures { IfOk result (λ _. corners.new.items ≡ corners.old.items ++ bend_at (visit_of comes.now goes.now)) }
{
    if heading(comes) == heading(goes) {
        return Ok(());
    }
    corners.push(goes.start)?;
    Ok(())
}

// The corners at which the direction changes, where one comes to the first edge by the last.
fn bends(alloc: Global, walk: &[BoundaryEdge], last: BoundaryEdge) -> Result<Vec<Point>, Memory>
    ensures { IfOk result (λ v. v.items ≡ bends_after (edge_of last) (edges_in walk.now)) }
{
    let mut corners = Vec::new(alloc);
    let mut comes = last;
    'each: for goes in walk {
        put_bend(&mut corners, &comes, goes)?;
        comes = *goes;
    }
    Ok(corners)
}

// Where one is after some steps around a list, begun at a place in it.
fn place_around(length: usize, place: usize, step: usize) -> usize
    requires place { place < length }
    requires step { step < length }
    ensures value { result ≡ place_around length place step }
    ensures within { result < length }
{
    if step < length - place {
        place + step
    } else {
        step - (length - place)
    }
}

// Whether the corners begun at one place are less than those begun at another.
fn is_less_from(corners: &[Point], one: usize, other: usize) -> bool
    requires one { one < length corners.now }
    requires other { other < length corners.now }
    ensures { result ≡ is_less_list (begun_at corners.now one) (begun_at corners.now other) }
{
    'each: for step in 0..corners.len() {
        let a = corners[place_around(corners.len(), one, step)];
        let b = corners[place_around(corners.len(), other, step)];
        if !is_same(a, b) {
            return is_before(a, b);
        }
    }
    false
}

// The place at which the least list of the same corners begins.
fn least_place(corners: &[Point]) -> usize
    ensures within { result ≤ length corners.now }
    ensures least { begun_at corners.now result ≡ least_from [] corners.now }
{
    let mut best = 0;
    'each: for step in 0..corners.len() {
        let place = corners.len() - 1 - step;
        if is_less_from(corners, place, best) {
            best = place;
        }
    }
    best
}

// The corners, begun at a place among them.
fn begun_at(alloc: Global, corners: &[Point], place: usize) -> Result<Vec<Point>, Memory>
    requires { place ≤ length corners.now }
    ensures { IfOk result (λ v. v.items ≡ begun_at corners.now place) }
{
    let (front, back) = corners.split_at(place);
    let mut list = Vec::with_capacity(alloc, corners.len())?;
    list.extend_from_slice(back)?;
    list.extend_from_slice(front)?;
    Ok(list)
}

/// The contour of the walk. Refuses for want of memory alone.
pub fn contour(alloc: Global, walk: &[BoundaryEdge]) -> Result<Vec<Point>, Memory>
    ensures { IfOk result (λ v. v.items ≡ contour_of (edges_in walk.now)) }
{
    if walk.is_empty() {
        return Ok(Vec::new(alloc));
    }
    let corners = bends(alloc, walk, walk[walk.len() - 1])?;
    let place = least_place(&corners);
    begun_at(alloc, &corners, place)
}
