// Walks from edge to next edge until the first one comes again, and what they draw.
ghost use Rattle.std.specs.Prelude.{◌≡◌, ◌+◌, ◌≤◌, ◌<◌, ◌++◌, ◌∷◌, [], true, length, map, slice_set, IfOk};
ghost use Rattle.rings.specs.Laws.{HasOneNextEach};
ghost use Rattle.rings.specs.Inner.Tracing.{next_of, walk_of, walks_of};
ghost use Rattle.sheet_trace.specs.Edges.{edges_in};
ghost use Rattle.sheet_trace.specs.Next.{AreByStart};
ghost use Rattle.sheet_trace.specs.Inner.Order.{loop_in, loops_in};
ghost use Rattle.sheet_trace.specs.Inner.Walked.{edge_at, marked, loop_along, drawn_from};

use crate::contour::contour;
use crate::edge::BoundaryEdge;
use crate::hole::is_hole;
use crate::next::next_place;
use crate::order::Drawn;
use grid_num::Memory;
use std::alloc::Global;

// Goes along the edge in a place: adds it to the walk, notes that it is used, and gives the place of the next one.
fn go_along(
    edges: &[BoundaryEdge],
    used: &mut [bool],
    walk: &mut Vec<BoundaryEdge>,
    place: usize,
) -> Result<usize, Memory>
    requires order { AreByStart edges.now }
    requires next { HasOneNextEach (edges_in edges.now) }
    requires flags { length used.old ≡ length edges.now }
    requires within { place < length edges.now }
    ensures walk { IfOk result (λ _. edges_in walk.new.items ≡ edges_in walk.old.items ++ edge_at edges.now place ∷ []) }
    ensures used { IfOk result (λ _. used.new ≡ slice_set used.old place true) }
    ensures within { IfOk result (λ k. k < length edges.now) }
    ensures next { IfOk result (λ k. edge_at edges.now k ≡ next_of (edges_in edges.now) (edge_at edges.now place)) }
{
    walk.push(edges[place])?;
    used[place] = true;
    Ok(next_place(edges, &edges[place]))
}

// The walk from the edge in a place. Notes which edges it goes along.
fn walk_from(
    alloc: Global,
    edges: &[BoundaryEdge],
    used: &mut [bool],
    first: usize,
) -> Result<Vec<BoundaryEdge>, Memory>
    requires order { AreByStart edges.now }
    requires next { HasOneNextEach (edges_in edges.now) }
    requires flags { length used.old ≡ length edges.now }
    requires within { first < length edges.now }
    ensures walk { IfOk result (λ v. edges_in v.items ≡ walk_of (edges_in edges.now) (edge_at edges.now first)) }
    ensures used { IfOk result (λ v. used.new ≡ marked (edges_in v.items) (edges_in edges.now) used.old) }
{
    let mut walk = Vec::new(alloc);
    let mut place = go_along(edges, used, &mut walk, first)?;
    'each: for _step in 0..edges.len() {
        if place == first {
            return Ok(walk);
        }
        place = go_along(edges, used, &mut walk, place)?;
    }
    Ok(walk)
}

// What a walk draws.
fn drawn(alloc: Global, walk: &[BoundaryEdge]) -> Result<Drawn, Memory>
    ensures { IfOk result (λ d. loop_in d ≡ loop_along (edges_in walk.now)) }
{
    let corners = contour(alloc, walk)?;
    Ok(Drawn {
        corners,
        hole: is_hole(walk),
    })
}

// Adds what the walk from the edge in a place draws, if that edge isn't used.
fn put_drawn(
    alloc: Global,
    edges: &[BoundaryEdge],
    used: &mut [bool],
    drawings: &mut Vec<Drawn>,
    first: usize,
) -> Result<(), Memory>
    requires order { AreByStart edges.now }
    requires next { HasOneNextEach (edges_in edges.now) }
    requires flags { length used.old ≡ length edges.now }
    requires within { first < length edges.now }
    requires few { length drawings.old.items ≤ first }
    ensures few { IfOk result (λ _. length drawings.new.items ≤ first + 1) }
    ensures drawings { IfOk result (λ _. drawn_from (edges_in edges.now) (first + 1) used.new (loops_in drawings.new.items) ≡ drawn_from (edges_in edges.now) first used.old (loops_in drawings.old.items)) }
{
    if used[first] {
        return Ok(());
    }
    let walk = walk_from(alloc, edges, used, first)?;
    drawings.push(drawn(alloc, &walk)?)?;
    Ok(())
}

/// What the walks along the edges draw, in the order of their first edges. The edges are listed by where they begin.
///
/// # Errors
///
/// Refuses for want of memory alone.
pub fn drawings(alloc: Global, edges: &[BoundaryEdge]) -> Result<Vec<Drawn>, Memory>
    requires order { AreByStart edges.now }
    requires next { HasOneNextEach (edges_in edges.now) }
    ensures { IfOk result (λ v. loops_in v.items ≡ map loop_along (walks_of (length edges.now) (edges_in edges.now) (edges_in edges.now))) }
{
    let mut drawings = Vec::new(alloc);
    let mut flags = vec![in alloc; false; edges.len()]?;
    let used = flags.as_mut_slice();
    'each: for first in 0..edges.len() {
        put_drawn(alloc, edges, used, &mut drawings, first)?;
    }
    Ok(drawings)
}
