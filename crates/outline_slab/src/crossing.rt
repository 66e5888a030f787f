// Edges of a closed chain that have a point in common.
ghost use Rattle.std.specs.Prelude.{◌<◌, ◌≤◌, ◌↔◌, length, IsTrue, IfOk};
ghost use Rattle.std.specs.List.{All};
ghost use Rattle.plane.specs.Covering.{edges_of};
ghost use Rattle.outline_slab.specs.Rules.{IsInSpan, IsSide, AreCrossing};
ghost use Rattle.outline_slab.specs.Faults.{IsFoundCrossing};
ghost use Rattle.outline_slab.specs.Inner.Search.{IsRow, AreRowsOfEdges, IsBeforeBest, IsFound, Misses, MissesLater, IsBetterFind};

use crate::rows::{Row, from_the_top};
use crate::side::side_at;
use grid_num::{Memory, Point};
use std::alloc::Global;

// Whether edges i and j have a point in common, other than the common end of neighbours.
fn crosses(corners: &[Point], i: usize, j: usize) -> bool
    requires three { 3 ≤ length corners.now }
    requires span { All IsInSpan corners.now }
    requires sides { All IsSide (edges_of corners.now) }
    requires order { i < j }
    requires within { j < length corners.now }
    ensures { IsTrue result ↔ AreCrossing corners.now i j }
{
    let first = side_at(corners, i);
    let second = side_at(corners, j);
    if j == i + 1 {
        return first.is_folded(second);
    }
    if i == 0 && j + 1 == corners.len() {
        return second.is_folded(first);
    }
    first.hull().meets(&second.hull())
}

// The best pair so far, or edges i and j where they come before it and cross.
fn with_pair(
    corners: &[Point],
    best: Option<(usize, usize)>,
    i: usize,
    j: usize,
) -> Option<(usize, usize)>
    requires three { 3 ≤ length corners.now }
    requires span { All IsInSpan corners.now }
    requires sides { All IsSide (edges_of corners.now) }
    requires found { IsFound corners.now best }
    requires order { i < j }
    requires within { j < length corners.now }
    ensures better { IsBetterFind corners.now best result }
    ensures missed { Misses corners.now result i j }
{
    if is_before(best, i, j) && crosses(corners, i, j) {
        return Some((i, j));
    }
    best
}

// Whether the pair comes before the best one so far.
fn is_before(best: Option<(usize, usize)>, i: usize, j: usize) -> bool
    ensures { IsTrue result ↔ IsBeforeBest i j best }
{
    match best {
        None => true,
        Some((first, second)) => i < first || i == first && j < second,
    }
}

// The same for two edges in any order.
fn with_either(
    corners: &[Point],
    best: Option<(usize, usize)>,
    i: usize,
    j: usize,
) -> Option<(usize, usize)>
    requires three { 3 ≤ length corners.now }
    requires span { All IsInSpan corners.now }
    requires sides { All IsSide (edges_of corners.now) }
    requires found { IsFound corners.now best }
    requires first { i < length corners.now }
    requires second { j < length corners.now }
    ensures better { IsBetterFind corners.now best result }
    ensures missed { Misses corners.now result i j × Misses corners.now result j i }
{
    if i < j {
        return with_pair(corners, best, i, j);
    }
    if j < i {
        return with_pair(corners, best, j, i);
    }
    best
}

// The same for two edges whose octagons are at hand: most of them do not meet.
fn with_rows(
    corners: &[Point],
    best: Option<(usize, usize)>,
    first: &Row,
    second: &Row,
) -> Option<(usize, usize)>
    requires three { 3 ≤ length corners.now }
    requires span { All IsInSpan corners.now }
    requires sides { All IsSide (edges_of corners.now) }
    requires found { IsFound corners.now best }
    requires first { IsRow corners.now first.now }
    requires second { IsRow corners.now second.now }
    ensures better { IsBetterFind corners.now best result }
    ensures missed { Misses corners.now result first.now.index second.now.index × Misses corners.now result second.now.index first.now.index }
{
    if !first.hull.meets(&second.hull) {
        return best;
    }
    with_either(corners, best, first.index, second.index)
}

// The best pair so far, or one of the edge at a place and an edge of a later place whose rows overlap.
fn with_later(
    corners: &[Point],
    rows: &[Row],
    place: usize,
    best: Option<(usize, usize)>,
) -> Option<(usize, usize)>
    requires three { 3 ≤ length corners.now }
    requires span { All IsInSpan corners.now }
    requires sides { All IsSide (edges_of corners.now) }
    requires rows { AreRowsOfEdges corners.now rows.now }
    requires found { IsFound corners.now best }
    requires within { place < length rows.now }
    ensures better { IsBetterFind corners.now best result }
    ensures missed { MissesLater corners.now rows.now result place (length rows.now) }
{
    let row = &rows[place];
    let mut best = best;
    'later: for later in place + 1..rows.len() {
        if row.is_above(&rows[later]) {
            return best;
        }
        best = with_rows(corners, best, row, &rows[later]);
    }
    best
}

// The least pair of edges that cross. Only edges whose rows overlap are compared.
pub fn least_crossing(alloc: Global, corners: &[Point]) -> Result<Option<(usize, usize)>, Memory>
    requires three { 3 ≤ length corners.now }
    requires span { All IsInSpan corners.now }
    requires sides { All IsSide (edges_of corners.now) }
    ensures { IfOk result (λ found. IsFoundCrossing corners.now found) }
{
    let rows = from_the_top(alloc, corners)?;
    let mut best = None;
    'place: for place in 0..rows.len() {
        best = with_later(corners, &rows, place, best);
    }
    Ok(best)
}
