// The rows that the edges of a closed chain take.
ghost use Rattle.std.specs.Prelude.{◌≡◌, ◌<◌, ◌↔◌, ◌≤ℤ◌, ◌<ℤ◌, length, IsTrue, IfOk};
ghost use Rattle.std.specs.List.{All};
ghost use Rattle.plane.specs.Covering.{edges_of};
ghost use Rattle.outline_slab.specs.Rules.{IsInSpan, IsSide};
ghost use Rattle.outline_slab.specs.Inner.Search.{AreEdgeRows, AreRowsOfEdges, IsRow};

use crate::side::side_at;
use grid_num::{Memory, Point};
use octagon::Oct;
use std::alloc::Global;

/// An edge by its index, the rows that it takes, and the octagon that has just its points.
#[derive(Clone, Copy)]
pub struct Row {
    pub top: i64,
    pub bottom: i64,
    pub hull: Oct,
    pub index: usize,
}

impl Row {
    // Whether the edge ends above the top of the other one.
    pub fn is_above(&self, other: &Row) -> bool
        ensures { IsTrue result ↔ (self.now.bottom <ℤ other.now.top) }
    {
        self.bottom < other.top
    }
}

// All edges with their rows, from the top.
pub fn from_the_top(alloc: Global, corners: &[Point]) -> Result<Vec<Row>, Memory>
    requires span { All IsInSpan corners.now }
    requires sides { All IsSide (edges_of corners.now) }
    ensures { IfOk result (λ v. AreRowsOfEdges corners.now v.items) }
{
    let mut rows = rows_of(alloc, corners)?;
    rows.sort_by_key(|row| row.top)?;
    Ok(rows)
}

// All edges with their rows, in the order of the chain.
fn rows_of(alloc: Global, corners: &[Point]) -> Result<Vec<Row>, Memory>
    requires span { All IsInSpan corners.now }
    requires sides { All IsSide (edges_of corners.now) }
    ensures { IfOk result (λ v. AreEdgeRows corners.now v.items) }
{
    let mut rows = Vec::with_capacity(alloc, corners.len())?;
    'each: for i in 0..corners.len() {
        rows.push(row_of(corners, i))?;
    }
    Ok(rows)
}

fn row_of(corners: &[Point], i: usize) -> Row
    requires within { i < length corners.now }
    requires span { All IsInSpan corners.now }
    requires sides { All IsSide (edges_of corners.now) }
    ensures row { IsRow corners.now result }
    ensures index { result.index ≡ i }
{
    let side = side_at(corners, i);
    Row {
        top: lesser(side.start.y, side.finish.y),
        bottom: greater(side.start.y, side.finish.y),
        hull: side.hull(),
        index: i,
    }
}

fn lesser(a: i64, b: i64) -> i64
    ensures first { result ≤ℤ a }
    ensures second { result ≤ℤ b }
{
    a.min(b)
}

fn greater(a: i64, b: i64) -> i64
    ensures first { a ≤ℤ result }
    ensures second { b ≤ℤ result }
{
    a.max(b)
}
