// The next edge of a walk: of those that go out where an edge ends, the one that is met first when one turns counterclockwise from the way back.
ghost use Rattle.std.specs.Prelude.{◌≡◌, ◌≤◌, ◌<◌, length, IfOk};
ghost use Rattle.std.specs.List.Sorted.{IsPermutation};
ghost use Rattle.sheet_trace.specs.Next.{AreByStart, HasNext, IsNextAt, is_before, heading, turn_between};

use crate::edge::BoundaryEdge;
use grid_num::{Memory, Point};

/// The edges by where they begin: from the top, and in each row from the left. `next_place` searches in them.
///
/// # Errors
///
/// Refuses for want of memory alone.
pub fn by_start(mut edges: Vec<BoundaryEdge>) -> Result<Vec<BoundaryEdge>, Memory>
    ensures edges { IfOk result (λ v. IsPermutation edges.items v.items) }
    ensures order { IfOk result (λ v. AreByStart v.items) }
{
    edges.sort_by_key(|edge| (edge.start.y, edge.start.x))?;
    Ok(edges)
}

// Whether a comes before b: by y, and then by x.
#[tactic(auto, unfolding(crate::specs::Next::is_before))]
pub fn is_before(a: Point, b: Point) -> bool
    ensures { result ≡ is_before a b }
{
    a.y < b.y || a.y == b.y && a.x < b.x
}

// The direction of an edge in eighths of a turn, counterclockwise from due right.
#[tactic(auto, unfolding(crate::specs::Next::heading))]
pub fn heading(edge: &BoundaryEdge) -> u32
    ensures value { result ≡ heading edge.now }
    ensures eighths { result < 8 }
{
    if edge.start.x < edge.finish.x {
        if edge.finish.y < edge.start.y {
            1
        } else if edge.start.y < edge.finish.y {
            7
        } else {
            0
        }
    } else if edge.finish.x < edge.start.x {
        if edge.finish.y < edge.start.y {
            3
        } else if edge.start.y < edge.finish.y {
            5
        } else {
            4
        }
    } else if edge.finish.y < edge.start.y {
        2
    } else {
        6
    }
}

// How far one turns from the way back along one edge to the way on along another, in eighths of a turn.
#[tactic(auto, unfolding(crate::specs::Next::turn_between))]
pub fn turn(comes: &BoundaryEdge, goes: &BoundaryEdge) -> u32
    ensures { result ≡ turn_between comes.now goes.now }
{
    (heading(goes) + 11 - heading(comes)) % 8 + 1
}

/// The place of the next edge after an edge. The edges are listed by where they begin, and one of them is the next one.
pub fn next_place(edges: &[BoundaryEdge], edge: &BoundaryEdge) -> usize
    requires order { AreByStart edges.now }
    requires some { HasNext edges.now edge.now }
    ensures within { result < length edges.now }
    ensures next { IsNextAt edges.now edge.now result }
{
    let first = edges.partition_point(|other| is_before(other.start, edge.finish));
    let end = edges.partition_point(|other| !is_before(edge.finish, other.start));
    let mut best = first;
    'each: for place in first + 1..end {
        if turn(edge, &edges[place]) < turn(edge, &edges[best]) {
            best = place;
        }
    }
    best
}
