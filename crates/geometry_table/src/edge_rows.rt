// The board's edge, and what lies inside.
ghost use Rattle.std.specs.Prelude.{◌^◌, IfOk};
ghost use Rattle.std.specs.List.{All};
ghost use Rattle.plane.specs.Narrow.{IsNearZero};
ghost use Rattle.cores.specs.Room.{IsInRoom};
ghost use Rattle.islands.specs.Inside.{IsEdgeInRoom};

use crate::words::number;
use copper_shape::Edge;
use grid_num::{Memory, Point};
use islands::inside;
use std::alloc::{AllocError, Global};

// A corner that lies within half a metre, as all of the table do.
fn near(p: Point) -> Point
    ensures { IsInRoom 500000000 result }
{
    Point {
        x: p.x.max(-500_000_000).min(500_000_000),
        y: p.y.max(-500_000_000).min(500_000_000),
    }
}

fn near_edge(edge: Edge) -> Edge
    ensures { IsEdgeInRoom result }
{
    Edge {
        from: near(edge.from),
        to: near(edge.to),
        bow: edge.bow,
    }
}

fn near_edges(alloc: Global, edges: &[Edge]) -> Result<Vec<Edge>, Memory>
    ensures { IfOk result (λ v. All IsEdgeInRoom v.items) }
{
    let mut near = Vec::new(alloc);
    'each: for edge in edges {
        near.push(near_edge(*edge))?;
    }
    Ok(near)
}

/// The edge of four numbers.
pub fn edge(words: &[&str], bow: bool) -> Option<Edge> {
    let [x, y, z, w] = *words else {
        return None;
    };
    Some(Edge {
        from: Point {
            x: number(x),
            y: number(y),
        },
        to: Point {
            x: number(z),
            y: number(w),
        },
        bow,
    })
}

// A place within 2^40 of 0, as all of the table are.
fn place(x: i64, y: i64) -> Point
    ensures { IsInRoom (2 ^ 40) result }
{
    Point {
        x: x.max(-1_099_511_627_776).min(1_099_511_627_776),
        y: y.max(-1_099_511_627_776).min(1_099_511_627_776),
    }
}

/// Says whether a place is inside.
pub fn within(alloc: Global, edges: &[Edge], words: &[&str]) -> Result<Option<String>, AllocError> {
    let [x, y] = *words else {
        return Ok(None);
    };
    let Ok(edges) = near_edges(alloc, edges) else {
        return Ok(None);
    };
    let answer = if inside(&edges, place(number(x), number(y))) {
        "inside"
    } else {
        "outside"
    };
    Ok(Some(format!(in alloc; "{answer}\n")?))
}
