// The slit of a hole: from its first corner to the left, as far as the nearest edge that begins in the same row.
ghost use Rattle.std.specs.Prelude.{◌≡◌};
ghost use Rattle.rings.specs.Inner.Tracing.{slit_by};
ghost use Rattle.sheet_trace.specs.Edges.{edge_of, edges_in};
ghost use Rattle.sheet_trace.specs.Next.{AreByStart};
ghost use Rattle.sheet_trace.specs.Inner.Turns.{x_by, reached};

use crate::edge::BoundaryEdge;
use crate::next::is_before;
use grid_num::Point;

// The other corner's x, if that is in the same row; otherwise the corner's own.
#[tactic(auto, unfolding(crate::specs::Inner::Turns::x_by))]
fn x_by(from: Point, last: Point) -> i64
    ensures { result ≡ x_by from last }
{
    if last.y == from.y { last.x } else { from.x }
}

// The greatest x on the left of the corner at which one of the edges begins in its row; the corner's own x if none does.
fn reached(edges: &[BoundaryEdge], from: Point) -> i64
    requires { AreByStart edges.now }
    ensures { result ≡ reached (edges_in edges.now) from }
{
    let place = edges.partition_point(|edge| is_before(edge.start, from));
    if place == 0 {
        return from.x;
    }
    x_by(from, edges[place - 1].start)
}

/// The slit that goes left from the corner as far as the nearest start of an edge in its row. The edges are listed by where they begin.
#[tactic(auto, unfolding(rings::specs::Inner::Tracing::slit_by, crate::specs::Inner::Turns::reached))]
pub fn slit(edges: &[BoundaryEdge], from: Point) -> BoundaryEdge
    requires { AreByStart edges.now }
    ensures { edge_of result ≡ slit_by (edges_in edges.now) from }
{
    BoundaryEdge {
        start: from,
        finish: Point {
            x: reached(edges, from),
            y: from.y,
        },
    }
}
