// Whether a walk goes around a hole: at its least corner there is copper on the left.
ghost use Rattle.std.specs.Prelude.{◌≡◌, ◌<◌, length};
ghost use Rattle.rings.specs.Inner.Tracing.{is_open_left, some_visit};
ghost use Rattle.rings.specs.Walks.{visits, visits_after};
ghost use Rattle.sheet_trace.specs.Edges.{edge_of, edges_in};
ghost use Rattle.sheet_trace.specs.Inner.Turns.{lesser_corner, least_start, opens_at, turn_left};
ghost use Rattle.sheet_trace.specs.Inner.Visits.{visit_of};

use crate::edge::BoundaryEdge;
use crate::next::{heading, is_before, turn};
use crate::order::is_same;
use grid_num::Point;

// The lesser of two corners: by y, and then by x.
#[tactic(auto, unfolding(crate::specs::Inner::Turns::lesser_corner))]
fn lesser(a: Point, b: Point) -> Point
    ensures { result ≡ lesser_corner a b }
{
    if is_before(b, a) { b } else { a }
}

// The least of a corner and those at which the edges begin.
fn least_corner(walk: &[BoundaryEdge], first: Point) -> Point
    ensures { result ≡ least_start first walk.now }
{
    let mut least = first;
    'each: for edge in walk {
        least = lesser(least, edge.start);
    }
    least
}

// How far one turns from the way back along an edge until one looks due left, in eighths of a turn.
#[tactic(auto, unfolding(crate::specs::Inner::Turns::turn_left))]
fn turn_left(edge: &BoundaryEdge) -> u32
    ensures { result ≡ turn_left edge.now }
{
    (15 - heading(edge)) % 8 + 1
}

// Whether the visit is to that corner, and turning there from the way back to the way on one passes due left.
fn opens_at(at: Point, comes: &BoundaryEdge, goes: &BoundaryEdge) -> bool
    ensures { result ≡ opens_at at (visit_of comes.now goes.now) }
{
    is_same(goes.start, at) && turn_left(comes) < turn(comes, goes)
}

// Whether one of the visits does, where one comes to the first edge by the last.
fn opens(walk: &[BoundaryEdge], last: BoundaryEdge, at: Point) -> bool
    ensures { result ≡ some_visit (opens_at at) (visits_after (edge_of last) (edges_in walk.now)) }
{
    let mut comes = last;
    'each: for goes in walk {
        if opens_at(at, &comes, goes) {
            return true;
        }
        comes = *goes;
    }
    false
}

/// Whether the walk goes around a hole: at a visit to its least corner it passes due left, turning from the way back to the way on.
pub fn is_hole(walk: &[BoundaryEdge]) -> bool
    ensures { result ≡ some_visit (is_open_left (edges_in walk.now)) (visits (edges_in walk.now)) }
{
    if walk.is_empty() {
        return false;
    }
    let at = least_corner(walk, walk[0].start);
    opens(walk, walk[walk.len() - 1], at)
}
