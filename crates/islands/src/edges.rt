// What lies inside the board's edge, by the even-odd rule: go from the place straight to the left, and count the edges
// that are crossed. All is compared in nanometres.
ghost use Rattle.std.specs.Prelude.{◌≡◌, ◌^◌, ◌↔◌, ℕ, ◌+◌, map, pos, ◌-ℤ◌, ◌*ℤ◌, ◌≤ℤ◌, ◌<ℤ◌, ◌⊎◌, IsTrue, if◌then◌else◌};
ghost use Rattle.std.specs.List.{All};
ghost use Rattle.plane.specs.Plane.{grid_point};
ghost use Rattle.plane.specs.Narrow.{IsNearZero};
ghost use Rattle.plane.specs.Covering.{IsOdd, crossing, crossings, down_crossing};
ghost use Rattle.cores.specs.Room.{IsInRoom};
ghost use Rattle.islands.specs.Inside.{IsWithinEdges, IsEdgeInRoom, crossed};

use copper_shape::Edge;
use grid_num::Point;

/// Whether the place, in units, is inside the board: the board has no edge, or an odd number of its edges, in nanometres,
/// cross the place's row strictly to its left. Of an edge the end of lesser y counts and the other doesn't, and an arc counts
/// as its chord.
pub fn inside(edges: &[Edge], at: Point) -> bool
    requires edges { All IsEdgeInRoom edges.now }
    requires at { IsInRoom (2 ^ 40) at }
    ensures { IsTrue result ↔ IsWithinEdges edges.now at }
{
    either(edges.is_empty(), is_odd(edges, at))
}

// Whether one of the tests holds.
pub fn either(first: bool, second: bool) -> bool
    ensures { IsTrue result ↔ (IsTrue first ⊎ IsTrue second) }
{
    first || second
}

// Whether the row is crossed by an odd number of the edges.
fn is_odd(edges: &[Edge], at: Point) -> bool
    requires edges { All IsEdgeInRoom edges.now }
    requires at { IsInRoom (2 ^ 40) at }
    ensures { IsTrue result ↔ IsOdd (crossings (map crossed edges.now) (grid_point (pos 2 *ℤ at.x) (pos 2 *ℤ at.y))) }
{
    let mut odd = false;
    'each: for edge in edges {
        odd = flipped(odd, crosses(*edge, at));
    }
    odd
}

// The parity after one more edge, that is crossed or not.
fn flipped(odd: bool, crossed: bool) -> bool
    ensures { (n : ℕ) → IsTrue odd ↔ IsOdd n → IsTrue result ↔ IsOdd (n + (if crossed then 1 else 0)) }
{
    odd != crossed
}

// Whether the edge crosses the row strictly to the left of the place.
fn crosses(edge: Edge, at: Point) -> bool
    requires edge { IsEdgeInRoom edge }
    requires at { IsInRoom (2 ^ 40) at }
    ensures { crossing (grid_point (pos 2 *ℤ at.x) (pos 2 *ℤ at.y)) (crossed edge) ≡ (if result then 1 else 0) }
{
    if edge.from.y <= edge.to.y {
        crosses_down(edge.from, edge.to, at)
    } else {
        crosses_down(edge.to, edge.from, at)
    }
}

// Whether the way down from a to b does.
fn crosses_down(a: Point, b: Point, at: Point) -> bool
    requires a { IsInRoom 500000000 a }
    requires b { IsInRoom 500000000 b }
    requires at { IsInRoom (2 ^ 40) at }
    ensures { down_crossing a b (grid_point (pos 2 *ℤ at.x) (pos 2 *ℤ at.y)) ≡ (if result then 1 else 0) }
{
    let begun = is_from(at.y, a.y);
    let open = is_before(at.y, b.y);
    let left = is_left(a, b, at);
    both(begun, both(open, left))
}

// Whether both tests hold.
fn both(first: bool, second: bool) -> bool
    ensures { IsTrue result ↔ (IsTrue first × IsTrue second) }
{
    first && second
}

// Whether the number, in units, is no less than the other, in nanometres.
fn is_from(at: i64, low: i64) -> bool
    requires at { IsNearZero (2 ^ 40) at }
    requires low { IsNearZero 500000000 low }
    ensures { IsTrue result ↔ (low ≤ℤ (pos 2 *ℤ at)) }
{
    0 <= offset(at, low)
}

// Whether it is less.
fn is_before(at: i64, high: i64) -> bool
    requires at { IsNearZero (2 ^ 40) at }
    requires high { IsNearZero 500000000 high }
    ensures { IsTrue result ↔ ((pos 2 *ℤ at) <ℤ high) }
{
    offset(at, high) < 0
}

// Whether the way from a to b, on the row of the place, is to its left.
fn is_left(a: Point, b: Point, at: Point) -> bool
    requires a { IsInRoom 500000000 a }
    requires b { IsInRoom 500000000 b }
    requires at { IsInRoom (2 ^ 40) at }
    ensures { IsTrue result ↔ (((b.x -ℤ a.x) *ℤ ((pos 2 *ℤ at.y) -ℤ a.y)) <ℤ ((b.y -ℤ a.y) *ℤ ((pos 2 *ℤ at.x) -ℤ a.x))) }
{
    let run = area(a.x, b.x, at.y, a.y);
    let rise = area(a.y, b.y, at.x, a.x);
    is_less(run, rise)
}

fn is_less(run: i128, rise: i128) -> bool
    ensures { IsTrue result ↔ (run <ℤ rise) }
{
    run < rise
}

// How far it is from the one number to the other, times how far the place is from its row.
fn area(from: i64, to: i64, at: i64, row: i64) -> i128
    requires from { IsNearZero 500000000 from }
    requires to { IsNearZero 500000000 to }
    requires at { IsNearZero (2 ^ 40) at }
    requires row { IsNearZero 500000000 row }
    ensures { result ≡ (to -ℤ from) *ℤ ((pos 2 *ℤ at) -ℤ row) }
{
    product(way(from, to), offset(at, row))
}

// How far the number, in units, is from the other, in nanometres.
fn offset(at: i64, from: i64) -> i64
    requires at { IsNearZero (2 ^ 40) at }
    requires from { IsNearZero 500000000 from }
    ensures value { result ≡ (pos 2 *ℤ at) -ℤ from }
    ensures range { IsNearZero (2 ^ 42) result }
{
    2 * at - from
}

// How far it is from the one number to the other.
fn way(from: i64, to: i64) -> i64
    requires from { IsNearZero 500000000 from }
    requires to { IsNearZero 500000000 to }
    ensures value { result ≡ to -ℤ from }
    ensures range { IsNearZero 1000000000 result }
{
    to - from
}

fn product(way: i64, offset: i64) -> i128
    requires way { IsNearZero 1000000000 way }
    requires offset { IsNearZero (2 ^ 42) offset }
    ensures { result ≡ way *ℤ offset }
{
    i128::from(way) * i128::from(offset)
}
