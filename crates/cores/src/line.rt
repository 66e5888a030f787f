// Two lines, and a point and a line: whether they come close.
ghost use Rattle.std.specs.Prelude.{◌≡◌, ◌↔◌, ◌⊎◌, ◌≤◌, pos, neg_ℤ, ◌+ℤ◌, ◌-ℤ◌, ◌*ℤ◌, ◌≤ℤ◌, ◌<ℤ◌, IsTrue};
ghost use Rattle.touching.specs.Inner.Decision.{IsPointBeside, IsPointClose, IsSquare, AreLinesCrossing, AreLinesClose, cross};
ghost use Rattle.cores.specs.Room.{IsNearZero, IsInRoom, spot};
ghost use Rattle.cores.specs.Inner.Numbers.{IsBesideBy, AreCrossesOn};

use crate::number::{cross_product, inner_product, offset};
use grid_num::Point;

// By the squared length to the point, how far the point goes along the line, the line's squared length, and how far the
// point goes across.
fn is_beside_by(a: u64, far: i128, along: i128, long: i128, across: i128) -> bool
    requires a { a ≤ 160000000000000000 }
    requires far { IsNearZero 11520000000000000000 far }
    requires along { IsNearZero 11520000000000000000 along }
    requires long { IsNearZero 11520000000000000000 long }
    requires across { IsNearZero 11520000000000000000 across }
    requires square { pos 0 ≤ℤ long }
    ensures { IsTrue result ↔ IsBesideBy a far along long across }
{
    let most = a as i128;
    if along <= 0 {
        return far <= most;
    }
    if long <= along {
        return far + long <= most + 2 * along;
    }
    across * across <= most * long
}

// A step w to the point from the line's start, and v along the line.
fn is_beside(a: u64, wx: i64, wy: i64, vx: i64, vy: i64) -> bool
    requires a { a ≤ 160000000000000000 }
    requires w { IsNearZero 2400000000 wx × IsNearZero 2400000000 wy }
    requires v { IsNearZero 2400000000 vx × IsNearZero 2400000000 vy }
    ensures { IsTrue result ↔ IsPointBeside a wx wy vx vy }
{
    let far = inner_product(wx, wy, wx, wy);
    let along = inner_product(wx, wy, vx, vy);
    let long = inner_product(vx, vy, vx, vy);
    let across = cross_product(wx, wy, vx, vy);
    is_beside_by(a, far, along, long, across)
}

// Whether p comes close to the line from s to t.
fn is_point_close(a: u64, p: Point, s: Point, t: Point) -> bool
    requires a { a ≤ 160000000000000000 }
    requires p { IsInRoom 1200000000 p }
    requires s { IsInRoom 1200000000 s }
    requires t { IsInRoom 1200000000 t }
    ensures { IsTrue result ↔ IsPointClose a (spot p) (spot s) (spot t) }
{
    is_beside(
        a,
        offset(s.x, p.x),
        offset(s.y, p.y),
        offset(s.x, t.x),
        offset(s.y, t.y),
    )
}

// Whether t and u, as parts of s, are in the unit square.
fn is_square(s: i128, t: i128, u: i128) -> bool
    ensures { IsTrue result ↔ IsSquare s t u }
{
    s > 0 && 0 <= t && t <= s && 0 <= u && u <= s
}

// The same of the three numbers turned round.
fn is_square_below(s: i128, t: i128, u: i128) -> bool
    ensures { IsTrue result ↔ IsSquare (neg_ℤ s) (neg_ℤ t) (neg_ℤ u) }
{
    s < 0 && t <= 0 && s <= t && u <= 0 && s <= u
}

// By the three cross products: of the lines, of the second with the way between, of the first with it.
fn is_crossing_by(lines: i128, first: i128, second: i128) -> bool
    ensures { IsTrue result ↔ AreCrossesOn lines first second }
{
    if lines > 0 {
        return is_square(lines, first, second);
    }
    is_square_below(lines, first, second)
}

// A step w from the second line's start to the first's, v along the first and y along the second.
fn is_crossing(wx: i64, wy: i64, vx: i64, vy: i64, yx: i64, yy: i64) -> bool
    requires w { IsNearZero 2400000000 wx × IsNearZero 2400000000 wy }
    requires v { IsNearZero 2400000000 vx × IsNearZero 2400000000 vy }
    requires y { IsNearZero 2400000000 yx × IsNearZero 2400000000 yy }
    ensures { IsTrue result ↔ AreLinesCrossing wx wy vx vy yx yy }
{
    let lines = cross_product(vx, vy, yx, yy);
    let first = cross_product(yx, yy, wx, wy);
    let second = cross_product(vx, vy, wx, wy);
    is_crossing_by(lines, first, second)
}

// Whether the line from s to t and the line from u to v have a common point that is found by crossing.
fn are_crossing(s: Point, t: Point, u: Point, v: Point) -> bool
    requires s { IsInRoom 1200000000 s }
    requires t { IsInRoom 1200000000 t }
    requires u { IsInRoom 1200000000 u }
    requires v { IsInRoom 1200000000 v }
    ensures { IsTrue result ↔ AreLinesCrossing (s.x -ℤ u.x) (s.y -ℤ u.y) (t.x -ℤ s.x) (t.y -ℤ s.y) (v.x -ℤ u.x) (v.y -ℤ u.y) }
{
    is_crossing(
        offset(u.x, s.x),
        offset(u.y, s.y),
        offset(s.x, t.x),
        offset(s.y, t.y),
        offset(u.x, v.x),
        offset(u.y, v.y),
    )
}

// Whether an end of the line from s to t comes close to the line from u to v.
fn is_end_close(a: u64, s: Point, t: Point, u: Point, v: Point) -> bool
    requires a { a ≤ 160000000000000000 }
    requires s { IsInRoom 1200000000 s }
    requires t { IsInRoom 1200000000 t }
    requires u { IsInRoom 1200000000 u }
    requires v { IsInRoom 1200000000 v }
    ensures { IsTrue result ↔ (IsPointClose a (spot s) (spot u) (spot v) ⊎ IsPointClose a (spot t) (spot u) (spot v)) }
{
    is_point_close(a, s, u, v) || is_point_close(a, t, u, v)
}

// Whether the line from s to t and the line from u to v come close: they cross, or an end of one comes close to the other.
pub fn are_lines_close(a: u64, s: Point, t: Point, u: Point, v: Point) -> bool
    requires a { a ≤ 160000000000000000 }
    requires s { IsInRoom 1200000000 s }
    requires t { IsInRoom 1200000000 t }
    requires u { IsInRoom 1200000000 u }
    requires v { IsInRoom 1200000000 v }
    ensures { IsTrue result ↔ AreLinesClose a (spot s) (spot t) (spot u) (spot v) }
{
    if are_crossing(s, t, u, v) {
        return true;
    }
    if is_end_close(a, s, t, u, v) {
        return true;
    }
    is_end_close(a, u, v, s, t)
}
