// Which points an outline covers, by the even-odd rule: go from the point straight to the left and count the sides that
// are crossed. All is compared in whole numbers, at the point's scale.
ghost use Rattle.std.specs.Prelude.{◌≡◌, ℕ, ◌<◌, ◌≤◌, ◌^◌, ◌↔◌, ◌+◌, pos, ◌-ℤ◌, ◌*ℤ◌, ◌≤ℤ◌, ◌<ℤ◌, length, IsTrue, if◌then◌else◌};
ghost use Rattle.std.specs.List.{All};
ghost use Rattle.plane.specs.Plane.{PlanePoint};
ghost use Rattle.plane.specs.Narrow.{IsNearZero};
ghost use Rattle.plane.specs.Covering.{IsOn, IsOdd, Between, Covers, crossing, down_crossing, edges_of};
ghost use Rattle.outline_slab.specs.Rules.{IsInSpan, IsPointWithin};
ghost use Rattle.outline_slab.specs.Inner.Side.{side_edge};
ghost use Rattle.outline_slab.specs.Places.{IsPlaceAt};

use crate::Outline;
use crate::side::{Side, both, side_at};
use grid_num::Point;

impl Outline {
    /// Whether the outline covers the place `(p.x / scale, p.y / scale)`, its edges counted in.
    pub fn covers(&self, p: Point, scale: u32) -> bool
        requires some { 1 ≤ scale }
        requires fine { scale ≤ 1024 }
        requires reach { IsPointWithin (2 ^ 50) p }
        ensures { (q : PlanePoint) → IsPlaceAt p scale q → IsTrue result ↔ Covers (edges_of self.now) q }
    {
        is_covered(self.vertices.as_slice(), p, scale)
    }
}

fn is_covered(corners: &[Point], p: Point, scale: u32) -> bool
    requires fine { scale ≤ 1024 }
    requires reach { IsPointWithin (2 ^ 50) p }
    requires span { All IsInSpan corners.now }
    ensures { (q : PlanePoint) → IsPlaceAt p scale q → IsTrue result ↔ Covers (edges_of corners.now) q }
{
    let mut inside = false;
    'each: for i in 0..corners.len() {
        let side = side_at(corners, i);
        if side.passes(p, scale) {
            return true;
        }
        inside = flipped(inside, side.crosses_row(p, scale));
    }
    inside
}

// The parity after one more side, that is crossed or not.
fn flipped(odd: bool, crossed: bool) -> bool
    ensures { (n : ℕ) → IsTrue odd ↔ IsOdd n → IsTrue result ↔ IsOdd (n + (if crossed then 1 else 0)) }
{
    odd != crossed
}

// The two products that are equal on the line of a side, and whose order tells on which hand of it a point lies.
#[derive(Clone, Copy)]
struct Lean {
    run: i128,
    rise: i128,
}

impl Side {
    // Whether the place is on the side.
    fn passes(self, p: Point, scale: u32) -> bool
        requires start { IsInSpan self.start }
        requires finish { IsInSpan self.finish }
        requires fine { scale ≤ 1024 }
        requires reach { IsPointWithin (2 ^ 50) p }
        ensures { (q : PlanePoint) → IsPlaceAt p scale q → IsTrue result ↔ IsOn (side_edge self) q }
    {
        let line = self.lean(p, scale).is_line();
        let across = is_between(p.x, scale, self.start.x, self.finish.x);
        let along = is_between(p.y, scale, self.start.y, self.finish.y);
        both(line, both(across, along))
    }

    // Whether the side crosses the row of the place strictly to its left. Its end of lesser y counts, the other doesn't.
    fn crosses_row(self, p: Point, scale: u32) -> bool
        requires start { IsInSpan self.start }
        requires finish { IsInSpan self.finish }
        requires fine { scale ≤ 1024 }
        requires reach { IsPointWithin (2 ^ 50) p }
        ensures { (q : PlanePoint) → IsPlaceAt p scale q → crossing q (side_edge self) ≡ (if result then 1 else 0) }
    {
        if self.start.y <= self.finish.y {
            self.crosses_down(p, scale)
        } else {
            self.turned().crosses_down(p, scale)
        }
    }

    // The same for a side that goes down.
    fn crosses_down(self, p: Point, scale: u32) -> bool
        requires start { IsInSpan self.start }
        requires finish { IsInSpan self.finish }
        requires fine { scale ≤ 1024 }
        requires reach { IsPointWithin (2 ^ 50) p }
        ensures { (q : PlanePoint) → IsPlaceAt p scale q → down_crossing self.start self.finish q ≡ (if result then 1 else 0) }
    {
        let begun = is_from(p.y, scale, self.start.y);
        let open = is_before(p.y, scale, self.finish.y);
        let left = self.lean(p, scale).is_left();
        both(begun, both(open, left))
    }

    fn lean(self, p: Point, scale: u32) -> Lean
        requires start { IsInSpan self.start }
        requires finish { IsInSpan self.finish }
        requires fine { scale ≤ 1024 }
        requires reach { IsPointWithin (2 ^ 50) p }
        ensures run { result.run ≡ (self.finish.x -ℤ self.start.x) *ℤ (p.y -ℤ pos scale *ℤ self.start.y) }
        ensures rise { result.rise ≡ (self.finish.y -ℤ self.start.y) *ℤ (p.x -ℤ pos scale *ℤ self.start.x) }
    {
        let right = offset(p.x, scale, self.start.x);
        let down = offset(p.y, scale, self.start.y);
        Lean {
            run: product(self.run(), down),
            rise: product(self.rise(), right),
        }
    }
}

impl Lean {
    fn is_line(self) -> bool
        ensures { IsTrue result ↔ (self.rise ≡ self.run) }
    {
        self.rise == self.run
    }

    fn is_left(self) -> bool
        ensures { IsTrue result ↔ (self.run <ℤ self.rise) }
    {
        self.run < self.rise
    }
}

// How far z is from a whole number, at the scale.
fn offset(z: i64, scale: u32, from: i64) -> i64
    requires fine { scale ≤ 1024 }
    requires reach { IsNearZero (2 ^ 50) z }
    requires near { IsNearZero 500000000 from }
    ensures value { result ≡ z -ℤ pos scale *ℤ from }
    ensures range { IsNearZero (2 ^ 51) result }
{
    z - scaled(scale, from)
}

fn scaled(scale: u32, from: i64) -> i64
    requires fine { scale ≤ 1024 }
    requires near { IsNearZero 500000000 from }
    ensures value { result ≡ pos scale *ℤ from }
    ensures range { IsNearZero (2 ^ 50) result }
{
    i64::from(scale) * from
}

fn product(way: i64, offset: i64) -> i128
    requires way { IsNearZero 1000000000 way }
    requires offset { IsNearZero (2 ^ 51) offset }
    ensures { result ≡ way *ℤ offset }
{
    i128::from(way) * i128::from(offset)
}

// Whether z is between the two, at the scale.
fn is_between(z: i64, scale: u32, a: i64, b: i64) -> bool
    requires fine { scale ≤ 1024 }
    requires reach { IsNearZero (2 ^ 50) z }
    requires first { IsNearZero 500000000 a }
    requires second { IsNearZero 500000000 b }
    ensures { IsTrue result ↔ Between (pos scale *ℤ a) (pos scale *ℤ b) z }
{
    let a = scaled(scale, a);
    let b = scaled(scale, b);
    if z > a {
        z <= b
    } else if z < a {
        b <= z
    } else {
        true
    }
}

// Whether z is at least the number, at the scale.
fn is_from(z: i64, scale: u32, low: i64) -> bool
    requires fine { scale ≤ 1024 }
    requires low { IsNearZero 500000000 low }
    ensures { IsTrue result ↔ (pos scale *ℤ low) ≤ℤ z }
{
    scaled(scale, low) <= z
}

// Whether z is less than the number, at the scale.
fn is_before(z: i64, scale: u32, high: i64) -> bool
    requires fine { scale ≤ 1024 }
    requires high { IsNearZero 500000000 high }
    ensures { IsTrue result ↔ z <ℤ (pos scale *ℤ high) }
{
    z < scaled(scale, high)
}
