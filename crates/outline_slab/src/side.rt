// The edges of a closed chain of corners.
ghost use Rattle.std.specs.Prelude.{◌≡◌, ℕ, ◌<◌, ◌≤◌, ◌↔◌, length, IsTrue, pos, neg_ℤ, ◌-ℤ◌, ◌≤ℤ◌};
ghost use Rattle.std.specs.List.{All};
ghost use Rattle.plane.specs.Plane.{PlanePoint, In};
ghost use Rattle.plane.specs.Narrow.{IsNearZero};
ghost use Rattle.plane.specs.Covering.{IsOn};
ghost use Rattle.plane.specs.Edges.{IsOctilinear};
ghost use Rattle.outline_slab.specs.Rules.{IsInSpan, IsSide, edge};
ghost use Rattle.outline_slab.specs.Inner.Side.{side_edge, IsSameSign, IsEighth};

use grid_num::Point;
use octagon::Oct;

/// The straight way from one corner to the next.
#[derive(Clone, Copy)]
pub struct Side {
    pub start: Point,
    pub finish: Point,
}

// Edge i: from corner i to the next one, the last edge to the first corner.
pub fn side_at(corners: &[Point], i: usize) -> Side
    requires within { i < length corners.now }
    requires span { All IsInSpan corners.now }
    ensures edge { side_edge result ≡ edge corners.now i }
    ensures start { IsInSpan result.start }
    ensures finish { IsInSpan result.finish }
{
    edge_at(corners, i)
}

// The same for corners anywhere.
pub fn edge_at(corners: &[Point], i: usize) -> Side
    requires within { i < length corners.now }
    ensures { side_edge result ≡ edge corners.now i }
{
    let next = if i + 1 < corners.len() { i + 1 } else { 0 };
    Side {
        start: corners[i],
        finish: corners[next],
    }
}

impl Side {
    // How far the side goes to the right.
    pub fn run(self) -> i64
        requires start { IsInSpan self.start }
        requires finish { IsInSpan self.finish }
        ensures value { result ≡ self.finish.x -ℤ self.start.x }
        ensures range { IsNearZero 1000000000 result }
    {
        self.finish.x - self.start.x
    }

    // How far it goes down.
    pub fn rise(self) -> i64
        requires start { IsInSpan self.start }
        requires finish { IsInSpan self.finish }
        ensures value { result ≡ self.finish.y -ℤ self.start.y }
        ensures range { IsNearZero 1000000000 result }
    {
        self.finish.y - self.start.y
    }

    // Whether it goes somewhere, and level, upright or slanted by 45 degrees.
    pub fn is_right(self) -> bool
        requires start { IsInSpan self.start }
        requires finish { IsInSpan self.finish }
        ensures { IsTrue result ↔ IsSide (side_edge self) }
    {
        let run = self.run();
        let rise = self.rise();
        both(goes(run, rise), is_eighth(run, rise))
    }

    // The octagon that has just the points of the side.
    pub fn hull(self) -> Oct
        requires start { IsInSpan self.start }
        requires finish { IsInSpan self.finish }
        requires octilinear { IsOctilinear (side_edge self) }
        ensures { (p : PlanePoint) → In result p ↔ IsOn (side_edge self) p }
    {
        Oct::of_points(&[self.start, self.finish])
    }

    // The same side the other way.
    pub fn turned(self) -> Side
        ensures start { result.start ≡ self.finish }
        ensures finish { result.finish ≡ self.start }
    {
        Side {
            start: self.finish,
            finish: self.start,
        }
    }

    // Whether the next side goes back where this one came from.
    pub fn is_folded(self, next: Side) -> bool
        requires start { IsInSpan self.start }
        requires finish { IsInSpan self.finish }
        requires next_start { IsInSpan next.start }
        requires next_finish { IsInSpan next.finish }
        ensures { IsTrue result ↔ (IsSameSign (self.start.x -ℤ self.finish.x) (next.finish.x -ℤ next.start.x) × IsSameSign (self.start.y -ℤ self.finish.y) (next.finish.y -ℤ next.start.y)) }
    {
        let back = self.turned();
        let across = same_sign(back.run(), next.run());
        let along = same_sign(back.rise(), next.rise());
        both(across, along)
    }
}

// Whether a way of that run and rise leaves its start.
fn goes(run: i64, rise: i64) -> bool
    ensures { IsTrue result ↔ (run ≡ pos 0 → rise ≡ pos 0 → ⊥) }
{
    run != 0 || rise != 0
}

// Whether it is level, upright or slanted by 45 degrees.
fn is_eighth(run: i64, rise: i64) -> bool
    requires { IsNearZero 1000000000 rise }
    ensures { IsTrue result ↔ IsEighth run rise }
{
    if rise == 0 || run == 0 {
        return true;
    }
    run == rise || run == -rise
}

// Whether the two lie on the same side of 0.
fn same_sign(u: i64, v: i64) -> bool
    ensures { IsTrue result ↔ IsSameSign u v }
{
    if u > 0 {
        v > 0
    } else if u < 0 {
        v < 0
    } else {
        v == 0
    }
}

// Whether both tests hold.
pub fn both(first: bool, second: bool) -> bool
    ensures { IsTrue result ↔ (IsTrue first × IsTrue second) }
{
    first && second
}
