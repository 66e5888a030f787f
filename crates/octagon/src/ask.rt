// What is asked of octagons: a point, a meeting, a distance.
ghost use Rattle.std.specs.Prelude.{ℕ, ◌≤◌, ◌^◌, ◌↔◌, ◌-ℤ◌, ◌≤ℤ◌, ◌<ℤ◌, IsTrue};
ghost use Rattle.plane.specs.Plane.{In, IsMeeting, AreNear, grid_point};
ghost use Rattle.octagon.specs.Bounded.{IsNearZero, IsInReach};

use crate::Oct;
use grid_num::{Point, up2};

impl Oct {
    /// Whether the point is in the octagon, its edge counted in.
    pub fn holds(&self, p: Point) -> bool
        requires { IsInReach p }
        ensures { IsTrue result ↔ In self.now (grid_point p.x p.y) }
    {
        let x = between(self.x0, self.x1, p.x);
        let y = between(self.y0, self.y1, p.y);
        let s = between(self.s0, self.s1, p.x + p.y);
        let d = between(self.d0, self.d1, p.x - p.y);
        all(x, y, s, d)
    }

    /// Whether some point of the plane is in both, a point of their edges counted in.
    pub fn meets(&self, other: &Oct) -> bool
        ensures { IsTrue result ↔ IsMeeting self.now other.now }
    {
        let x = overlap(self.x0, self.x1, other.x0, other.x1);
        let y = overlap(self.y0, self.y1, other.y0, other.y1);
        let s = overlap(self.s0, self.s1, other.s0, other.s1);
        let d = overlap(self.d0, self.d1, other.d0, other.d1);
        all(x, y, s, d)
    }

    /// Whether the two keep the need: no point of the one is near, at the need, to a point of the other.
    pub fn apart(&self, other: &Oct, need: u32) -> bool
        requires some { 1 ≤ need }
        requires room { need ≤ 2 ^ 31 }
        ensures { IsTrue result ↔ ¬ (AreNear need self.now other.now) }
    {
        let straight = need as i64;
        let slanted = up2(need as u64) as i64;
        let x = closer(self.x0, self.x1, other.x0, other.x1, straight);
        let y = closer(self.y0, self.y1, other.y0, other.y1, straight);
        let s = closer(self.s0, self.s1, other.s0, other.s1, slanted);
        let d = closer(self.d0, self.d1, other.d0, other.d1, slanted);
        !all(x, y, s, d)
    }
}

// Whether the number is in the range.
fn between(low: i64, high: i64, value: i64) -> bool
    ensures { IsTrue result ↔ ((low ≤ℤ value) × (value ≤ℤ high)) }
{
    low <= value && value <= high
}

// Whether the two ranges have a common number.
fn overlap(a0: i64, a1: i64, b0: i64, b1: i64) -> bool
    ensures { IsTrue result ↔ ((a0 ≤ℤ b1) × (b0 ≤ℤ a1)) }
{
    a0 <= b1 && b0 <= a1
}

// Whether two numbers of the ranges differ by less than the need.
fn closer(a0: i64, a1: i64, b0: i64, b1: i64, need: i64) -> bool
    requires low { IsNearZero (2 ^ 42) a0 × IsNearZero (2 ^ 42) b0 }
    requires high { IsNearZero (2 ^ 42) a1 × IsNearZero (2 ^ 42) b1 }
    ensures { IsTrue result ↔ (((a0 -ℤ b1) <ℤ need) × ((b0 -ℤ a1) <ℤ need)) }
{
    a0 - b1 < need && b0 - a1 < need
}

// One test for each direction, so that no join nests.
pub fn all(x: bool, y: bool, s: bool, d: bool) -> bool
    ensures { IsTrue result ↔ (IsTrue x × IsTrue y × IsTrue s × IsTrue d) }
{
    x && y && s && d
}
