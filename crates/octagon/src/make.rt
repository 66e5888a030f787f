// Octagons from bounds, from points, from a radius, and from the inside of another.
ghost use Rattle.std.specs.Prelude.{◌≡◌, ℕ, ◌<◌, ◌≤◌, ◌^◌, ◌↔◌, ℤ, length, IsNone, IfSome};
ghost use Rattle.std.specs.List.{All};
ghost use Rattle.plane.specs.Plane.{Bounds, PlanePoint, Within, In, StrictlyWithin, IsOct, ball_of};
ghost use Rattle.octagon.specs.Bounded.{bounds_of, AreInRange, IsInReach};
ghost use Rattle.octagon.specs.Inner.Hull.{IsOctAt, IsWidened};

use crate::Oct;
use crate::eight::Eight;
use crate::narrow::tightened;
use grid_num::{Point, up2};

impl Oct {
    /// The octagon of the grid points that satisfy all eight bounds, in the order x, y, x + y, x - y, the lower bound
    /// first. None exactly where no grid point does.
    pub fn of_bounds(bounds: [i64; 8]) -> Option<Oct>
        requires { AreInRange (bounds_of bounds) }
        ensures none { IsNone result ↔ ((x y : ℤ) → ¬ (Within (bounds_of bounds) x y)) }
        ensures points { IfSome result (λ o. (x y : ℤ) → Within o x y ↔ Within (bounds_of bounds) x y) }
        ensures oct { IfSome result (λ o. IsOct o) }
    {
        let [x0, x1, y0, y1, s0, s1, d0, d1] = bounds;
        tightened(&Eight {
            x0,
            x1,
            y0,
            y1,
            s0,
            s1,
            d0,
            d1,
        })
    }

    /// The least tight octagon that holds all the points. Each other octagon that holds them contains it.
    pub fn of_points(points: &[Point]) -> Oct
        requires some { 0 < length points.now }
        requires reach { All IsInReach points.now }
        ensures holds { All (λ q. Within result q.x q.y) points.now }
        ensures least { (b : Bounds) (p : PlanePoint) → All (λ q. Within b q.x q.y) points.now → In result p → In b p }
        ensures oct { IsOct result }
    {
        let mut hull = Oct::of_point(points[0]);
        'points: for p in points {
            hull = hull.widened(*p);
        }
        hull
    }

    /// The octagon that stands for the disc of radius a round 0, and contains it.
    pub fn ball(a: u32) -> Oct
        requires { a ≤ 2 ^ 31 }
        ensures { result ≡ ball_of a }
    {
        let slanted = up2(a as u64) as i64;
        let straight = a as i64;
        Oct {
            x0: -straight,
            x1: straight,
            y0: -straight,
            y1: straight,
            s0: -slanted,
            s1: slanted,
            d0: -slanted,
            d1: slanted,
        }
    }

    /// The octagon of the grid points strictly inside. None exactly where there are none.
    pub fn opened(&self) -> Option<Oct>
        ensures none { IsNone result ↔ ((x y : ℤ) → ¬ (StrictlyWithin self.now x y)) }
        ensures points { IfSome result (λ o. (x y : ℤ) → Within o x y ↔ StrictlyWithin self.now x y) }
        ensures oct { IfSome result (λ o. IsOct o) }
    {
        tightened(&Eight {
            x0: self.x0 + 1,
            x1: self.x1 - 1,
            y0: self.y0 + 1,
            y1: self.y1 - 1,
            s0: self.s0 + 1,
            s1: self.s1 - 1,
            d0: self.d0 + 1,
            d1: self.d1 - 1,
        })
    }

    // The one point.
    fn of_point(p: Point) -> Oct
        requires { IsInReach p }
        ensures at { IsOctAt result p.x p.y }
        ensures oct { IsOct result }
    {
        Oct {
            x0: p.x,
            x1: p.x,
            y0: p.y,
            y1: p.y,
            s0: p.x + p.y,
            s1: p.x + p.y,
            d0: p.x - p.y,
            d1: p.x - p.y,
        }
    }

    // The least octagon that also holds p.
    fn widened(&self, p: Point) -> Oct
        requires { IsInReach p }
        ensures widened { IsWidened self.now p.x p.y result }
        ensures oct { IsOct result }
    {
        let sum = p.x + p.y;
        let difference = p.x - p.y;
        Oct {
            x0: self.x0.min(p.x),
            x1: self.x1.max(p.x),
            y0: self.y0.min(p.y),
            y1: self.y1.max(p.y),
            s0: self.s0.min(sum),
            s1: self.s1.max(sum),
            d0: self.d0.min(difference),
            d1: self.d1.max(difference),
        }
    }
}
