// Octagons moved and added up, and the corners of one.
ghost use Rattle.std.specs.Prelude.{◌≡◌, ◌↔◌};
ghost use Rattle.plane.specs.Plane.{PlanePoint, In, HasRoom, IsInSum, sum_of, moved, minus, grid_point};
ghost use Rattle.plane.specs.Covering.{Covers, edges_of};
ghost use Rattle.plane.specs.Corners.{corners_of, without_repeats};
ghost use Rattle.octagon.specs.Bounded.{IsInReach};

use crate::Oct;
use grid_num::Point;

impl Oct {
    /// The octagon moved by p: to the right by its x and down by its y.
    pub fn shift(&self, p: Point) -> Oct
        requires reach { IsInReach p }
        requires room { HasRoom (moved self.now p.x p.y) }
        ensures points { (q : PlanePoint) → In result q ↔ In self.now (minus q (grid_point p.x p.y)) }
        ensures value { result ≡ moved self.now p.x p.y }
    {
        let sum = p.x + p.y;
        let difference = p.x - p.y;
        Oct {
            x0: self.x0 + p.x,
            x1: self.x1 + p.x,
            y0: self.y0 + p.y,
            y1: self.y1 + p.y,
            s0: self.s0 + sum,
            s1: self.s1 + sum,
            d0: self.d0 + difference,
            d1: self.d1 + difference,
        }
    }

    /// All points that are a point of the one plus a point of the other.
    pub fn sum(&self, other: &Oct) -> Oct
        requires { HasRoom (sum_of self.now other.now) }
        ensures points { (p : PlanePoint) → In result p ↔ IsInSum self.now other.now p }
        ensures value { result ≡ sum_of self.now other.now }
    {
        Oct {
            x0: self.x0 + other.x0,
            x1: self.x1 + other.x1,
            y0: self.y0 + other.y0,
            y1: self.y1 + other.y1,
            s0: self.s0 + other.s0,
            s1: self.s1 + other.s1,
            d0: self.d0 + other.d0,
            d1: self.d1 + other.d1,
        }
    }

    /// The corners, clockwise on the screen, from the left end of the top edge; coinciding corners are repeated.
    /// Without the repeats they are a ring that covers exactly the octagon.
    pub fn corners(&self) -> [Point; 8]
        ensures value { result ≡ corners_of self.now }
        ensures cover { (p : PlanePoint) → Covers (edges_of (without_repeats result)) p ↔ In self.now p }
    {
        [
            Point {
                x: self.s0 - self.y0,
                y: self.y0,
            },
            Point {
                x: self.d1 + self.y0,
                y: self.y0,
            },
            Point {
                x: self.x1,
                y: self.x1 - self.d1,
            },
            Point {
                x: self.x1,
                y: self.s1 - self.x1,
            },
            Point {
                x: self.s1 - self.y1,
                y: self.y1,
            },
            Point {
                x: self.d0 + self.y1,
                y: self.y1,
            },
            Point {
                x: self.x0,
                y: self.x0 - self.d0,
            },
            Point {
                x: self.x0,
                y: self.s0 - self.x0,
            },
        ]
    }
}
