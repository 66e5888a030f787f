// The bounds of an area, and how they are made.
ghost use Rattle.std.specs.Prelude.{◌≡◌, ◌≤ℤ◌, ◌^◌, pos, ◌*ℤ◌};
ghost use Rattle.plane.specs.Plane.{box_of, times, IsTight};
ghost use Rattle.cores.specs.Room.{IsInRoom, IsNearZero};

use grid_num::Point;
use octagon::Oct;
use std::marker::Model;

/// Lower and upper bounds on x, y, x + y and x - y.
#[derive(Clone, Copy, PartialEq, Eq, Debug)]
pub struct AreaBounds {
    pub x0: i64,
    pub x1: i64,
    pub y0: i64,
    pub y1: i64,
    pub s0: i64,
    pub s1: i64,
    pub d0: i64,
    pub d1: i64,
}

impl Model for AreaBounds {
    ghost use Rattle.plane.specs.Plane.{Bounds};

    ghost Value = { Bounds };

    ghost view = { λ a. record { x0 = a.x0; x1 = a.x1; y0 = a.y0; y1 = a.y1; s0 = a.s0; s1 = a.s1; d0 = a.d0; d1 = a.d1 } };

    ghost inverse = { λ b. record { x0 = b.x0; x1 = b.x1; y0 = b.y0; y1 = b.y1; s0 = b.s0; s1 = b.s1; d0 = b.d0; d1 = b.d1 } };
}

impl AreaBounds {
    // The upright rectangle between two corners.
    pub(crate) fn rectangle(least: Point, greatest: Point) -> AreaBounds
        requires least { IsInRoom 2000000000 least }
        requires greatest { IsInRoom 2000000000 greatest }
        requires across { least.x ≤ℤ greatest.x }
        requires along { least.y ≤ℤ greatest.y }
        ensures { result ≡ box_of least.x greatest.x least.y greatest.y }
    {
        AreaBounds {
            x0: least.x,
            x1: greatest.x,
            y0: least.y,
            y1: greatest.y,
            s0: least.x + least.y,
            s1: greatest.x + greatest.y,
            d0: least.x - greatest.y,
            d1: greatest.x - least.y,
        }
    }

    // An octagon of units in halves, 4 to the unit.
    pub(crate) fn of_oct(oct: &Oct) -> AreaBounds
        ensures value { result ≡ times 4 oct.now }
        ensures tight { IsTight oct.now }
    {
        AreaBounds {
            x0: in_halves(oct.x0()),
            x1: in_halves(oct.x1()),
            y0: in_halves(oct.y0()),
            y1: in_halves(oct.y1()),
            s0: in_halves(oct.s0()),
            s1: in_halves(oct.s1()),
            d0: in_halves(oct.d0()),
            d1: in_halves(oct.d1()),
        }
    }
}

// A length of units in halves.
fn in_halves(units: i64) -> i64
    requires { IsNearZero (2 ^ 42) units }
    ensures value { result ≡ pos 4 *ℤ units }
    ensures range { IsNearZero (2 ^ 44) result }
{
    4 * units
}
