// Whether two areas come close: the octagon of all steps from the one to the other, and the origin.
ghost use Rattle.std.specs.Prelude.{◌≡◌, ◌↔◌, ◌*◌, ◌≤◌, ◌⊎◌, ◌+ℤ◌, ◌-ℤ◌, ◌≤ℤ◌, ◌<ℤ◌, ◌*ℤ◌, IsTrue, pos};
ghost use Rattle.plane.specs.Plane.{Within, IsTight};
ghost use Rattle.touching.specs.Inner.Decision.{IsSideClose, IsOriginClose, steps_of};
ghost use Rattle.cores.specs.Room.{IsNearZero, IsAreaInRoom};
ghost use Rattle.cores.specs.Inner.Numbers.{IsStraightClose, IsSlantedClose};
ghost use Rattle.cores.specs.Inner.Steps.{step_bounds, AreSmallSteps};

use crate::area::AreaBounds;
use crate::sides::{all, any, is_between};

// The bounds of all steps from a point of one area to a point of another.
#[derive(Clone, Copy)]
pub struct StepBounds {
    pub x0: i64,
    pub x1: i64,
    pub y0: i64,
    pub y1: i64,
    pub s0: i64,
    pub s1: i64,
    pub d0: i64,
    pub d1: i64,
}

// How far one bound lies beyond another.
fn beyond(a: i64, b: i64) -> i64
    requires a { IsNearZero 2400000000 a }
    requires b { IsNearZero 2400000000 b }
    ensures value { result ≡ a -ℤ b }
    ensures range { IsNearZero 4800000000 result }
{
    a - b
}

// The steps from an area to another.
fn steps_between(b: &AreaBounds, c: &AreaBounds) -> StepBounds
    requires first_tight { IsTight b.now }
    requires first_room { IsAreaInRoom 1200000000 b.now }
    requires second_tight { IsTight c.now }
    requires second_room { IsAreaInRoom 1200000000 c.now }
    ensures value { step_bounds result ≡ steps_of b.now c.now }
    ensures small { AreSmallSteps result }
{
    StepBounds {
        x0: beyond(b.x0, c.x1),
        x1: beyond(b.x1, c.x0),
        y0: beyond(b.y0, c.y1),
        y1: beyond(b.y1, c.y0),
        s0: beyond(b.s0, c.s1),
        s1: beyond(b.s1, c.s0),
        d0: beyond(b.d0, c.d1),
        d1: beyond(b.d1, c.d0),
    }
}

// The square of a length.
fn square(c: i64) -> i128
    requires { IsNearZero 14400000000 c }
    ensures value { result ≡ c *ℤ c }
    ensures low { pos 0 ≤ℤ result }
    ensures high { result ≤ℤ pos 207360000000000000000 }
{
    c as i128 * c as i128
}

// Whether the place c along one axis and e along the other comes close to the origin.
fn is_place_close(a: u64, c: i64, e: i64) -> bool
    requires a { a ≤ 320000000000000000 }
    requires c { IsNearZero 14400000000 c }
    requires e { IsNearZero 14400000000 e }
    ensures { IsTrue result ↔ ((c *ℤ c +ℤ e *ℤ e) ≤ℤ pos a) }
{
    square(c) + square(e) <= a as i128
}

// Whether the lower end of a side lies beyond the origin, and comes close.
fn is_low_close(a: u64, c: i64, low: i64) -> bool
    requires a { a ≤ 320000000000000000 }
    requires c { IsNearZero 14400000000 c }
    requires low { IsNearZero 14400000000 low }
    ensures { IsTrue result ↔ ((pos 0 <ℤ low) × ((c *ℤ c +ℤ low *ℤ low) ≤ℤ pos a)) }
{
    low > 0 && is_place_close(a, c, low)
}

// Whether the upper end does.
fn is_high_close(a: u64, c: i64, high: i64) -> bool
    requires a { a ≤ 320000000000000000 }
    requires c { IsNearZero 14400000000 c }
    requires high { IsNearZero 14400000000 high }
    ensures { IsTrue result ↔ ((high <ℤ pos 0) × ((c *ℤ c +ℤ high *ℤ high) ≤ℤ pos a)) }
{
    high < 0 && is_place_close(a, c, high)
}

// Whether the side passes straight below the origin, and comes close.
fn is_middle_close(a: u64, c: i64, low: i64, high: i64) -> bool
    requires a { a ≤ 320000000000000000 }
    requires c { IsNearZero 14400000000 c }
    ensures { IsTrue result ↔ ((low ≤ℤ pos 0) × (pos 0 ≤ℤ high) × ((c *ℤ c) ≤ℤ pos a)) }
{
    low <= 0 && 0 <= high && is_height_close(a, c)
}

fn is_height_close(a: u64, c: i64) -> bool
    requires a { a ≤ 320000000000000000 }
    requires c { IsNearZero 14400000000 c }
    ensures { IsTrue result ↔ ((c *ℤ c) ≤ℤ pos a) }
{
    square(c) <= a as i128
}

// Whether a side at the height c, from low to high, comes close to the origin.
fn is_side_close(a: u64, c: i64, low: i64, high: i64) -> bool
    requires a { a ≤ 320000000000000000 }
    requires c { IsNearZero 14400000000 c }
    requires low { IsNearZero 14400000000 low }
    requires high { IsNearZero 14400000000 high }
    ensures { IsTrue result ↔ IsSideClose a c low high }
{
    if is_middle_close(a, c, low, high) {
        return true;
    }
    if is_low_close(a, c, low) {
        return true;
    }
    is_high_close(a, c, high)
}

fn twice_less(a: i64, b: i64) -> i64
    requires a { IsNearZero 4800000000 a }
    requires b { IsNearZero 4800000000 b }
    ensures value { result ≡ a +ℤ a -ℤ b }
    ensures range { IsNearZero 14400000000 result }
{
    a + a - b
}

fn less_twice(a: i64, b: i64) -> i64
    requires a { IsNearZero 4800000000 a }
    requires b { IsNearZero 4800000000 b }
    ensures value { result ≡ a -ℤ (b +ℤ b) }
    ensures range { IsNearZero 14400000000 result }
{
    a - (b + b)
}

fn twice_more(a: i64, b: i64) -> i64
    requires a { IsNearZero 4800000000 a }
    requires b { IsNearZero 4800000000 b }
    ensures value { result ≡ a +ℤ a +ℤ b }
    ensures range { IsNearZero 14400000000 result }
{
    a + a + b
}

// Whether a level or upright side does.
fn is_straight_close(a: u64, g: StepBounds) -> bool
    requires a { a ≤ 160000000000000000 }
    requires small { AreSmallSteps g }
    ensures { IsTrue result ↔ IsStraightClose a (step_bounds g) }
{
    any(
        is_side_close(a, g.x0, g.s0 - g.x0, g.x0 - g.d0),
        is_side_close(a, g.x1, g.x1 - g.d1, g.s1 - g.x1),
        is_side_close(a, g.y0, g.s0 - g.y0, g.d1 + g.y0),
        is_side_close(a, g.y1, g.d0 + g.y1, g.s1 - g.y1),
    )
}

// Whether a slanted side does, in x + y and x - y, which double squared lengths.
fn is_slanted_close(a: u64, g: StepBounds) -> bool
    requires a { a ≤ 160000000000000000 }
    requires small { AreSmallSteps g }
    ensures { IsTrue result ↔ IsSlantedClose a (step_bounds g) }
{
    let double = 2 * a;
    any(
        is_side_close(double, g.s0, twice_less(g.x0, g.s0), less_twice(g.s0, g.y0)),
        is_side_close(double, g.s1, less_twice(g.s1, g.y1), twice_less(g.x1, g.s1)),
        is_side_close(double, g.d0, twice_less(g.x0, g.d0), twice_more(g.y1, g.d0)),
        is_side_close(double, g.d1, twice_more(g.y0, g.d1), twice_less(g.x1, g.d1)),
    )
}

// Whether no step at all is among them.
fn holds_origin(g: StepBounds) -> bool
    requires { AreSmallSteps g }
    ensures { IsTrue result ↔ Within (step_bounds g) (pos 0) (pos 0) }
{
    let x = is_between(g.x0, g.x1, 0);
    let y = is_between(g.y0, g.y1, 0);
    let s = is_between(g.s0, g.s1, 0);
    let d = is_between(g.d0, g.d1, 0);
    all(x, y, s, d)
}

fn is_origin_close(a: u64, g: StepBounds) -> bool
    requires a { a ≤ 160000000000000000 }
    requires small { AreSmallSteps g }
    ensures { IsTrue result ↔ IsOriginClose a (step_bounds g) }
{
    if holds_origin(g) {
        return true;
    }
    if is_straight_close(a, g) {
        return true;
    }
    is_slanted_close(a, g)
}

// Whether the two areas meet, or a side of their steps comes close to the origin.
pub fn are_areas_close(a: u64, b: &AreaBounds, c: &AreaBounds) -> bool
    requires a { a ≤ 160000000000000000 }
    requires first_tight { IsTight b.now }
    requires first_room { IsAreaInRoom 1200000000 b.now }
    requires second_tight { IsTight c.now }
    requires second_room { IsAreaInRoom 1200000000 c.now }
    ensures { IsTrue result ↔ IsOriginClose a (steps_of b.now c.now) }
{
    is_origin_close(a, steps_between(b, c))
}
