// From eight bounds to the least octagon round their grid points: x and y are narrowed to what some grid point takes,
// then x + y and x - y to what x and y leave. Halves are rounded inward; nothing else depends on parity.
ghost use Rattle.std.specs.Prelude.{ℤ, ◌^◌, ◌↔◌, ◌+ℤ◌, ◌-ℤ◌, IsTrue, IsNone, IfSome};
ghost use Rattle.plane.specs.Plane.{Within};
ghost use Rattle.plane.specs.Narrow.{IsNearZero, IsGreatestOfFour, IsLeastOfFour, IsHalfUp, IsHalfDown, IsNarrowed, IsClosed, IsOrdered, IsSmall, IsTakeable};
ghost use Rattle.octagon.specs.Inner.Steps.{IsLower, IsUpper, IsTightened};

use crate::Oct;
use crate::ask::all;
use crate::eight::Eight;

// The octagon of the grid points that meet the bounds.
pub fn tightened(b: &Eight) -> Option<Oct>
    requires { IsTakeable b.now }
    ensures none { IsNone result → ((x y : ℤ) → ¬ (Within b.now x y)) }
    ensures some { IfSome result (λ o. IsTightened b.now o) }
{
    if !ordered(b) {
        return None;
    }
    let t = narrowed(b);
    if t.x0 > t.x1 {
        return None;
    }
    let r = closed(&t);
    Some(Oct {
        x0: r.x0,
        x1: r.x1,
        y0: r.y0,
        y1: r.y1,
        s0: r.s0,
        s1: r.s1,
        d0: r.d0,
        d1: r.d1,
    })
}

// Whether no pair of bounds is the wrong way round.
fn ordered(b: &Eight) -> bool
    requires { IsSmall b.now }
    ensures { IsTrue result ↔ IsOrdered b.now }
{
    all(b.x0 <= b.x1, b.y0 <= b.y1, b.s0 <= b.s1, b.d0 <= b.d1)
}

// The x and y that the grid points take.
fn narrowed(b: &Eight) -> Eight
    requires { IsSmall b.now }
    ensures { IsNarrowed b.now result }
{
    Eight {
        x0: lower(b.x0, b.s0, b.y1, b.d0, b.y0),
        x1: upper(b.x1, b.s1, b.y0, b.d1, b.y1),
        y0: lower(b.y0, b.s0, b.x1, -b.d1, b.x0),
        y1: upper(b.y1, b.s1, b.x0, -b.d0, b.x1),
        s0: b.s0,
        s1: b.s1,
        d0: b.d0,
        d1: b.d1,
    }
}

// The x + y and x - y that they take.
fn closed(t: &Eight) -> Eight
    requires { IsSmall t.now }
    ensures { IsClosed t.now result }
{
    Eight {
        x0: t.x0,
        x1: t.x1,
        y0: t.y0,
        y1: t.y1,
        s0: sum_low(t.s0, t.x0, t.y0, t.d1, t.d0),
        s1: sum_high(t.s1, t.x1, t.y1, t.d0, t.d1),
        d0: sum_low(t.d0, t.x0, -t.y1, t.s1, t.s0),
        d1: sum_high(t.d1, t.x1, -t.y0, t.s0, t.s1),
    }
}

// The least number that the bounds leave: at least its own bound, sum - far, difference + near, and half of sum +
// difference.
fn lower(own: i64, sum: i64, far: i64, difference: i64, near: i64) -> i64
    requires s { IsNearZero (2 ^ 42) sum }
    requires f { IsNearZero (2 ^ 42) far }
    requires d { IsNearZero (2 ^ 42) difference }
    requires n { IsNearZero (2 ^ 42) near }
    ensures { IsLower own sum far difference near result }
{
    greatest(own, sum - far, difference + near, half_up(sum + difference))
}

// The greatest number that the bounds leave.
fn upper(own: i64, sum: i64, far: i64, difference: i64, near: i64) -> i64
    requires s { IsNearZero (2 ^ 42) sum }
    requires f { IsNearZero (2 ^ 42) far }
    requires d { IsNearZero (2 ^ 42) difference }
    requires n { IsNearZero (2 ^ 42) near }
    ensures { IsUpper own sum far difference near result }
{
    least(
        own,
        sum - far,
        difference + near,
        half_down(sum + difference),
    )
}

// The least sum a + b where a is at least a0, b at least b0, and a - b from q to p.
fn sum_low(own: i64, a0: i64, b0: i64, p: i64, q: i64) -> i64
    requires a { IsNearZero (2 ^ 42) a0 }
    requires b { IsNearZero (2 ^ 42) b0 }
    requires p { IsNearZero (2 ^ 42) p }
    requires q { IsNearZero (2 ^ 42) q }
    ensures { IsGreatestOfFour own (a0 +ℤ b0) ((a0 +ℤ a0) -ℤ p) ((b0 +ℤ b0) +ℤ q) result }
{
    greatest(own, a0 + b0, a0 + a0 - p, b0 + b0 + q)
}

// The greatest sum a + b where a is at most a1, b at most b1, and a - b from p to q.
fn sum_high(own: i64, a1: i64, b1: i64, p: i64, q: i64) -> i64
    requires a { IsNearZero (2 ^ 42) a1 }
    requires b { IsNearZero (2 ^ 42) b1 }
    requires p { IsNearZero (2 ^ 42) p }
    requires q { IsNearZero (2 ^ 42) q }
    ensures { IsLeastOfFour own (a1 +ℤ b1) ((a1 +ℤ a1) -ℤ p) ((b1 +ℤ b1) +ℤ q) result }
{
    least(own, a1 + b1, a1 + a1 - p, b1 + b1 + q)
}

fn greatest(a: i64, b: i64, c: i64, d: i64) -> i64
    ensures { IsGreatestOfFour a b c d result }
{
    a.max(b).max(c.max(d))
}

fn least(a: i64, b: i64, c: i64, d: i64) -> i64
    ensures { IsLeastOfFour a b c d result }
{
    a.min(b).min(c.min(d))
}

// Half of a, rounded up.
fn half_up(a: i64) -> i64
    ensures { IsHalfUp a result }
{
    let half = a / 2;
    if a % 2 > 0 { half + 1 } else { half }
}

// Half of a, rounded down.
fn half_down(a: i64) -> i64
    ensures { IsHalfDown a result }
{
    let half = a / 2;
    if a % 2 < 0 { half - 1 } else { half }
}
