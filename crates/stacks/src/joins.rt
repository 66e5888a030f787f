// Two octagons that make one.
ghost use Rattle.std.specs.Prelude.{◌≡◌, ◌↔◌, ◌⊎◌, ◌^◌, ℤ, pos, ◌+ℤ◌, ◌≤ℤ◌, IsTrue, IsNone, IfSome};
ghost use Rattle.plane.specs.Plane.{Bounds, IsOct, IsTight};
ghost use Rattle.plane.specs.Narrow.{IsNearZero};
ghost use Rattle.stacks.specs.Stacks.{IsHull, IsUnion};
ghost use Rattle.stacks.specs.Inner.Reaches.{IsOctReach, IsSmallReach};
ghost use Rattle.stacks.specs.Inner.Fits.{Keeps, IsRightFit, IsRightDownFit, IsQuarterFit, IsFit};

use crate::reach::{Reach, farther, reach_of, turned};
use octagon::Oct;

/// The least octagon round both, where the test by their bounds finds that it has just the points of the two together.
pub fn join(p: &Oct, q: &Oct) -> Option<Oct>
    ensures hull { IfSome result (λ h. IsHull p.now q.now h) }
    ensures points { IfSome result (λ h. IsUnion p.now q.now h) }
{
    let first = reach_of(p);
    let second = reach_of(q);
    let both = farther(first, second);
    if !fits(first, second, both) {
        return None;
    }
    octagon_of(both)
}

// The octagon that reaches so far.
fn octagon_of(r: Reach) -> Option<Oct>
    requires { IsSmallReach r }
    ensures { IfSome result (λ h. (b : Bounds) → IsTight b → IsOctReach b r → h ≡ b) }
{
    Oct::of_bounds([
        -r.left,
        r.right,
        -r.up,
        r.down,
        -r.left_up,
        r.right_down,
        -r.left_down,
        r.right_up,
    ])
}

// Whether each point that lies within h and beyond a side of p lies within q.
fn fits(p: Reach, q: Reach, h: Reach) -> bool
    requires p { IsSmallReach p }
    requires q { IsSmallReach q }
    requires h { IsSmallReach h }
    ensures { IsTrue result → IsFit p q h }
{
    let (p1, q1, h1) = (turned(p), turned(q), turned(h));
    let (p2, q2, h2) = (turned(p1), turned(q1), turned(h1));
    let (p3, q3, h3) = (turned(p2), turned(q2), turned(h2));
    if !quarter_fits(p, q, h) || !quarter_fits(p1, q1, h1) {
        return false;
    }
    quarter_fits(p2, q2, h2) && quarter_fits(p3, q3, h3)
}

// Whether what lies beyond the right side or the lower right side of p does.
fn quarter_fits(p: Reach, q: Reach, h: Reach) -> bool
    requires p { IsSmallReach p }
    requires q { IsSmallReach q }
    requires h { IsSmallReach h }
    ensures { IsTrue result → IsQuarterFit p q h }
{
    right_fits(p, q, h) && right_down_fits(p, q, h)
}

// Whether what lies beyond the right side of p does.
fn right_fits(p: Reach, q: Reach, h: Reach) -> bool
    requires p { IsSmallReach p }
    requires q { IsSmallReach q }
    requires h { IsSmallReach h }
    ensures { IsTrue result → IsRightFit p q h }
{
    if q.right <= p.right {
        return true;
    }
    all(
        both_reach(p.right_down, q.right_down, p.right_up, q.right_up),
        keeps(p.down, q.down, h.right_down, p.right),
        keeps(p.up, q.up, h.right_up, p.right),
        keeps(p.left_down, q.left_down, h.down, p.right),
        keeps(p.left_up, q.left_up, h.up, p.right),
        overlap(p.right, q.left),
    )
}

// Whether what lies beyond the lower right side of p does.
fn right_down_fits(p: Reach, q: Reach, h: Reach) -> bool
    requires p { IsSmallReach p }
    requires q { IsSmallReach q }
    requires h { IsSmallReach h }
    ensures { IsTrue result → IsRightDownFit p q h }
{
    if q.right_down <= p.right_down {
        return true;
    }
    all(
        both_reach(p.right, q.right, p.down, q.down),
        keeps_twice(p.left_down, q.left_down, h.down, p.right_down),
        keeps_twice(p.right_up, q.right_up, h.right, p.right_down),
        keeps(p.left, q.left, h.down, p.right_down),
        keeps(p.up, q.up, h.right, p.right_down),
        overlap(p.right_down, q.left_up),
    )
}

// Whether q reaches as far as p on both neighbouring sides.
fn both_reach(p: i64, q: i64, p2: i64, q2: i64) -> bool
    ensures { IsTrue result → ((p ≤ℤ q) × (p2 ≤ℤ q2)) }
{
    p <= q && p2 <= q2
}

// Whether the one reaches no farther than the other, or what is beyond both isn't within.
fn keeps(own: i64, other: i64, far: i64, here: i64) -> bool
    requires other { IsNearZero (2 ^ 42) other }
    requires here { IsNearZero (2 ^ 42) here }
    ensures { IsTrue result → Keeps own other far here }
{
    own <= other || far <= here + other
}

// The same, where it isn't within twice as far.
fn keeps_twice(own: i64, other: i64, far: i64, here: i64) -> bool
    requires other { IsNearZero (2 ^ 42) other }
    requires far { IsNearZero (2 ^ 42) far }
    requires here { IsNearZero (2 ^ 42) here }
    ensures { IsTrue result → Keeps own other (far +ℤ far) here }
{
    own <= other || far + far <= here + other
}

// Whether the side of the one is no farther than the opposite side of the other.
fn overlap(here: i64, there: i64) -> bool
    requires here { IsNearZero (2 ^ 42) here }
    requires there { IsNearZero (2 ^ 42) there }
    ensures { IsTrue result → pos 0 ≤ℤ (here +ℤ there) }
{
    here + there >= 0
}

// One test for all, so that no join nests.
fn all(next: bool, a: bool, b: bool, c: bool, d: bool, opposite: bool) -> bool
    ensures { IsTrue result → (IsTrue next × IsTrue a × IsTrue b × IsTrue c × IsTrue d × IsTrue opposite) }
{
    next && a && b && c && d && opposite
}
