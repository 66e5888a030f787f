// Whether two fills have the same pieces.
ghost use Rattle.std.specs.Prelude.{◌≡◌, ◌↔◌, IsTrue};

use fills::Fill;
use octagon::Oct;

/// Whether the two fills have the same pieces, in the same order.
pub fn are_same_pieces(one: &Fill, other: &Fill) -> bool
    ensures { IsTrue result ↔ (one.now.pieces ≡ other.now.pieces) }
{
    are_same(&one.pieces, &other.pieces)
}

// Whether the two lists are the same.
fn are_same(one: &[Oct], other: &[Oct]) -> bool
    ensures { IsTrue result ↔ (one.now ≡ other.now) }
{
    if one.len() != other.len() {
        return false;
    }
    'each: for i in 0..one.len() {
        if !is_same(&one[i], &other[i]) {
            return false;
        }
    }
    true
}

// Whether the two octagons are the same.
fn is_same(one: &Oct, other: &Oct) -> bool
    ensures { IsTrue result ↔ (one.now ≡ other.now) }
{
    all(
        is_same_x(one, other),
        is_same_y(one, other),
        is_same_s(one, other),
        is_same_d(one, other),
    )
}

// Whether they reach from the same x to the same x.
fn is_same_x(one: &Oct, other: &Oct) -> bool
    ensures { IsTrue result ↔ ((one.now.x0 ≡ other.now.x0) × (one.now.x1 ≡ other.now.x1)) }
{
    one.x0() == other.x0() && one.x1() == other.x1()
}

// And so for y.
fn is_same_y(one: &Oct, other: &Oct) -> bool
    ensures { IsTrue result ↔ ((one.now.y0 ≡ other.now.y0) × (one.now.y1 ≡ other.now.y1)) }
{
    one.y0() == other.y0() && one.y1() == other.y1()
}

// For x + y.
fn is_same_s(one: &Oct, other: &Oct) -> bool
    ensures { IsTrue result ↔ ((one.now.s0 ≡ other.now.s0) × (one.now.s1 ≡ other.now.s1)) }
{
    one.s0() == other.s0() && one.s1() == other.s1()
}

// And for x - y.
fn is_same_d(one: &Oct, other: &Oct) -> bool
    ensures { IsTrue result ↔ ((one.now.d0 ≡ other.now.d0) × (one.now.d1 ≡ other.now.d1)) }
{
    one.d0() == other.d0() && one.d1() == other.d1()
}

// Whether all four hold.
fn all(x: bool, y: bool, s: bool, d: bool) -> bool
    ensures { IsTrue result ↔ (IsTrue x × IsTrue y × IsTrue s × IsTrue d) }
{
    x && y && s && d
}
