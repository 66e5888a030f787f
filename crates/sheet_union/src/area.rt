// How much copper strips have.
ghost use Rattle.std.specs.Prelude.{◌≡◌, ◌^◌, ◌≤◌, pos, ◌-ℤ◌, ◌≤ℤ◌};
ghost use Rattle.plane.specs.Narrow.{IsNearZero};
ghost use Rattle.strips.specs.Area.{strip_area2, area2_of};
ghost use Rattle.strips.specs.Strips.{IsTrapezoid};
ghost use Rattle.sheet_union.specs.Near.{IsNearStrip, IsSheet};

use strips::Strip;

// How far it is from one coordinate to another one that isn't less.
fn distance(from: i64, to: i64) -> u64
    requires from { IsNearZero (2 ^ 45) from }
    requires to { IsNearZero (2 ^ 45) to }
    requires order { from ≤ℤ to }
    ensures value { pos result ≡ to -ℤ from }
    ensures near { result ≤ 2 ^ 46 }
{
    (to - from).unsigned_abs()
}

// Twice the area of one strip.
fn strip_area2(strip: Strip) -> u128
    requires near { IsNearStrip strip }
    requires shape { IsTrapezoid strip }
    ensures { pos result ≡ strip_area2 strip }
{
    let height = u128::from(distance(strip.top, strip.bottom));
    let first = u128::from(distance(strip.left, strip.right));
    let last = u128::from(distance(strip.left_end, strip.right_end));
    height * (first + last)
}

/// Twice the area of all strips.
pub fn area2_of(strips: &[Strip]) -> u128
    requires { IsSheet strips.now }
    ensures { pos result ≡ area2_of strips.now }
{
    let mut area = 0;
    'each: for strip in strips {
        area += strip_area2(*strip);
    }
    area
}
