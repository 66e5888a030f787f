// What is asked of octagons that are apart: whether one has a point, and how many points they have.
ghost use Rattle.std.specs.Prelude.{◌≡◌, ◌≤◌, ◌^◌, ◌↔◌, pos, ◌+ℤ◌, ◌-ℤ◌, ◌≤ℤ◌, IsTrue};
ghost use Rattle.plane.specs.Plane.{Within, IsOct};
ghost use Rattle.plane.specs.Narrow.{IsNearZero};
ghost use Rattle.grid_sets.specs.Points.{HasPoint, AreApart, IsCount, triangle};

use grid_num::Point;
use octagon::Oct;

// Whether one of the octagons has the point.
pub(crate) fn has_point(octs: &[Oct], p: Point) -> bool
    ensures { IsTrue result ↔ HasPoint octs.now p.x p.y }
{
    'octs: for oct in octs {
        if is_in(oct, p) {
            return true;
        }
    }
    false
}

// Whether the octagon has the point. Its box is asked first, so that a point out of reach needs no more.
fn is_in(oct: &Oct, p: Point) -> bool
    ensures { IsTrue result ↔ Within oct.now p.x p.y }
{
    let x = is_between(oct.x0(), oct.x1(), p.x);
    let y = is_between(oct.y0(), oct.y1(), p.y);
    if both(x, y) { oct.holds(p) } else { false }
}

fn is_between(low: i64, high: i64, value: i64) -> bool
    ensures { IsTrue result ↔ ((low ≤ℤ value) × (value ≤ℤ high)) }
{
    low <= value && value <= high
}

fn both(x: bool, y: bool) -> bool
    ensures { IsTrue result ↔ (IsTrue x × IsTrue y) }
{
    x && y
}

// How many points the octagons have.
pub(crate) fn count_of(octs: &[Oct]) -> u128
    requires { AreApart octs.now }
    ensures { IsCount (HasPoint octs.now) result }
{
    let mut total = 0;
    'octs: for oct in octs {
        total += points_of(oct);
    }
    total
}

// How many grid points the octagon has: those of its box without the triangles beyond its slanted sides.
fn points_of(oct: &Oct) -> u128
    ensures count { IsCount (Within oct.now) result }
    ensures oct { IsOct oct.now }
{
    let columns = width(oct) + 1;
    let rows = height(oct) + 1;
    let top = triangle(top_left(oct)) + triangle(top_right(oct));
    let bottom = triangle(bottom_right(oct)) + triangle(bottom_left(oct));
    columns * rows - (top + bottom)
}

// How far it is from its least x to its greatest.
fn width(oct: &Oct) -> u128
    ensures value { oct.now.x1 ≡ oct.now.x0 +ℤ pos result }
    ensures oct { IsOct oct.now }
    ensures small { result ≤ 2 ^ 43 }
{
    range(oct.x0(), oct.x1())
}

// The same for y.
fn height(oct: &Oct) -> u128
    ensures value { oct.now.y1 ≡ oct.now.y0 +ℤ pos result }
    ensures small { result ≤ 2 ^ 43 }
{
    range(oct.y0(), oct.y1())
}

// How many points of its box's first row lie beyond the slanted side at the top left.
fn top_left(oct: &Oct) -> u128
    ensures value { oct.now.s0 ≡ (oct.now.x0 +ℤ oct.now.y0) +ℤ pos result }
    ensures small { result ≤ 2 ^ 43 }
{
    range(oct.x0() + oct.y0(), oct.s0())
}

// The same at the top right.
fn top_right(oct: &Oct) -> u128
    ensures value { (oct.now.x1 -ℤ oct.now.y0) ≡ oct.now.d1 +ℤ pos result }
    ensures small { result ≤ 2 ^ 43 }
{
    range(oct.d1(), oct.x1() - oct.y0())
}

// Of its box's last row, at the bottom right.
fn bottom_right(oct: &Oct) -> u128
    ensures value { (oct.now.x1 +ℤ oct.now.y1) ≡ oct.now.s1 +ℤ pos result }
    ensures small { result ≤ 2 ^ 43 }
{
    range(oct.s1(), oct.x1() + oct.y1())
}

// The same at the bottom left.
fn bottom_left(oct: &Oct) -> u128
    ensures value { oct.now.d0 ≡ (oct.now.x0 -ℤ oct.now.y1) +ℤ pos result }
    ensures small { result ≤ 2 ^ 43 }
{
    range(oct.x0() - oct.y1(), oct.d0())
}

// How far it is from the one number to the other.
fn range(low: i64, high: i64) -> u128
    requires order { low ≤ℤ high }
    requires low { IsNearZero (2 ^ 42) low }
    requires high { IsNearZero (2 ^ 42) high }
    ensures value { high ≡ low +ℤ pos result }
    ensures small { result ≤ 2 ^ 43 }
{
    (high - low) as u128
}

// How many points a right triangle has with n of them along each side.
fn triangle(n: u128) -> u128
    requires { n ≤ 2 ^ 43 }
    ensures value { result ≡ triangle n }
    ensures small { result ≤ 2 ^ 86 }
{
    n * (n + 1) / 2
}
