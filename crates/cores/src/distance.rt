// The squared distance of two places.
ghost use Rattle.std.specs.Prelude.{◌≡◌, pos, ◌+ℤ◌, ◌-ℤ◌, ◌*ℤ◌, ◌≤ℤ◌};
ghost use Rattle.cores.specs.Room.{IsNearZero, IsInRoom};

use grid_num::Point;

/// The squared distance of two places, in halves or in nanometres alike.
pub fn dist_sq(a: Point, b: Point) -> u64
    requires a { IsInRoom 1000000000 a }
    requires b { IsInRoom 1000000000 b }
    ensures { pos result ≡ (a.x -ℤ b.x) *ℤ (a.x -ℤ b.x) +ℤ (a.y -ℤ b.y) *ℤ (a.y -ℤ b.y) }
{
    natural(apart(a.x, a.y, b.x, b.y))
}

fn step(a: i64, b: i64) -> i64
    requires a { IsNearZero 1000000000 a }
    requires b { IsNearZero 1000000000 b }
    ensures value { result ≡ a -ℤ b }
    ensures range { IsNearZero 2000000000 result }
{
    a - b
}

fn square(d: i64) -> i64
    requires { IsNearZero 2000000000 d }
    ensures value { result ≡ d *ℤ d }
    ensures low { pos 0 ≤ℤ result }
    ensures high { result ≤ℤ pos 4000000000000000000 }
{
    d * d
}

fn sum(a: i64, b: i64) -> i64
    requires a_low { pos 0 ≤ℤ a }
    requires a_high { a ≤ℤ pos 4000000000000000000 }
    requires b_low { pos 0 ≤ℤ b }
    requires b_high { b ≤ℤ pos 4000000000000000000 }
    ensures value { result ≡ a +ℤ b }
    ensures low { pos 0 ≤ℤ result }
{
    a + b
}

// The squared distance by the coordinates.
fn apart(ax: i64, ay: i64, bx: i64, by: i64) -> i64
    requires ax { IsNearZero 1000000000 ax }
    requires ay { IsNearZero 1000000000 ay }
    requires bx { IsNearZero 1000000000 bx }
    requires by { IsNearZero 1000000000 by }
    ensures value { result ≡ (ax -ℤ bx) *ℤ (ax -ℤ bx) +ℤ (ay -ℤ by) *ℤ (ay -ℤ by) }
    ensures low { pos 0 ≤ℤ result }
{
    sum(square(step(ax, bx)), square(step(ay, by)))
}

// A squared distance is no negative number.
fn natural(z: i64) -> u64
    requires { pos 0 ≤ℤ z }
    ensures { pos result ≡ z }
{
    z.unsigned_abs()
}
