// Products in 128 bits, of numbers that are known to be small.
ghost use Rattle.std.specs.Prelude.{◌≡◌, pos, ◌+ℤ◌, ◌-ℤ◌, ◌*ℤ◌, ◌≤ℤ◌};
ghost use Rattle.touching.specs.Inner.Decision.{inner, cross};
ghost use Rattle.cores.specs.Room.{IsNearZero};

// How far one number lies beyond another.
pub fn offset(from: i64, to: i64) -> i64
    requires from { IsNearZero 1200000000 from }
    requires to { IsNearZero 1200000000 to }
    ensures value { result ≡ to -ℤ from }
    ensures range { IsNearZero 2400000000 result }
{
    to - from
}

fn product(a: i64, b: i64) -> i128
    requires a { IsNearZero 2400000000 a }
    requires b { IsNearZero 2400000000 b }
    ensures value { result ≡ a *ℤ b }
    ensures range { IsNearZero 5760000000000000000 result }
{
    a as i128 * b as i128
}

pub fn inner_product(ax: i64, ay: i64, bx: i64, by: i64) -> i128
    requires a { IsNearZero 2400000000 ax × IsNearZero 2400000000 ay }
    requires b { IsNearZero 2400000000 bx × IsNearZero 2400000000 by }
    ensures value { result ≡ inner ax ay bx by }
    ensures range { IsNearZero 11520000000000000000 result }
{
    product(ax, bx) + product(ay, by)
}

pub fn cross_product(ax: i64, ay: i64, bx: i64, by: i64) -> i128
    requires a { IsNearZero 2400000000 ax × IsNearZero 2400000000 ay }
    requires b { IsNearZero 2400000000 bx × IsNearZero 2400000000 by }
    ensures value { result ≡ cross ax ay bx by }
    ensures range { IsNearZero 11520000000000000000 result }
{
    product(ax, by) - product(ay, bx)
}
