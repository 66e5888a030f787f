// How wide an arc is.
ghost use Rattle.std.specs.Prelude.{◌≡◌, pos, ◌+ℤ◌, ◌-ℤ◌, ◌*ℤ◌, int_lt};
ghost use Rattle.grid_num.specs.Length.{IsInRange};
ghost use Rattle.plane.specs.Narrow.{IsNearZero};
ghost use Rattle.board_language.specs.Edges.{is_wide};

use grid_num::Point;

// How far one place lies beyond another.
fn apart(from: i64, to: i64) -> i64
    requires from { IsInRange from }
    requires to { IsInRange to }
    ensures value { result ≡ to -ℤ from }
    ensures range { IsNearZero 1000000000 result }
{
    to - from
}

fn product(a: i64, b: i64) -> i128
    requires a { IsNearZero 1000000000 a }
    requires b { IsNearZero 1000000000 b }
    ensures value { result ≡ a *ℤ b }
    ensures range { IsNearZero 1000000000000000000 result }
{
    a as i128 * b as i128
}

fn inner(ax: i64, ay: i64, bx: i64, by: i64) -> i128
    requires a { IsNearZero 1000000000 ax × IsNearZero 1000000000 ay }
    requires b { IsNearZero 1000000000 bx × IsNearZero 1000000000 by }
    ensures value { result ≡ ax *ℤ bx +ℤ ay *ℤ by }
    ensures range { IsNearZero 2000000000000000000 result }
{
    product(ax, bx) + product(ay, by)
}

/// Whether an arc from a by m to b is wider than a half circle.
#[tactic(auto, unfolding(board_language::specs::Edges::is_wide))]
pub fn is_wide(a: Point, m: Point, b: Point) -> bool
    requires a { IsInRange a.x × IsInRange a.y }
    requires m { IsInRange m.x × IsInRange m.y }
    requires b { IsInRange b.x × IsInRange b.y }
    ensures { result ≡ is_wide a m b }
{
    is_positive(inner(
        apart(m.x, a.x),
        apart(m.y, a.y),
        apart(m.x, b.x),
        apart(m.y, b.y),
    ))
}

fn is_positive(z: i128) -> bool
    ensures { result ≡ int_lt (pos 0) z }
{
    z > 0
}
