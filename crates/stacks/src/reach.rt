// How far an octagon reaches to its eight sides, so that one test serves all of them by turning.
ghost use Rattle.std.specs.Prelude.{◌≡◌};
ghost use Rattle.plane.specs.Plane.{IsOct};
ghost use Rattle.octagon.specs.Inner.Hull.{IsGreater};
ghost use Rattle.stacks.specs.Inner.Reaches.{IsOctReach, IsFarther, IsSmallReach, turn};

use octagon::Oct;

// The greatest x, x + y, y, y - x and so on round the octagon.
#[derive(Clone, Copy, Drop)]
pub struct Reach {
    pub right: i64,
    pub right_down: i64,
    pub down: i64,
    pub left_down: i64,
    pub left: i64,
    pub left_up: i64,
    pub up: i64,
    pub right_up: i64,
}

// How far the octagon reaches.
pub fn reach_of(oct: &Oct) -> Reach
    ensures reach { IsOctReach oct.now result }
    ensures small { IsSmallReach result }
    ensures oct { IsOct oct.now }
{
    Reach {
        right: oct.x1(),
        right_down: oct.s1(),
        down: oct.y1(),
        left_down: -oct.d0(),
        left: -oct.x0(),
        left_up: -oct.s0(),
        up: -oct.y0(),
        right_up: oct.d1(),
    }
}

// Turned by a quarter: what was below is on the right.
pub fn turned(r: Reach) -> Reach
    requires { IsSmallReach r }
    ensures is { result ≡ turn r }
    ensures small { IsSmallReach result }
{
    Reach {
        right: r.down,
        right_down: r.left_down,
        down: r.left,
        left_down: r.left_up,
        left: r.up,
        left_up: r.right_up,
        up: r.right,
        right_up: r.right_down,
    }
}

// As far as the farther of both.
pub fn farther(p: Reach, q: Reach) -> Reach
    requires p { IsSmallReach p }
    requires q { IsSmallReach q }
    ensures far { IsFarther p q result }
    ensures small { IsSmallReach result }
{
    Reach {
        right: greater(p.right, q.right),
        right_down: greater(p.right_down, q.right_down),
        down: greater(p.down, q.down),
        left_down: greater(p.left_down, q.left_down),
        left: greater(p.left, q.left),
        left_up: greater(p.left_up, q.left_up),
        up: greater(p.up, q.up),
        right_up: greater(p.right_up, q.right_up),
    }
}

// The greater number.
fn greater(a: i64, b: i64) -> i64
    ensures { IsGreater a b result }
{
    if a < b { b } else { a }
}
