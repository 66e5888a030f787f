// Whether a line comes close to an area.
ghost use Rattle.std.specs.Prelude.{◌↔◌, ◌⊎◌, ◌≤◌, ◌≤ℤ◌, IsTrue};
ghost use Rattle.plane.specs.Plane.{Within, IsTight};
ghost use Rattle.touching.specs.Inner.Decision.{IsAreaClose};
ghost use Rattle.cores.specs.Room.{IsInRoom, IsAreaInRoom, spot};
ghost use Rattle.cores.specs.Inner.Numbers.{IsRightClose, IsLeftClose};

use crate::area::AreaBounds;
use crate::line::are_lines_close;
use grid_num::Point;

impl AreaBounds {
    // Whether the place is in the area.
    pub(crate) fn holds(&self, p: Point) -> bool
        requires place { IsInRoom 1200000000 p }
        requires tight { IsTight self.now }
        requires room { IsAreaInRoom 1200000000 self.now }
        ensures { IsTrue result ↔ Within self.now p.x p.y }
    {
        let x = is_between(self.x0, self.x1, p.x);
        let y = is_between(self.y0, self.y1, p.y);
        let s = is_between(self.s0, self.s1, p.x + p.y);
        let d = is_between(self.d0, self.d1, p.x - p.y);
        all(x, y, s, d)
    }
}

// Whether the number is in the range.
pub fn is_between(low: i64, high: i64, value: i64) -> bool
    ensures { IsTrue result ↔ ((low ≤ℤ value) × (value ≤ℤ high)) }
{
    low <= value && value <= high
}

// One test of four, so that no join nests.
pub fn all(x: bool, y: bool, z: bool, w: bool) -> bool
    ensures { IsTrue result ↔ (IsTrue x × IsTrue y × IsTrue z × IsTrue w) }
{
    x && y && z && w
}

// Any of four.
pub fn any(x: bool, y: bool, z: bool, w: bool) -> bool
    ensures { IsTrue result ↔ (IsTrue x ⊎ (IsTrue y ⊎ (IsTrue z ⊎ IsTrue w))) }
{
    x || y || z || w
}

// Whether the line from s to t comes close to a side from the top clockwise to the bottom right.
fn is_right_close(a: u64, b: &AreaBounds, s: Point, t: Point) -> bool
    requires a { a ≤ 160000000000000000 }
    requires tight { IsTight b.now }
    requires room { IsAreaInRoom 1200000000 b.now }
    requires s { IsInRoom 1200000000 s }
    requires t { IsInRoom 1200000000 t }
    ensures { IsTrue result ↔ IsRightClose a b.now (spot s) (spot t) }
{
    let first = b.top_start();
    let second = b.top_right_start();
    let third = b.right_start();
    let fourth = b.bottom_right_start();
    let fifth = b.bottom_start();
    any(
        are_lines_close(a, first, second, s, t),
        are_lines_close(a, second, third, s, t),
        are_lines_close(a, third, fourth, s, t),
        are_lines_close(a, fourth, fifth, s, t),
    )
}

// The same of a side from the bottom clockwise to the top left.
fn is_left_close(a: u64, b: &AreaBounds, s: Point, t: Point) -> bool
    requires a { a ≤ 160000000000000000 }
    requires tight { IsTight b.now }
    requires room { IsAreaInRoom 1200000000 b.now }
    requires s { IsInRoom 1200000000 s }
    requires t { IsInRoom 1200000000 t }
    ensures { IsTrue result ↔ IsLeftClose a b.now (spot s) (spot t) }
{
    let fifth = b.bottom_start();
    let sixth = b.bottom_left_start();
    let seventh = b.left_start();
    let eighth = b.top_left_start();
    let first = b.top_start();
    any(
        are_lines_close(a, fifth, sixth, s, t),
        are_lines_close(a, sixth, seventh, s, t),
        are_lines_close(a, seventh, eighth, s, t),
        are_lines_close(a, eighth, first, s, t),
    )
}

// Whether the line from s to t starts in the area, or comes close to one of its sides.
pub fn is_area_close(a: u64, b: &AreaBounds, s: Point, t: Point) -> bool
    requires a { a ≤ 160000000000000000 }
    requires tight { IsTight b.now }
    requires room { IsAreaInRoom 1200000000 b.now }
    requires s { IsInRoom 1200000000 s }
    requires t { IsInRoom 1200000000 t }
    ensures { IsTrue result ↔ IsAreaClose a b.now (spot s) (spot t) }
{
    if b.holds(s) {
        return true;
    }
    if is_right_close(a, b, s, t) {
        return true;
    }
    is_left_close(a, b, s, t)
}
