// Whether two cores come close, by cases on what they are.
ghost use Rattle.std.specs.Prelude.{◌↔◌, ◌≤◌, IsTrue};
ghost use Rattle.plane.specs.Plane.{IsTight};
ghost use Rattle.touching.specs.Core.{IsWhole, area, line};
ghost use Rattle.touching.specs.Inner.Decision.{AreClose};
ghost use Rattle.cores.specs.Room.{IsInRoom, IsAreaInRoom, IsLineInRoom, IsCoreInRoom, spot};
ghost use Rattle.cores.specs.Kinds.{core_of};

use crate::area::AreaBounds;
use crate::kind::{Kind, Line};
use crate::line::are_lines_close;
use crate::sides::is_area_close;
use crate::steps::are_areas_close;
use grid_num::Point;

// An area and another core.
fn is_close_to_area(a: u64, b: &AreaBounds, other: &Kind) -> bool
    requires a { a ≤ 160000000000000000 }
    requires tight { IsTight b.now }
    requires room { IsAreaInRoom 1200000000 b.now }
    requires whole { IsWhole (core_of other.now) }
    requires other_room { IsCoreInRoom 1200000000 (core_of other.now) }
    ensures { IsTrue result ↔ AreClose a (area b.now) (core_of other.now) }
{
    match other {
        Kind::Area(c) => are_areas_close(a, b, c),
        Kind::Line(w) => is_area_close(a, b, w.from, w.to),
    }
}

// A line and another core.
fn is_close_to_line(a: u64, w: Line, other: &Kind) -> bool
    requires a { a ≤ 160000000000000000 }
    requires from { IsInRoom 1200000000 w.from }
    requires to { IsInRoom 1200000000 w.to }
    requires whole { IsWhole (core_of other.now) }
    requires other_room { IsCoreInRoom 1200000000 (core_of other.now) }
    ensures { IsTrue result ↔ AreClose a (line (spot w.from) (spot w.to)) (core_of other.now) }
{
    match other {
        Kind::Area(b) => is_area_close(a, b, w.from, w.to),
        Kind::Line(v) => are_lines_close(a, w.from, w.to, v.from, v.to),
    }
}

// Whether the one comes within the root of a of the other.
pub fn are_close(a: u64, first: &Kind, second: &Kind) -> bool
    requires a { a ≤ 160000000000000000 }
    requires first_whole { IsWhole (core_of first.now) }
    requires first_room { IsCoreInRoom 1200000000 (core_of first.now) }
    requires second_whole { IsWhole (core_of second.now) }
    requires second_room { IsCoreInRoom 1200000000 (core_of second.now) }
    ensures { IsTrue result ↔ AreClose a (core_of first.now) (core_of second.now) }
{
    match first {
        Kind::Area(b) => is_close_to_area(a, b, second),
        Kind::Line(w) => is_close_to_line(a, *w, second),
    }
}

// Whether the place lies within 1,200,000,000 of 0.
fn is_place_in_room(p: Point) -> bool
    ensures { IsTrue result ↔ IsInRoom 1200000000 p }
{
    let across = p.x >= -1_200_000_000 && p.x <= 1_200_000_000;
    let along = p.y >= -1_200_000_000 && p.y <= 1_200_000_000;
    across && along
}

// Whether the area lies there.
fn is_area_in_room(b: &AreaBounds) -> bool
    ensures { IsTrue result ↔ IsAreaInRoom 1200000000 b.now }
{
    b.x0 >= -1_200_000_000
        && b.x1 <= 1_200_000_000
        && b.y0 >= -1_200_000_000
        && b.y1 <= 1_200_000_000
}

// Whether the line does.
fn is_line_in_room(w: Line) -> bool
    ensures { IsTrue result ↔ IsLineInRoom 1200000000 (spot w.from) (spot w.to) }
{
    is_place_in_room(w.from) && is_place_in_room(w.to)
}

// Whether the core does.
pub fn is_in_room(kind: &Kind) -> bool
    ensures { IsTrue result ↔ IsCoreInRoom 1200000000 (core_of kind.now) }
{
    match kind {
        Kind::Area(b) => is_area_in_room(b),
        Kind::Line(w) => is_line_in_room(*w),
    }
}
