// The corners of an area, clockwise on the screen. Each is the start of the side that its name says.
ghost use Rattle.std.specs.Prelude.{◌≡◌};
ghost use Rattle.plane.specs.Plane.{IsTight};
ghost use Rattle.touching.specs.Inner.Decision.{start_of, top, top_right, right, bottom_right, bottom, bottom_left, left, top_left};
ghost use Rattle.cores.specs.Room.{IsInRoom, IsAreaInRoom, spot};

use crate::area::AreaBounds;
use grid_num::Point;

impl AreaBounds {
    // The left end of the top side.
    pub(crate) fn top_start(&self) -> Point
        requires tight { IsTight self.now }
        requires room { IsAreaInRoom 1200000000 self.now }
        ensures value { spot result ≡ start_of self.now top }
        ensures room { IsInRoom 1200000000 result }
    {
        Point {
            x: self.s0 - self.y0,
            y: self.y0,
        }
    }

    // The right end of the top side.
    pub(crate) fn top_right_start(&self) -> Point
        requires tight { IsTight self.now }
        requires room { IsAreaInRoom 1200000000 self.now }
        ensures value { spot result ≡ start_of self.now top_right }
        ensures room { IsInRoom 1200000000 result }
    {
        Point {
            x: self.d1 + self.y0,
            y: self.y0,
        }
    }

    // The upper end of the right side.
    pub(crate) fn right_start(&self) -> Point
        requires tight { IsTight self.now }
        requires room { IsAreaInRoom 1200000000 self.now }
        ensures value { spot result ≡ start_of self.now right }
        ensures room { IsInRoom 1200000000 result }
    {
        Point {
            x: self.x1,
            y: self.x1 - self.d1,
        }
    }

    // The lower end of the right side.
    pub(crate) fn bottom_right_start(&self) -> Point
        requires tight { IsTight self.now }
        requires room { IsAreaInRoom 1200000000 self.now }
        ensures value { spot result ≡ start_of self.now bottom_right }
        ensures room { IsInRoom 1200000000 result }
    {
        Point {
            x: self.x1,
            y: self.s1 - self.x1,
        }
    }

    // The right end of the bottom side.
    pub(crate) fn bottom_start(&self) -> Point
        requires tight { IsTight self.now }
        requires room { IsAreaInRoom 1200000000 self.now }
        ensures value { spot result ≡ start_of self.now bottom }
        ensures room { IsInRoom 1200000000 result }
    {
        Point {
            x: self.s1 - self.y1,
            y: self.y1,
        }
    }

    // The left end of the bottom side.
    pub(crate) fn bottom_left_start(&self) -> Point
        requires tight { IsTight self.now }
        requires room { IsAreaInRoom 1200000000 self.now }
        ensures value { spot result ≡ start_of self.now bottom_left }
        ensures room { IsInRoom 1200000000 result }
    {
        Point {
            x: self.d0 + self.y1,
            y: self.y1,
        }
    }

    // The lower end of the left side.
    pub(crate) fn left_start(&self) -> Point
        requires tight { IsTight self.now }
        requires room { IsAreaInRoom 1200000000 self.now }
        ensures value { spot result ≡ start_of self.now left }
        ensures room { IsInRoom 1200000000 result }
    {
        Point {
            x: self.x0,
            y: self.x0 - self.d0,
        }
    }

    // The upper end of the left side.
    pub(crate) fn top_left_start(&self) -> Point
        requires tight { IsTight self.now }
        requires room { IsAreaInRoom 1200000000 self.now }
        ensures value { spot result ≡ start_of self.now top_left }
        ensures room { IsInRoom 1200000000 result }
    {
        Point {
            x: self.x0,
            y: self.s0 - self.x0,
        }
    }
}
