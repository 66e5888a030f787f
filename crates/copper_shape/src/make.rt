// The makers of shapes.
ghost use Rattle.std.specs.Prelude.{◌≡◌, ◌≤◌, ◌⊎◌, ℤ, pos, ◌+ℤ◌, ◌-ℤ◌};
ghost use Rattle.plane.specs.Plane.{box_of, times, grid_point};
ghost use Rattle.octagon.specs.Room.{IsAround};
ghost use Rattle.touching.specs.Core.{InCore, area, line};
ghost use Rattle.cores.specs.Room.{IsInRoom, IsCoreInRoom, spot};
ghost use Rattle.hulls.specs.Laws.{IsPad};
ghost use Rattle.copper_shape.specs.Shapes.{IsBoxWithin};

use crate::Shape;
use cores::Core;
use grid_num::Point;
use octagon::Oct;

impl Shape {
    /// A disc, as a via or a round pad.
    pub fn disc(center: Point, radius: u32) -> Shape
        requires center { IsInRoom 2000000000 center }
        requires radius { radius ≤ 2000000000 }
        ensures value { result ≡ record { core = area (box_of center.x center.x center.y center.y); radius = radius } }
        ensures pad { IsPad result.core }
        ensures centre { InCore result.core (grid_point center.x center.y) }
    {
        with_radius(Core::point(center), radius)
    }

    /// A segment with round ends, as a track or an oval pad.
    pub fn capsule(from: Point, to: Point, radius: u32) -> Shape
        requires from { IsInRoom 2000000000 from }
        requires to { IsInRoom 2000000000 to }
        requires radius { radius ≤ 2000000000 }
        ensures value { result ≡ record { core = line (spot from) (spot to); radius = radius } }
        ensures pad { (from.x ≡ to.x) ⊎ (from.y ≡ to.y) → IsPad result.core }
        ensures centre { (x y : ℤ) → x +ℤ x ≡ from.x +ℤ to.x → y +ℤ y ≡ from.y +ℤ to.y → InCore result.core (grid_point x y) }
    {
        with_radius(Core::segment(from, to), radius)
    }

    /// A rectangle with rounded corners, as a pad: `hx` and `hy` are half the sides of the core, so the copper reaches
    /// by the radius beyond them.
    pub fn box_round(center: Point, hx: u32, hy: u32, radius: u32) -> Shape
        requires within { IsBoxWithin 2000000000 center hx hy }
        requires radius { radius ≤ 2000000000 }
        ensures value { result ≡ record {
          core = area (box_of (center.x -ℤ pos hx) (center.x +ℤ pos hx) (center.y -ℤ pos hy) (center.y +ℤ pos hy));
          radius = radius;
        } }
        ensures pad { IsPad result.core }
        ensures centre { InCore result.core (grid_point center.x center.y) }
    {
        let least = Point {
            x: center.x - hx as i64,
            y: center.y - hy as i64,
        };
        let greatest = Point {
            x: center.x + hx as i64,
            y: center.y + hy as i64,
        };
        with_radius(Core::rectangle(least, greatest), radius)
    }

    /// An octagon of units, as a piece of a fill, without a radius: in halves its bounds are four times as great.
    pub fn of_oct(oct: &Oct) -> Shape
        requires { IsAround 500000000 oct.now }
        ensures { result ≡ record { core = area (times 4 oct.now); radius = 0 } }
    {
        with_radius(Core::of_oct(oct), 0)
    }
}

// The shape of both. That the core is whole is what each core tells when it is read.
fn with_radius(core: Core, radius: u32) -> Shape
    requires within { IsCoreInRoom 2000000000 core }
    requires radius { radius ≤ 2000000000 }
    ensures { result ≡ record { core = core; radius = radius } }
{
    let _ = core.kind();
    Shape { core, radius }
}
