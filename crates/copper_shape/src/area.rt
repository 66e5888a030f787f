// The hull of an area.
ghost use Rattle.std.specs.Prelude.{◌≡◌, ◌≤◌, IfOk};
ghost use Rattle.plane.specs.Plane.{IsTight};
ghost use Rattle.plane.specs.Corners.{corners_of};
ghost use Rattle.touching.specs.Core.{area};
ghost use Rattle.hulls.specs.Hulls.{hulls_of};
ghost use Rattle.octagon.specs.Room.{IsAround};

use crate::cells::hull;
use cores::AreaBounds;
use grid_num::{Memory, Point};
use octagon::Oct;
use std::alloc::Global;

// The one hull of an area and a radius, in halves.
pub fn area_hulls(alloc: Global, bounds: &AreaBounds, radius: u32) -> Result<Vec<Oct>, Memory>
    requires tight { IsTight bounds.now }
    requires within { IsAround 2000000000 bounds.now }
    requires radius { radius ≤ 2000000000 }
    ensures { IfOk result (λ hulls. hulls.items ≡ hulls_of (area bounds.now) radius) }
{
    let mut hulls = Vec::new(alloc);
    hulls.push(hull(alloc, 4, &corners(bounds), radius)?)?;
    Ok(hulls)
}

// The corners, clockwise on the screen, from the left end of the top edge.
fn corners(area: &AreaBounds) -> [Point; 8]
    requires tight { IsTight area.now }
    requires within { IsAround 2000000000 area.now }
    ensures { result ≡ corners_of area.now }
{
    [
        Point {
            x: area.s0 - area.y0,
            y: area.y0,
        },
        Point {
            x: area.d1 + area.y0,
            y: area.y0,
        },
        Point {
            x: area.x1,
            y: area.x1 - area.d1,
        },
        Point {
            x: area.x1,
            y: area.s1 - area.x1,
        },
        Point {
            x: area.s1 - area.y1,
            y: area.y1,
        },
        Point {
            x: area.d0 + area.y1,
            y: area.y1,
        },
        Point {
            x: area.x0,
            y: area.x0 - area.d0,
        },
        Point {
            x: area.x0,
            y: area.s0 - area.x0,
        },
    ]
}
