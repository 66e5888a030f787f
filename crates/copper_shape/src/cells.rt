// The cells of places off the grid, and the octagon round them and a radius. A place is given by whole coordinates, of
// which n make a unit.
ghost use Rattle.std.specs.Prelude.{◌≡◌, ◌≤◌, ◌<◌, ◌*◌, length, IfOk};
ghost use Rattle.std.specs.List.{All};
ghost use Rattle.plane.specs.Narrow.{IsNearZero};
ghost use Rattle.hulls.specs.Cells.{floor_of, ceil_of, points_round, points_round_all};
ghost use Rattle.hulls.specs.Hulls.{hull_of};
ghost use Rattle.copper_shape.specs.Inner.Ranges.{IsPlaceInRoom};

use grid_num::{Memory, Point, ceil_div};
use octagon::Oct;
use std::alloc::Global;

// The octagon of copper with these corners and a radius in halves.
pub fn hull(alloc: Global, n: u32, corners: &[Point], radius: u32) -> Result<Oct, Memory>
    requires some { 0 < length corners.now }
    requires scale { (1 ≤ n) × (n ≤ 256) }
    requires places { All (IsPlaceInRoom n) corners.now }
    requires radius { radius ≤ 2000000000 }
    ensures { IfOk result (λ h. h ≡ hull_of n corners.now radius) }
{
    let cells = cells(alloc, n, corners)?;
    let around = Oct::of_points(cells.as_slice());
    Ok(around.sum(&Oct::ball(radius.div_ceil(4))))
}

// The grid points round all places.
fn cells(alloc: Global, n: u32, places: &[Point]) -> Result<Vec<Point>, Memory>
    requires scale { (1 ≤ n) × (n ≤ 256) }
    requires places { All (IsPlaceInRoom n) places.now }
    ensures { IfOk result (λ cells. cells.items ≡ points_round_all n places.now) }
{
    let mut cells = Vec::new(alloc);
    'each: for place in places {
        cells.extend_from_slice(&cell(n, *place))?;
    }
    Ok(cells)
}

// The grid points round a place.
fn cell(n: u32, place: Point) -> [Point; 4]
    requires scale { (1 ≤ n) × (n ≤ 256) }
    requires place { IsPlaceInRoom n place }
    ensures { result ≡ points_round n place }
{
    let west = down(place.x, n);
    let east = up(place.x, n);
    let north = down(place.y, n);
    let south = up(place.y, n);
    [
        Point { x: west, y: north },
        Point { x: east, y: north },
        Point { x: west, y: south },
        Point { x: east, y: south },
    ]
}

// z / n, rounded down.
fn down(z: i64, n: u32) -> i64
    requires scale { (1 ≤ n) × (n ≤ 256) }
    requires near { IsNearZero (n * 500000000) z }
    ensures value { result ≡ floor_of n z }
    ensures near { IsNearZero 500000000 result }
{
    -ceil_div(-z, n as i64)
}

// z / n, rounded up.
fn up(z: i64, n: u32) -> i64
    requires scale { (1 ≤ n) × (n ≤ 256) }
    requires near { IsNearZero (n * 500000000) z }
    ensures value { result ≡ ceil_of n z }
    ensures near { IsNearZero 500000000 result }
{
    ceil_div(z, n as i64)
}
