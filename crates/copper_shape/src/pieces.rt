// The hulls of a segment: one octagon, or where it is slanted one of each of its equal pieces.
ghost use Rattle.std.specs.Prelude.{◌≡◌, ◌≤◌, ◌<◌, ◌+◌, ◌*◌, ◌&&◌, pos, ◌+ℤ◌, ◌*ℤ◌, IfOk};
ghost use Rattle.plane.specs.Narrow.{IsNearZero};
ghost use Rattle.touching.specs.Core.{line};
ghost use Rattle.hulls.specs.Hulls.{cut_at as place_of, piece_count as count_of, piece_hull as hull_of_piece, is_slanted as slants, hulls_of};
ghost use Rattle.cores.specs.Room.{IsInRoom, spot};
ghost use Rattle.copper_shape.specs.Inner.Ranges.{IsPlaceInRoom};

use crate::cells::hull;
use grid_num::{Memory, Point};
use octagon::Oct;
use std::alloc::Global;

// The hulls of the segment with a radius, all in halves.
pub fn segment_hulls(alloc: Global, from: Point, to: Point, radius: u32) -> Result<Vec<Oct>, Memory>
    requires from { IsInRoom 2000000000 from }
    requires to { IsInRoom 2000000000 to }
    requires radius { radius ≤ 2000000000 }
    ensures { IfOk result (λ hulls. hulls.items ≡ hulls_of (line (spot from) (spot to)) radius) }
{
    let count = piece_count(to.x.abs_diff(from.x), to.y.abs_diff(from.y));
    let mut hulls = Vec::new(alloc);
    'each: for i in 0..count {
        hulls.push(piece_hull(alloc, from, to, count, radius, i)?)?;
    }
    Ok(hulls)
}

// The octagon of the piece from the i-th place to the next.
fn piece_hull(
    alloc: Global,
    from: Point,
    to: Point,
    count: u32,
    radius: u32,
    i: u32,
) -> Result<Oct, Memory>
    requires from { IsInRoom 2000000000 from }
    requires to { IsInRoom 2000000000 to }
    requires radius { radius ≤ 2000000000 }
    requires count { count ≤ 64 }
    requires i { i < count }
    ensures { IfOk result (λ h. h ≡ hull_of_piece (spot from) (spot to) count radius i) }
{
    let start = cut_at(from, to, count, i);
    let finish = cut_at(from, to, count, i + 1);
    hull(alloc, 4 * count, &[start, finish], radius)
}

// The i-th of the places that cut the segment into so many equal pieces, times their number.
fn cut_at(from: Point, to: Point, count: u32, i: u32) -> Point
    requires from { IsInRoom 2000000000 from }
    requires to { IsInRoom 2000000000 to }
    requires count { count ≤ 64 }
    requires i { i ≤ count }
    ensures value { result ≡ place_of (spot from) (spot to) count i }
    ensures place { IsPlaceInRoom (4 * count) result }
{
    Point {
        x: mean(count - i, from.x, i, to.x),
        y: mean(count - i, from.y, i, to.y),
    }
}

// The two numbers with their weights.
fn mean(i: u32, s: i64, j: u32, t: i64) -> i64
    requires s { IsNearZero 2000000000 s }
    requires t { IsNearZero 2000000000 t }
    requires weights { i + j ≤ 64 }
    ensures value { result ≡ pos i *ℤ s +ℤ pos j *ℤ t }
    ensures near { IsNearZero ((i + j) * 2000000000) result }
{
    i as i64 * s + j as i64 * t
}

// Into how many pieces a segment of that width and height is cut.
fn piece_count(width: u64, height: u64) -> u32
    ensures value { result ≡ count_of width height }
    ensures most { result ≤ 64 }
{
    if is_slanted(width, height) {
        width.max(height).div_ceil(400_000).max(1).min(64) as u32
    } else {
        1
    }
}

// Whether it is neither level nor upright nor slanted by 45 degrees.
fn is_slanted(width: u64, height: u64) -> bool
    ensures { result ≡ slants width height }
{
    all(width != 0, height != 0, width != height)
}

// One test of three, so that no join nests.
fn all(first: bool, second: bool, third: bool) -> bool
    ensures { result ≡ first && (second && third) }
{
    first && second && third
}
