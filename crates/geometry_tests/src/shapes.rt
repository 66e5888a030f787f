// Shapes that tests and the table ask for.
ghost use Rattle.std.specs.Prelude.{◌^◌, ◌<◌, ◌≤◌, pos, ◌≤ℤ◌, IfOk, IfSome};
ghost use Rattle.std.specs.List.{All};
ghost use Rattle.octagon.specs.Bounded.{IsNearZero};
ghost use Rattle.strips.specs.Strips.{HasInside};

use octagon::Oct;
use sheet_union::{Sheet, has_inside};
use std::alloc::{AllocError, Global};

/// Takes only what threads may share and send.
pub fn is_send_and_sync<T: Send + Sync>(_value: &T) {}

// The number, where it lies within 2^40 of 0, as all of the tests do.
fn within(z: i64) -> i64
    ensures { IsNearZero (2 ^ 40) result }
{
    z.max(-1_099_511_627_776).min(1_099_511_627_776)
}

/// The octagon of the bounds x, y, x + y and x - y, which lie within 2^40 of 0.
pub fn oct_of(b: [i64; 8]) -> Option<Oct> {
    Oct::of_bounds([
        within(b[0]),
        within(b[1]),
        within(b[2]),
        within(b[3]),
        within(b[4]),
        within(b[5]),
        within(b[6]),
        within(b[7]),
    ])
}

// The next state of a linear congruential generator.
fn next(state: u32) -> u32 {
    state.wrapping_mul(1_664_525).wrapping_add(1_013_904_223)
}

// A number from 0 to n - 1.
fn drawn(state: u32, n: u32) -> i64
    requires some { 0 < n }
    requires few { n ≤ 1000 }
    ensures { (pos 0 ≤ℤ result) × (result ≤ℤ pos 1000) }
{
    i64::from((state >> 8) % n)
}

/// Bounds of an octagon, maybe without points, that begins within 40 of the origin and is up to 30 wide and high, with
/// up to 12 cut off at each corner.
pub fn generated(seed: u32) -> [i64; 8] {
    let a = next(seed);
    let b = next(a);
    let c = next(b);
    let d = next(c);
    let e = next(d);
    let f = next(e);
    let x0 = drawn(a, 40);
    let x1 = x0 + drawn(b, 30);
    let y0 = drawn(c, 40);
    let y1 = y0 + drawn(d, 30);
    let cut = drawn(e, 12);
    let other = drawn(f, 12);
    [
        x0,
        x1,
        y0,
        y1,
        x0 + y0 + cut,
        x1 + y1 - other,
        x0 - y1 + other,
        x1 - y0 - cut,
    ]
}

/// Whether the point meets all eight bounds.
pub fn meets_all(b: &[i64; 8], x: i64, y: i64) -> bool {
    let s = x.wrapping_add(y);
    let d = x.wrapping_sub(y);
    b[0] <= x
        && x <= b[1]
        && b[2] <= y
        && y <= b[3]
        && b[4] <= s
        && s <= b[5]
        && b[6] <= d
        && d <= b[7]
}

/// The upright rectangle.
pub fn rectangle(x0: i16, x1: i16, y0: i16, y1: i16) -> Option<Oct> {
    let (x0, x1, y0, y1) = (i64::from(x0), i64::from(x1), i64::from(y0), i64::from(y1));
    oct_of([x0, x1, y0, y1, x0 + y0, x1 + y1, x0 - y1, x1 - y0])
}

/// The octagon that reaches r from the centre along x and y, and one and a half times that along the diagonals.
pub fn round(x: u32, y: u32, r: u32) -> Option<Oct> {
    let (x, y, r) = (i64::from(x), i64::from(y), i64::from(r));
    let c = r + r / 2;
    oct_of([
        x - r,
        x + r,
        y - r,
        y + r,
        x + y - c,
        x + y + c,
        x - y - c,
        x - y + c,
    ])
}

/// An octagon of 40 in a square of 10 mm: its centre on a grid of 8 by 5 places, 600,000 and 950,000 units apart, each
/// row moved by 37,000 to the right; it reaches 350,000 and 13,001 more for each place.
pub fn stated(i: u32) -> Option<Oct>
    requires { i < 40 }
{
    let (column, row) = (i % 8, i / 8);
    round(
        300_000 + 600_000 * column + 37_000 * row,
        400_000 + 950_000 * row,
        350_000 + 13_001 * i,
    )
}

/// The octagon of the bounds x, y, x + y and x - y, if it has points strictly inside.
pub fn octagon(b: [i32; 8]) -> Option<Oct>
    ensures { IfSome result (λ o. HasInside o) }
{
    let oct = oct_of([
        i64::from(b[0]),
        i64::from(b[1]),
        i64::from(b[2]),
        i64::from(b[3]),
        i64::from(b[4]),
        i64::from(b[5]),
        i64::from(b[6]),
        i64::from(b[7]),
    ])?;
    if has_inside(&oct) {
        return Some(oct);
    }
    None
}

/// The octagons of the bounds, without those that have no points strictly inside.
pub fn octagons(alloc: Global, all: &[[i32; 8]]) -> Result<Vec<Oct>, AllocError>
    ensures { IfOk result (λ v. All (λ o. HasInside o) v.items) }
{
    let mut octs = Vec::new(alloc);
    'each: for bounds in all {
        if let Some(oct) = octagon(*bounds) {
            octs.push(oct)?;
        }
    }
    Ok(octs)
}

/// Their union; None for want of memory.
pub fn sheet(alloc: Global, all: &[[i32; 8]]) -> Result<Option<Sheet>, AllocError> {
    let octs = octagons(alloc, all)?;
    Ok(Sheet::of(alloc, &octs).ok())
}

/// The bounds x, y, x + y and x - y together.
pub fn shape(x: [i32; 2], y: [i32; 2], s: [i32; 2], d: [i32; 2]) -> [i32; 8] {
    [x[0], x[1], y[0], y[1], s[0], s[1], d[0], d[1]]
}

/// 20,000 octagons in 125 rows of 160, one every 100 units, each as wide and high as `size`, with 10 cut off at each corner
pub fn grid(alloc: Global, size: i32) -> Result<Vec<[i32; 8]>, AllocError> {
    let mut all = Vec::new(alloc);
    'rows: for row in 0..125i32 {
        'columns: for column in 0..160i32 {
            let x = column.wrapping_mul(100);
            let y = row.wrapping_mul(100);
            let end = x.wrapping_add(size);
            let low = y.wrapping_add(size);
            all.push(shape(
                [x, end],
                [y, low],
                [
                    x.wrapping_add(y).wrapping_add(10),
                    end.wrapping_add(low).wrapping_sub(10),
                ],
                [
                    x.wrapping_sub(low).wrapping_add(10),
                    end.wrapping_sub(y).wrapping_sub(10),
                ],
            ))?;
        }
    }
    Ok(all)
}
