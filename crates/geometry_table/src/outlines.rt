// What an outline covers, asked of `covers`, of the octagons inside and of those outside.
ghost use Rattle.std.specs.Prelude.{◌^◌, IfOk};
ghost use Rattle.std.specs.List.{All};
ghost use Rattle.outline_slab.specs.Rules.{IsInSpan, IsPointWithin};

use grid_num::{Memory, Point};
use octagon::Oct;
use outline_slab::Outline;
use std::alloc::{AllocError, Global};

// A corner that lies within half a metre, as all of the table do.
fn near(p: Point) -> Point
    ensures { IsInSpan result }
{
    Point {
        x: p.x.max(-500_000_000).min(500_000_000),
        y: p.y.max(-500_000_000).min(500_000_000),
    }
}

fn with(points: Vec<Point>, p: Point) -> Result<Vec<Point>, Memory>
    requires points { All IsInSpan points.items }
    requires p { IsInSpan p }
    ensures { IfOk result (λ v. All IsInSpan v.items) }
{
    let mut points = points;
    points.push(p)?;
    Ok(points)
}

fn points_of(alloc: Global, corners: &[Point]) -> Result<Vec<Point>, Memory>
    ensures { IfOk result (λ v. All IsInSpan v.items) }
{
    let mut points = Vec::new(alloc);
    'each: for i in 0..corners.len() {
        points = with(points, near(corners[i]))?;
    }
    Ok(points)
}

fn outline_of(alloc: Global, corners: &[Point]) -> Option<Outline> {
    let Ok(points) = points_of(alloc, corners) else {
        return None;
    };
    Outline::make(alloc, &points).ok()
}

/// Says how many corners the outline has.
pub fn made(alloc: Global, corners: &[Point]) -> Result<Option<String>, AllocError> {
    let Some(outline) = outline_of(alloc, corners) else {
        return Ok(None);
    };
    let count = outline.vertices().len();
    Ok(Some(format!(in alloc; "outline of {count} corners\n")?))
}

// A place in hundredths of a millimetre, 5,000 units each, at the scale 1024, moved to the right by parts of a unit.
fn at(x: i16, y: i16, nudge: i8) -> Point
    ensures { IsPointWithin (2 ^ 50) result }
{
    Point {
        x: x as i64 * 5120000 + nudge as i64,
        y: y as i64 * 5120000,
    }
}

// The place of three numbers.
fn at_words(words: &[&str]) -> Option<(i16, i16, i8)> {
    let [x, y, nudge] = *words else {
        return None;
    };
    Some((
        x.parse::<i16>().ok()?,
        y.parse::<i16>().ok()?,
        nudge.parse::<i8>().ok()?,
    ))
}

// Whether z, at the scale 1024, is in the range.
fn is_between(low: i64, z: i128, high: i64) -> bool {
    1024 * i128::from(low) <= z && z <= 1024 * i128::from(high)
}

// Whether the place, at the scale 1024, is in the octagon.
fn has(oct: &Oct, p: Point) -> bool {
    let x = i128::from(p.x);
    let y = i128::from(p.y);
    let across = is_between(oct.x0(), x, oct.x1());
    let down = is_between(oct.y0(), y, oct.y1());
    let sum = is_between(oct.s0(), x + y, oct.s1());
    let difference = is_between(oct.d0(), x - y, oct.d1());
    across && down && sum && difference
}

fn is_in_some(octs: &[Oct], p: Point) -> bool {
    for oct in octs {
        if has(oct, p) {
            return true;
        }
    }
    false
}

// Where a place is, as `covers` and the two lists of octagons have it. Beyond is outside the rectangle that is a unit
// wider than the outline.
fn where_is(
    outline: &Outline,
    inner: &[Oct],
    outer: &[Oct],
    x: i16,
    y: i16,
    nudge: i8,
) -> &'static str {
    let p = at(x, y, nudge);
    match (
        outline.covers(p, 1024),
        is_in_some(inner, p),
        is_in_some(outer, p),
    ) {
        (true, true, false) => "inside",
        (true, true, true) => "edge",
        (false, false, true) => "outside",
        (false, false, false) => "beyond",
        _ => "told differently",
    }
}

/// Says where a place is.
pub fn place(
    alloc: Global,
    corners: &[Point],
    words: &[&str],
) -> Result<Option<String>, AllocError> {
    let Some(outline) = outline_of(alloc, corners) else {
        return Ok(None);
    };
    let Some((x, y, nudge)) = at_words(words) else {
        return Ok(None);
    };
    let Ok(inner) = outline.inner(alloc) else {
        return Ok(None);
    };
    let Ok(outer) = outline.outer(alloc, &outline.wide_frame()) else {
        return Ok(None);
    };
    let spot = where_is(&outline, &inner, &outer, x, y, nudge);
    Ok(Some(format!(in alloc; "{spot}\n")?))
}

/// Says whether a place is covered.
pub fn cover(
    alloc: Global,
    corners: &[Point],
    words: &[&str],
) -> Result<Option<String>, AllocError> {
    let Some(outline) = outline_of(alloc, corners) else {
        return Ok(None);
    };
    let Some((x, y, nudge)) = at_words(words) else {
        return Ok(None);
    };
    let answer = if outline.covers(at(x, y, nudge), 1024) {
        "covered"
    } else {
        "free"
    };
    Ok(Some(format!(in alloc; "{answer}\n")?))
}
