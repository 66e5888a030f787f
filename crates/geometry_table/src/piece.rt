// The hulls of a segment with a radius.
ghost use Rattle.std.specs.Prelude.{IfSome};
ghost use Rattle.cores.specs.Room.{IsInRoom};

use crate::words::number;
use copper_shape::Shape;
use grid_num::Point;
use std::alloc::{AllocError, Global};

// A place in halves, if it is within a metre of 0.
fn place(x: i64, y: i64) -> Option<Point>
    ensures { IfSome result (IsInRoom 2000000000) }
{
    if x.unsigned_abs() > 2_000_000_000 {
        return None;
    }
    if y.unsigned_abs() > 2_000_000_000 {
        return None;
    }
    Some(Point { x, y })
}

/// How many hulls there are, and the bounds of the one of that number.
pub fn hull(alloc: Global, words: &[&str]) -> Result<Option<String>, AllocError> {
    let [x, y, u, v, radius, which] = *words else {
        return Ok(None);
    };
    let (Some(from), Some(to)) = (place(number(x), number(y)), place(number(u), number(v))) else {
        return Ok(None);
    };
    let (Ok(radius), Ok(which)) = (radius.parse::<u32>(), which.parse::<usize>()) else {
        return Ok(None);
    };
    if radius > 2_000_000_000 {
        return Ok(None);
    }
    let Ok(hulls) = Shape::capsule(from, to, radius).hulls(alloc) else {
        return Ok(None);
    };
    let Some(o) = hulls.get(which) else {
        return Ok(None);
    };
    let (x0, x1, y0, y1) = (o.x0(), o.x1(), o.y0(), o.y1());
    let (s0, s1, d0, d1) = (o.s0(), o.s1(), o.d0(), o.d1());
    let count = hulls.len();
    Ok(Some(format!(in alloc; "hulls {count}: {x0} {x1} {y0} {y1} {s0} {s1} {d0} {d1}\n")?))
}
