// An octagon without another: from the eight sides of the other, one after the other, what lies beyond is cut off as a
// piece of its own, until only what is common to both is left.
//
//      +---------------+
//      |      top      |
//      +----+-----+----+
//      |    / ### \    |      top, bottom, left, right, and then the four corners
//      |left| ### |right
//      |    \ ### /    |
//      +----+-----+----+
//      |    bottom     |
//      +---------------+
ghost use Rattle.std.specs.Prelude.{◌≡◌, ◌↔◌, ◌^◌, ℤ, ◌≤ℤ◌, IsTrue, IfOk};
ghost use Rattle.plane.specs.Plane.{Within};
ghost use Rattle.plane.specs.Narrow.{IsNearZero, IsOrdered, Holds};
ghost use Rattle.scan_rows.specs.Sets.{IsRestAdded};
ghost use Rattle.scan_rows.specs.Inner.Cutting.{bounds, IsBounded, limit_of, IsBeyond, IsCutOff, IsAdded};
ghost use Rattle.octagon.specs.Inner.Hull.{IsLesser, IsGreater};

use grid_num::Memory;
use octagon::Oct;

// A side of an octagon, or a corner that a slanted side cuts off.
#[derive(Clone, Copy)]
pub(crate) enum Side {
    Top,
    Bottom,
    Left,
    Right,
    TopLeft,
    BottomRight,
    BottomLeft,
    TopRight,
}

// Eight bounds that need not be tight: what is left of an octagon.
#[derive(Clone, Copy)]
pub(crate) struct Eight {
    x0: i64,
    x1: i64,
    y0: i64,
    y1: i64,
    s0: i64,
    s1: i64,
    d0: i64,
    d1: i64,
}

// Adds the grid points of the one octagon that the other doesn't have, as octagons that are apart.
pub(crate) fn add_beside(out: &mut Vec<Oct>, own: &Oct, other: &Oct) -> Result<(), Memory>
    ensures { IfOk result (λ _. IsRestAdded own.now other.now out.old.items out.new.items) }
{
    let whole = eight_of(own);
    let a = cut_off(out, &whole, other, Side::Top)?;
    let b = cut_off(out, &a, other, Side::Bottom)?;
    let c = cut_off(out, &b, other, Side::Left)?;
    let d = cut_off(out, &c, other, Side::Right)?;
    let e = cut_off(out, &d, other, Side::TopLeft)?;
    let f = cut_off(out, &e, other, Side::BottomRight)?;
    let g = cut_off(out, &f, other, Side::BottomLeft)?;
    let _common = cut_off(out, &g, other, Side::TopRight)?;
    Ok(())
}

// The octagon's bounds.
pub(crate) fn eight_of(o: &Oct) -> Eight
    ensures value { bounds result ≡ o.now }
    ensures bounded { IsBounded (bounds result) }
{
    Eight {
        x0: o.x0(),
        x1: o.x1(),
        y0: o.y0(),
        y1: o.y1(),
        s0: o.s0(),
        s1: o.s1(),
        d0: o.d0(),
        d1: o.d1(),
    }
}

// The bound of the octagon on that side.
pub(crate) fn limit_of(o: &Oct, side: Side) -> i64
    ensures value { result ≡ limit_of side o.now }
    ensures near { IsNearZero (2 ^ 42) result }
{
    match side {
        Side::Top => o.y0(),
        Side::Bottom => o.y1(),
        Side::Left => o.x0(),
        Side::Right => o.x1(),
        Side::TopLeft => o.s0(),
        Side::BottomRight => o.s1(),
        Side::BottomLeft => o.d0(),
        Side::TopRight => o.d1(),
    }
}

// Adds the grid points beyond a side of the other as a piece, and leaves the rest.
pub(crate) fn cut_off(
    out: &mut Vec<Oct>,
    b: &Eight,
    other: &Oct,
    side: Side,
) -> Result<Eight, Memory>
    requires { IsBounded (bounds b.now) }
    ensures cut { IfOk result (λ rest. IsCutOff side (limit_of side other.now) (bounds b.now) out.old.items out.new.items (bounds rest)) }
    ensures bounded { IfOk result (λ rest. IsBounded (bounds rest)) }
{
    let limit = limit_of(other, side);
    add(out, &beyond(b, side, limit))?;
    Ok(inside(b, side, limit))
}

// What lies beyond the side.
fn beyond(b: &Eight, side: Side, limit: i64) -> Eight
    requires near { IsNearZero (2 ^ 42) limit }
    requires bounded { IsBounded (bounds b.now) }
    ensures points { (x y : ℤ) → Within (bounds result) x y ↔ (Within (bounds b.now) x y × IsBeyond side limit x y) }
    ensures bounded { IsBounded (bounds result) }
{
    let under = limit - 1;
    let over = limit + 1;
    match side {
        Side::Top => Eight {
            y1: lesser(b.y1, under),
            ..*b
        },
        Side::Bottom => Eight {
            y0: greater(b.y0, over),
            ..*b
        },
        Side::Left => Eight {
            x1: lesser(b.x1, under),
            ..*b
        },
        Side::Right => Eight {
            x0: greater(b.x0, over),
            ..*b
        },
        Side::TopLeft => Eight {
            s1: lesser(b.s1, under),
            ..*b
        },
        Side::BottomRight => Eight {
            s0: greater(b.s0, over),
            ..*b
        },
        Side::BottomLeft => Eight {
            d1: lesser(b.d1, under),
            ..*b
        },
        Side::TopRight => Eight {
            d0: greater(b.d0, over),
            ..*b
        },
    }
}

// What doesn't.
pub(crate) fn inside(b: &Eight, side: Side, limit: i64) -> Eight
    requires bounded { IsBounded (bounds b.now) }
    ensures points { (x y : ℤ) → Within (bounds result) x y ↔ (Within (bounds b.now) x y × ¬ (IsBeyond side limit x y)) }
    ensures bounded { IsBounded (bounds result) }
{
    match side {
        Side::Top => Eight {
            y0: greater(b.y0, limit),
            ..*b
        },
        Side::Bottom => Eight {
            y1: lesser(b.y1, limit),
            ..*b
        },
        Side::Left => Eight {
            x0: greater(b.x0, limit),
            ..*b
        },
        Side::Right => Eight {
            x1: lesser(b.x1, limit),
            ..*b
        },
        Side::TopLeft => Eight {
            s0: greater(b.s0, limit),
            ..*b
        },
        Side::BottomRight => Eight {
            s1: lesser(b.s1, limit),
            ..*b
        },
        Side::BottomLeft => Eight {
            d0: greater(b.d0, limit),
            ..*b
        },
        Side::TopRight => Eight {
            d1: lesser(b.d1, limit),
            ..*b
        },
    }
}

fn lesser(a: i64, b: i64) -> i64
    ensures { IsLesser a b result }
{
    if a < b { a } else { b }
}

fn greater(a: i64, b: i64) -> i64
    ensures { IsGreater a b result }
{
    if a < b { b } else { a }
}

// Adds the grid points within the bounds, if there are any.
pub(crate) fn add(out: &mut Vec<Oct>, b: &Eight) -> Result<(), Memory>
    requires { IsBounded (bounds b.now) }
    ensures { IfOk result (λ _. IsAdded (bounds b.now) out.old.items out.new.items) }
{
    match piece_of(b) {
        None => Ok(()),
        Some(piece) => {
            out.push(piece)?;
            Ok(())
        }
    }
}

// The octagon of the grid points within the bounds.
fn piece_of(b: &Eight) -> Option<Oct>
    requires { IsBounded (bounds b.now) }
    ensures { (x y : ℤ) → Holds result x y ↔ Within (bounds b.now) x y }
{
    if !ordered(b) {
        return None;
    }
    Oct::of_bounds([b.x0, b.x1, b.y0, b.y1, b.s0, b.s1, b.d0, b.d1])
}

// Whether no pair of bounds is the wrong way round.
fn ordered(b: &Eight) -> bool
    ensures { IsTrue result ↔ IsOrdered (bounds b.now) }
{
    let x = is_no_more(b.x0, b.x1);
    let y = is_no_more(b.y0, b.y1);
    let s = is_no_more(b.s0, b.s1);
    let d = is_no_more(b.d0, b.d1);
    all(x, y, s, d)
}

fn is_no_more(a: i64, b: i64) -> bool
    ensures { IsTrue result ↔ (a ≤ℤ b) }
{
    a <= b
}

// One test for each direction, so that no join nests.
fn all(x: bool, y: bool, s: bool, d: bool) -> bool
    ensures { IsTrue result ↔ (IsTrue x × IsTrue y × IsTrue s × IsTrue d) }
{
    x && y && s && d
}
