// Two cores, and the least reach at which they touch.
ghost use Rattle.octagon.specs.Bounded.{IsInReach};
ghost use Rattle.cores.specs.Room.{IsNearZero, IsInRoom};

use crate::words::number;
use cores::Core;
use grid_num::Point;
use octagon::Oct;
use std::alloc::{AllocError, Global};

// The number, where it lies within 1,200,000,000 of 0, as all of the table do.
fn near(z: i64) -> i64
    ensures { IsNearZero 1200000000 result }
{
    z.max(-1_200_000_000).min(1_200_000_000)
}

pub fn place(x: i64, y: i64) -> Point
    ensures { IsInRoom 1200000000 result }
{
    Point {
        x: near(x),
        y: near(y),
    }
}

// The box between two corners, the least first.
fn rectangle(least: Point, greatest: Point) -> Core
    requires least { IsInRoom 1200000000 least }
    requires greatest { IsInRoom 1200000000 greatest }
{
    if least.x <= greatest.x && least.y <= greatest.y {
        return Core::rectangle(least, greatest);
    }
    Core::segment(least, greatest)
}

fn moved(p: Point, x: i64, y: i64) -> Point
    requires p { IsInRoom 1200000000 p }
    requires x { IsNearZero 1200000000 x }
    requires y { IsNearZero 1200000000 y }
    ensures { IsInReach result }
{
    Point {
        x: p.x + x,
        y: p.y + y,
    }
}

fn octagon(p: Point, a: i64, b: i64) -> Oct
    requires p { IsInRoom 1200000000 p }
    requires a { IsNearZero 1200000000 a }
    requires b { IsNearZero 1200000000 b }
{
    Oct::of_points(&[
        moved(p, b, a),
        moved(p, a, b),
        moved(p, a, -b),
        moved(p, b, -a),
        moved(p, -b, -a),
        moved(p, -a, -b),
        moved(p, -a, b),
        moved(p, -b, a),
    ])
}

// The core that a word and four numbers spell.
fn core(form: &str, x: &str, y: &str, a: &str, b: &str) -> Option<Core> {
    let at = place(number(x), number(y));
    let a = near(number(a));
    let b = near(number(b));
    match form {
        "box" => Some(rectangle(at, place(a, b))),
        "segment" => Some(Core::segment(at, place(a, b))),
        "round" => Some(Core::of_oct(&octagon(at, a, b))),
        _ => None,
    }
}

// Whether the two touch at a reach, whichever of them is asked; None where the answers differ, or it may not be asked.
fn is_touching(first: &Core, second: &Core, reach: u32) -> Option<bool> {
    if !first.has_room() || !second.has_room() {
        return None;
    }
    if reach > 400_000_000 {
        return None;
    }
    let one = first.is_within(second, reach);
    let other = second.is_within(first, reach);
    if one == other { Some(one) } else { None }
}

/// Says whether two cores touch at the reach and not at one less.
pub fn touching(alloc: Global, words: &[&str]) -> Result<Option<String>, AllocError> {
    let [form, x, y, a, b, other, z, w, c, d, least] = *words else {
        return Ok(None);
    };
    let (Some(first), Some(second)) = (core(form, x, y, a, b), core(other, z, w, c, d)) else {
        return Ok(None);
    };
    let Ok(least) = least.parse::<u32>() else {
        return Ok(None);
    };
    if is_touching(&first, &second, least) != Some(true) {
        return Ok(Some(format!(in alloc; "apart at {least}\n")?));
    }
    if least == 0 {
        return Ok(Some(format!(in alloc; "touching at 0\n")?));
    }
    match is_touching(&first, &second, least - 1) {
        Some(false) => Ok(Some(format!(in alloc; "touching at {least} and not below\n")?)),
        _ => Ok(Some(format!(in alloc; "touching below {least}\n")?)),
    }
}
