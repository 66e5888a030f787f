// What octagons are on a stretch of rows.
ghost use Rattle.std.specs.Prelude.{◌≡◌, ℕ, ◌^◌, ◌≤◌, pos, ◌+ℤ◌, ◌≤ℤ◌, IfOk, IfSome, IsNone, IsTrue, false};
ghost use Rattle.plane.specs.Narrow.{IsNearZero};
ghost use Rattle.scan_runs.specs.Inner.Ends.{IsLeftFor};
ghost use Rattle.scan_runs.specs.Inner.Parts.{IsOctPart, ArePartsOf, IsWith};

use crate::ends::{left_of, right_of};
use grid_num::Memory;
use grid_sets::{End, Slant};
use octagon::Oct;
use std::alloc::Global;

// What an octagon is on a stretch of rows.
#[derive(Clone, Copy)]
pub(crate) enum Part {
    Absent,
    Along(Slant),
    Bent,
}

// The runs of the octagons, each for itself; None where one of them is bent.
pub(crate) fn parts_of(
    alloc: Global,
    octs: &[Oct],
    top: i64,
    more: u64,
) -> Result<Option<Vec<Slant>>, Memory>
    requires top { IsNearZero (2 ^ 40) top }
    requires more { more ≤ 2 ^ 41 }
    ensures some { IfOk result (λ r. IfSome r (λ parts. ArePartsOf octs.now top more parts.items)) }
    ensures none { IfOk result (λ r. IsNone r → 1 ≤ more) }
{
    let mut parts = Vec::with_capacity(alloc, octs.len())?;
    'octs: for oct in octs {
        if !add_part(&mut parts, oct, top, more)? {
            return Ok(None);
        }
    }
    Ok(Some(parts))
}

// Adds the run of the octagon, if it is on the rows. False where it is bent.
fn add_part(out: &mut Vec<Slant>, o: &Oct, top: i64, more: u64) -> Result<bool, Memory>
    requires top { IsNearZero (2 ^ 40) top }
    requires more { more ≤ 2 ^ 41 }
    ensures yes { IfOk result (λ r. IsTrue r → IsWith o.now top more out.old.items out.new.items) }
    ensures no { IfOk result (λ r. r ≡ false → 1 ≤ more) }
{
    match part_of(o, top, more) {
        Part::Absent => Ok(true),
        Part::Along(run) => {
            out.push(run)?;
            Ok(true)
        }
        Part::Bent => Ok(false),
    }
}

// What the octagon is on the rows.
fn part_of(o: &Oct, top: i64, more: u64) -> Part
    requires top { IsNearZero (2 ^ 40) top }
    requires more { more ≤ 2 ^ 41 }
    ensures { IsOctPart o.now top more result }
{
    let bottom = top + more as i64;
    let y0 = o.y0();
    let y1 = o.y1();
    if y1 < top {
        return Part::Absent;
    }
    if bottom < y0 {
        return Part::Absent;
    }
    if top < y0 {
        return Part::Bent;
    }
    if y1 < bottom {
        return Part::Bent;
    }
    let x0 = o.x0();
    let s0 = o.s0();
    let d0 = o.d0();
    match left_of(x0, s0, d0, top, more) {
        None => Part::Bent,
        Some(from) => ended(o, top, more, from),
    }
}

// What the octagon is, whose runs begin at the end.
fn ended(o: &Oct, top: i64, more: u64, from: End) -> Part
    requires top { IsNearZero (2 ^ 40) top }
    requires more { more ≤ 2 ^ 41 }
    requires high { o.now.y0 ≤ℤ top }
    requires low { (top +ℤ pos more) ≤ℤ o.now.y1 }
    requires from { IsLeftFor o.now.x0 o.now.s0 o.now.d0 top more from }
    ensures { IsOctPart o.now top more result }
{
    let x1 = o.x1();
    let s1 = o.s1();
    let d1 = o.d1();
    match right_of(x1, s1, d1, top, more) {
        None => Part::Bent,
        Some(to) => Part::Along(Slant { from, to }),
    }
}
