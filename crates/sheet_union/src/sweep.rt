// From row to row, with the octagons that are open.
ghost use Rattle.std.specs.Prelude.{◌≡◌, ◌^◌, ◌≤◌, ◌++◌, length, IfOk, drop};
ghost use Rattle.std.specs.List.{All};
ghost use Rattle.std.specs.List.Sorted.{IsPermutation};
ghost use Rattle.plane.specs.Narrow.{IsNearZero};
ghost use Rattle.strips.specs.Strips.{in_nanometres};
ghost use Rattle.strips.specs.Inner.Sweep.{AreCutRows, AreSheetStrips};
ghost use Rattle.sheet_union.specs.Near.{IsNearStrip};
ghost use Rattle.sheet_union.specs.Inner.Rows.{AreFromTop};
ghost use Rattle.sheet_union.specs.Inner.Sweep.{begun, waiting, reaching_below};

use crate::merge::put_slab;
use grid_num::Memory;
use octagon::Oct;
use std::alloc::Global;
use strips::Strip;

/// The octagons from the top. Refuses for want of memory alone.
pub fn from_top(alloc: Global, octs: &[Oct]) -> Result<Vec<Oct>, Memory>
    ensures order { IfOk result (λ v. IsPermutation octs.now v.items) }
    ensures sorted { IfOk result (λ v. AreFromTop v.items) }
{
    let mut sorted = Vec::from_slice(alloc, octs)?;
    sorted.sort_by_key(|oct| oct.y0())?;
    Ok(sorted)
}

// Opens the octagons, from the place `next` on, that begin in the row or above it. Answers the place of the first that doesn't.
fn open_begun(opened: &mut Vec<Oct>, octs: &[Oct], next: usize, row: i64) -> Result<usize, Memory>
    requires { next ≤ length octs.now }
    ensures opened { IfOk result (λ _. opened.new.items ≡ opened.old.items ++ begun row (drop next octs.now)) }
    ensures waiting { IfOk result (λ place. drop place octs.now ≡ waiting row (drop next octs.now)) }
    ensures place { IfOk result (λ place. place ≤ length octs.now) }
{
    let mut place = next;
    'each: while place < octs.len() {
        let oct = octs[place];
        if row < 2 * oct.y0() {
            return Ok(place);
        }
        opened.push(oct)?;
        place += 1;
    }
    Ok(place)
}

// The octagons that end in the row or below it.
fn still_open(alloc: Global, octs: &[Oct], row: i64) -> Result<Vec<Oct>, Memory>
    ensures { IfOk result (λ v. v.items ≡ reaching_below row octs.now) }
{
    let mut open = Vec::new(alloc);
    'each: for oct in octs {
        if row <= 2 * oct.y1() {
            open.push(*oct)?;
        }
    }
    Ok(open)
}

/// The strips of octagons that are listed from the top, for the rows that cut. Refuses for want of memory alone.
pub fn swept(alloc: Global, octs: &[Oct], rows: &[i64]) -> Result<Vec<Strip>, Memory>
    requires octs { AreFromTop octs.now }
    requires rows { AreCutRows (in_nanometres octs.now) rows.now }
    requires near { All (λ r. IsNearZero (2 ^ 43) r) rows.now }
    ensures strips { IfOk result (λ v. AreSheetStrips (in_nanometres octs.now) rows.now v.items) }
    ensures near { IfOk result (λ v. All (λ s. IsNearStrip s) v.items) }
{
    let mut strips = Vec::new(alloc);
    let mut open = Vec::new(alloc);
    let mut next = 0;
    'slab: for k in 1..rows.len() {
        let top = rows[k - 1];
        let bottom = rows[k];
        next = open_begun(&mut open, octs, next, top)?;
        open = still_open(alloc, &open, bottom)?;
        put_slab(alloc, &mut strips, &open, top, bottom)?;
    }
    Ok(strips)
}
