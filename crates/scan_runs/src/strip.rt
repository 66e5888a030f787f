// The rows of octagons in strips: neighbouring rows whose run ends move in straight lines.
ghost use Rattle.std.specs.Prelude.{◌≡◌, ◌⊎◌, ℕ, ◌^◌, ◌≤◌, List, [], ◌∷◌, ◌++◌, pos, ◌+ℤ◌, ◌≤ℤ◌, ◌<ℤ◌, IsNone, IfSome, IfOk, false};
ghost use Rattle.plane.specs.Narrow.{IsNearZero};
ghost use Rattle.scan_runs.specs.Inner.Parts.{IsSoFar, AreOpenOnRows, IsKeptOpen};
ghost use Rattle.scan_runs.specs.Strips.{AreStripsAdded};

use crate::merge::merged;
use crate::part::parts_of;
use crate::split::split_of;
use grid_num::Memory;
use grid_sets::Slant;
use octagon::Oct;
use std::alloc::Global;

/// A row and `more` rows below it: their first y, and the runs of the first row with their moves from each row to the
/// next.
#[derive(Drop)]
pub struct RowStrip {
    pub top: i64,
    pub more: u64,
    pub runs: Vec<Slant>,
}

// Adds the rows of the octagons on a stretch. Each stretch is handed the octagons that were open above it.
pub(crate) fn strips(
    alloc: Global,
    octs: &[Oct],
    top: i64,
    more: u64,
    out: &mut Vec<RowStrip>,
) -> Result<(), Memory>
    requires top { IsNearZero (2 ^ 40) top }
    requires bottom { (top +ℤ pos more) ≤ℤ pos (2 ^ 40) }
    requires more { more ≤ 2 ^ 41 }
    ensures { IfOk result (λ _. AreStripsAdded octs.now top more out.old.items out.new.items) }
{
    let near = open_of(alloc, octs, top, more)?;
    if let Some(runs) = straight(alloc, &near, top, more)? {
        return add(out, top, more, runs);
    }
    let half = split_of(&near, top, more);
    let rest = more - half - 1;
    let next = top + half as i64 + 1;
    strips(alloc, &near, top, half, out)?;
    strips(alloc, &near, next, rest, out)
}

// The octagons that have a row on the stretch.
fn open_of(alloc: Global, octs: &[Oct], top: i64, more: u64) -> Result<Vec<Oct>, Memory>
    requires top { IsNearZero (2 ^ 40) top }
    requires more { more ≤ 2 ^ 41 }
    ensures { IfOk result (λ some. AreOpenOnRows octs.now top more some.items) }
{
    let mut near = Vec::new(alloc);
    let bottom = top + more as i64;
    'octs: for oct in octs {
        keep_open(&mut near, oct, top, bottom)?;
    }
    Ok(near)
}

// Keeps the octagon if it has a row on the stretch.
fn keep_open(out: &mut Vec<Oct>, oct: &Oct, top: i64, bottom: i64) -> Result<(), Memory>
    ensures { IfOk result (λ _. IsKeptOpen top bottom oct.now out.old.items out.new.items) }
{
    if !is_open(oct, top, bottom) {
        return Ok(());
    }
    out.push(*oct)?;
    Ok(())
}

fn is_open(oct: &Oct, top: i64, bottom: i64) -> bool
    ensures { result ≡ false → (oct.now.y1 <ℤ top) ⊎ (bottom <ℤ oct.now.y0) }
{
    top <= oct.y1() && oct.y0() <= bottom
}

// The runs of all the octagons on the stretch, if they are straight and keep their order.
fn straight(alloc: Global, octs: &[Oct], top: i64, more: u64) -> Result<Option<Vec<Slant>>, Memory>
    requires top { IsNearZero (2 ^ 40) top }
    requires more { more ≤ 2 ^ 41 }
    ensures some { IfOk result (λ r. IfSome r (λ runs. IsSoFar octs.now top more runs.items)) }
    ensures none { IfOk result (λ r. IsNone r → 1 ≤ more) }
{
    match parts_of(alloc, octs, top, more)? {
        None => Ok(None),
        Some(parts) => merged(alloc, parts, more),
    }
}

// Adds the strip, if it has runs.
fn add(out: &mut Vec<RowStrip>, top: i64, more: u64, runs: Vec<Slant>) -> Result<(), Memory>
    ensures none { IfOk result (λ _. runs.items ≡ [] → out.new.items ≡ out.old.items) }
    ensures some { IfOk result (λ _. ¬ (runs.items ≡ []) → out.new.items ≡ out.old.items ++ record { top = top; more = more; runs = runs } ∷ []) }
{
    if runs.is_empty() {
        return Ok(());
    }
    out.push(RowStrip { top, more, runs })?;
    Ok(())
}
