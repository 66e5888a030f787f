// Strips put together to greedy bands, from the top: the last band takes the rows that join it, and a row that doesn't
// begins a new one. A strip's rows below its first join whatever that one joined or began, if the moves agree.
ghost use Rattle.std.specs.Prelude.{◌≡◌, ◌≤◌, List, [], ◌∷◌, ◌++◌, IsTrue, IfSome, IsNone, IfOk, false};
ghost use Rattle.grid_sets.specs.Bands.{row_of, AreMovedAlike, IsJoining};
ghost use Rattle.scan_runs.specs.Strips.{band_of, rows_of_strips, IsSmallStrip, AreSmallStrips};
ghost use Rattle.scan_runs.specs.Inner.Grouping.{IsGoodBand, AreGoodBands, AreGrouped, IsTakenIn, IsLongerStrip, IsRestTaken, IsJoinedSteps, IsBandExtended};

use crate::settle::{rest_of, settled};
use crate::step::{alike, steps_to};
use crate::strip::RowStrip;
use grid_num::Memory;
use grid_sets::Slant;
use std::alloc::Global;

// The greedy bands of the strips' rows.
pub(crate) fn group(alloc: Global, strips: &[RowStrip]) -> Result<Vec<RowStrip>, Memory>
    requires { AreSmallStrips strips.now }
    ensures { IfOk result (λ bands. AreGrouped (rows_of_strips strips.now) bands.items) }
{
    let mut bands = Vec::new(alloc);
    'strips: for strip in strips {
        take_in(alloc, &mut bands, strip)?;
    }
    Ok(bands)
}

// Takes in the rows of one strip.
fn take_in(alloc: Global, bands: &mut Vec<RowStrip>, strip: &RowStrip) -> Result<(), Memory>
    requires strip { IsSmallStrip strip.now }
    requires bands { AreGoodBands bands.old.items }
    ensures { IfOk result (λ _. IsTakenIn strip.now bands.old.items bands.new.items) }
{
    match bands.pop() {
        None => {
            bands.push(settled(alloc, strip.top, strip.more, &strip.runs)?)?;
            Ok(())
        }
        Some(last) => follow(alloc, bands, last, strip),
    }
}

// Puts the rows of the strip below the last band, which is not among the others.
fn follow(
    alloc: Global,
    bands: &mut Vec<RowStrip>,
    last: RowStrip,
    strip: &RowStrip,
) -> Result<(), Memory>
    requires strip { IsSmallStrip strip.now }
    requires last { IsGoodBand last }
    ensures { IfOk result (λ _. IsTakenIn strip.now (bands.old.items ++ last ∷ []) bands.new.items) }
{
    match joined(alloc, &last, strip)? {
        None => {
            bands.push(last)?;
            bands.push(settled(alloc, strip.top, strip.more, &strip.runs)?)?;
            Ok(())
        }
        Some(steps) => follow_rest(alloc, bands, longer(last, strip, steps), strip),
    }
}

// The steps with which the strip's first row joins the band.
fn joined(alloc: Global, last: &RowStrip, strip: &RowStrip) -> Result<Option<Vec<Slant>>, Memory>
    requires strip { IsSmallStrip strip.now }
    requires last { IsGoodBand last.now }
    ensures some { IfOk result (λ r. IfSome r (λ steps. IsJoinedSteps (band_of last.now) (row_of (band_of strip.now) 0) steps.items)) }
    ensures none { IfOk result (λ r. IsNone r → ¬ (IsJoining (band_of last.now) (row_of (band_of strip.now) 0))) }
{
    if last.top + last.more as i64 + 1 != strip.top {
        return Ok(None);
    }
    match steps_to(alloc, &last.runs, last.more, &strip.runs)? {
        None => Ok(None),
        Some(steps) => {
            if keeps_moves(last, &steps) {
                return Ok(Some(steps));
            }
            Ok(None)
        }
    }
}

// Whether the steps are the band's moves, if it has any.
fn keeps_moves(last: &RowStrip, steps: &[Slant]) -> bool
    ensures yes { IsTrue result → 1 ≤ last.now.more → AreMovedAlike steps.now last.now.runs.items }
    ensures no { result ≡ false → (1 ≤ last.now.more) × ¬ (AreMovedAlike steps.now last.now.runs.items) }
{
    if last.more == 0 {
        return true;
    }
    alike(steps, &last.runs)
}

// The band with the strip's first row. The second row of a band sets its moves.
fn longer(last: RowStrip, strip: &RowStrip, steps: Vec<Slant>) -> RowStrip
    requires strip { IsSmallStrip strip.now }
    requires last { IsGoodBand last }
    requires steps { IsJoinedSteps (band_of last) (row_of (band_of strip.now) 0) steps.items }
    ensures { IsLongerStrip last (row_of (band_of strip.now) 0) result }
{
    if last.more == 0 {
        return RowStrip {
            top: last.top,
            more: 1,
            runs: steps,
        };
    }
    RowStrip {
        top: last.top,
        more: last.more + 1,
        runs: last.runs,
    }
}

// Puts the rows of the strip below its first one, which is the band's last row.
fn follow_rest(
    alloc: Global,
    bands: &mut Vec<RowStrip>,
    band: RowStrip,
    strip: &RowStrip,
) -> Result<(), Memory>
    requires strip { IsSmallStrip strip.now }
    requires band { IsGoodBand band }
    requires more { 1 ≤ band.more }
    requires last { row_of (band_of band) band.more ≡ row_of (band_of strip.now) 0 }
    ensures { IfOk result (λ _. IsRestTaken strip.now bands.old.items band bands.new.items) }
{
    if strip.more == 0 {
        bands.push(band)?;
        return Ok(());
    }
    if alike(&band.runs, &strip.runs) {
        bands.push(extended(band, strip))?;
        return Ok(());
    }
    bands.push(band)?;
    bands.push(rest_of(alloc, strip)?)?;
    Ok(())
}

// The band with as many rows more as the strip has below its first one.
fn extended(band: RowStrip, strip: &RowStrip) -> RowStrip
    requires strip { IsSmallStrip strip.now }
    requires band { IsGoodBand band }
    requires last { row_of (band_of band) band.more ≡ row_of (band_of strip.now) 0 }
    ensures { IsBandExtended strip.now band result }
{
    RowStrip {
        top: band.top,
        more: band.more + strip.more,
        runs: band.runs,
    }
}
