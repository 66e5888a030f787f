//! From octagons to the cells of their grid points: the rows in strips whose run ends move in straight lines, the strips
//! put together to greedy bands, and each run of a band as an octagon.
//! The layer above uses `cells_of`, whose cells are those of the octagons' grid points, and what `cells_law` says of them.
//! A coordinate is a unit of the grid (2 nm). x grows to the right and y downward.
#![tactic(auto)]

ghost use Rattle.std.specs.Prelude.{◌≡◌, [], ℤ, IfOk};
ghost use Rattle.grid_sets.specs.Rows.{AreRowsOf};
ghost use Rattle.grid_sets.specs.Points.{HasPoint};
ghost use Rattle.scan_runs.specs.Strips.{rows_of_strips, AreSmallStrips};
ghost use Rattle.scan_runs.specs.Cells.{AreCellsOf, AreAllInReach, HasNoPoint, CellsOnceLaw, NoCellsLaw, TilesLaw};

mod cell;
mod ends;
mod group;
mod merge;
mod part;
mod relation;
mod settle;
mod span;
mod split;
mod step;
mod strip;

use crate::cell::numbered;
use crate::group::group;
use crate::span::span_of;
use crate::strip::strips;
pub use cell::Cell;
use grid_num::Memory;
use octagon::Oct;
use std::alloc::Global;
pub use strip::RowStrip;

/// The cells of the octagons' grid points: the runs through the greedy bands of their rows, band by band from the top and
/// in each band from left to right. Octagons may overlap. Refuses for want of memory alone, or where there are 2^32 bands
/// or runs of a band.
pub fn cells_of(alloc: Global, octs: &[Oct]) -> Result<Vec<Cell>, Memory>
    ensures cells { IfOk result (λ cells. AreCellsOf (HasPoint octs.now) cells.items) }
    ensures none { IfOk result (λ cells. HasNoPoint octs.now → cells.items ≡ []) }
{
    let strips = strips_of(alloc, octs)?;
    let bands = group(alloc, &strips)?;
    numbered(alloc, &bands)
}

/// A set of grid points has one list of cells, and the set without points has none. The points of the cells are those of
/// the set, each in exactly one cell, and each cell is a tight octagon.
pub fn cells_law()
    ensures once { CellsOnceLaw }
    ensures none { NoCellsLaw }
    ensures tiles { TilesLaw }
{}

/// The rows of the octagons' grid points, from the top, in strips. Octagons may overlap. A row's runs are maximal, and a
/// row without points is in no strip. Refuses for want of memory alone.
pub fn strips_of(alloc: Global, octs: &[Oct]) -> Result<Vec<RowStrip>, Memory>
    ensures rows { IfOk result (λ strips. AreRowsOf (HasPoint octs.now) (rows_of_strips strips.items)) }
    ensures small { IfOk result (λ strips. AreSmallStrips strips.items) }
    ensures reach { AreAllInReach octs.now }
{
    let mut out = Vec::new(alloc);
    let span = span_of(octs);
    if span.bottom < span.top {
        return Ok(out);
    }
    strips(
        alloc,
        octs,
        span.top,
        (span.bottom - span.top) as u64,
        &mut out,
    )?;
    Ok(out)
}
