// The cells of a set of grid points.
ghost use Rattle.std.specs.Prelude.{◌≡◌, ℕ, ℤ, IfOk};
ghost use Rattle.std.specs.List.{All};
ghost use Rattle.plane.specs.Narrow.{IsNearZero};
ghost use Rattle.grid_sets.specs.Points.{HasPoint, AreApart};
ghost use Rattle.octagon.specs.Room.{IsAround};
ghost use Rattle.scan_runs.specs.Cells.{AreCellsOf, octs_of};
ghost use Rattle.components.specs.Cells.{AreCells};

use grid_num::Memory;
use octagon::Oct;
use scan_rows::{Cell, Rows};
use scan_runs::cells_law;
use std::alloc::Global;

/// The octagons of the set's cells, band by band from the top and in each band from left to right, no two with a common grid
/// point. They reach as far as the points of the set do.
///
/// # Errors
///
/// Want of memory, which 2^32 bands or runs of a band are taken for.
pub fn cell_octs(alloc: Global, rows: &Rows) -> Result<Vec<Oct>, Memory>
    ensures cells { IfOk result (λ v. AreCells (HasPoint rows.now) v.items) }
    ensures apart { IfOk result (λ v. AreApart v.items) }
    ensures reach { IfOk result (λ v. (m : ℕ) → ((x y : ℤ) → HasPoint rows.now x y → IsNearZero m x × IsNearZero m y)
        → All (IsAround m) v.items) }
{
    cells_law();
    let cells = rows.bands()?;
    let octs = octs_of(alloc, &cells)?;
    Ok(octs)
}

// The octagons of cells.
fn octs_of(alloc: Global, cells: &[Cell]) -> Result<Vec<Oct>, Memory>
    ensures { IfOk result (λ v. v.items ≡ octs_of cells.now) }
{
    let mut octs = Vec::with_capacity(alloc, cells.len())?;
    'each: for cell in cells {
        octs.push(cell.oct)?;
    }
    Ok(octs)
}
