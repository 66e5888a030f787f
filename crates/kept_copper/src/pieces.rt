// The pieces of a fill.
ghost use Rattle.std.specs.Prelude.{◌≡◌, ◌≤◌, ◌^◌, ◌++◌, ℕ, ℤ, List, length, map, IfOk};
ghost use Rattle.std.specs.List.{All};
ghost use Rattle.plane.specs.Narrow.{IsNearZero};
ghost use Rattle.octagon.specs.Room.{IsAround};
ghost use Rattle.grid_sets.specs.Points.{HasPoint, AreApart};
ghost use Rattle.fills.specs.Fills.{brushed, task_of};
ghost use Rattle.components.specs.Cells.{AreCells};
ghost use Rattle.kept_copper.specs.Pieces.{IsFillOfCells};

use crate::brush::all_grown;
use crate::cells::cell_octs;
use fills::{Fill, Task};
use grid_num::Memory;
use islands::parts;
use octagon::Oct;
use scan_rows::Rows;
use std::alloc::Global;

/// The fill whose kept centres are the grid points of these cells, and whose spokes are these: the cells of the points, made
/// anew and grown by the brush of the radius, then the spokes, and which of them hang together. Cells lie within 2^31 units of 0,
/// and no two have a common grid point.
///
/// # Errors
///
/// Want of memory, which 2^32 spokes are taken for.
pub fn fill_of_cells(
    alloc: Global,
    task: Task,
    kept: &[Oct],
    spokes: Vec<Oct>,
    radius: u32,
) -> Result<Fill, Memory>
    requires kept { (x y : ℤ) → HasPoint kept.now x y → IsNearZero (2 ^ 31) x × IsNearZero (2 ^ 31) y }
    requires apart { AreApart kept.now }
    requires radius { radius ≤ 2 ^ 31 }
    ensures { IfOk result (λ f. IsFillOfCells (task_of task) kept.now spokes.items radius f) }
{
    let rows = Rows::of_apart(alloc, kept)?;
    let cells = cell_octs(alloc, &rows)?;
    let count = count_of(&spokes)?;
    let pieces = joined(all_grown(alloc, &cells, radius)?, spokes)?;
    let parts = parts(alloc, &pieces)?;
    Ok(Fill {
        task,
        pieces,
        spokes: count,
        parts,
    })
}

// How many spokes there are.
fn count_of(spokes: &[Oct]) -> Result<u32, Memory>
    ensures { IfOk result (λ count. count ≡ length spokes.now) }
{
    u32::try_from(spokes.len()).map_err(|_| Memory)
}

// The octagons with the spokes behind them.
fn joined(octs: Vec<Oct>, spokes: Vec<Oct>) -> Result<Vec<Oct>, Memory>
    ensures { IfOk result (λ v. v.items ≡ octs.items ++ spokes.items) }
{
    let mut all = octs;
    let mut spokes = spokes;
    all.append(&mut spokes)?;
    Ok(all)
}
