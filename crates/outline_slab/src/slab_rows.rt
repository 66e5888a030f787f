// The rows of all ends of sides, and the next row down.
ghost use Rattle.std.specs.Prelude.{◌≡◌, ◌<◌, ◌≤ℤ◌, ◌<ℤ◌, Any, IfOk};
ghost use Rattle.std.specs.List.{All};
ghost use Rattle.slabs.specs.Slabs.{IsAmong};
ghost use Rattle.slabs.specs.Inner.Cutting.{AreNeighbourRows};
ghost use Rattle.outline_slab.specs.Cuts.{all_edges, AreRising, IsInRows, HasRows};

use crate::side::Side;
use grid_num::Memory;
use std::alloc::Global;

/// The rows of all ends, from the top.
pub fn rows_of_ends(alloc: Global, sides: &[Side]) -> Result<Vec<i64>, Memory>
    ensures { IfOk result (λ v. HasRows v.items (all_edges sides.now)) }
{
    let mut rows = ends_of(alloc, sides)?;
    rows.sort_by_key(|row| *row)?;
    Ok(rows)
}

fn ends_of(alloc: Global, sides: &[Side]) -> Result<Vec<i64>, Memory>
    ensures { IfOk result (λ v. All (IsInRows v.items) (all_edges sides.now)) }
{
    let mut rows = Vec::new(alloc);
    'each: for side in sides {
        rows.push(side.start.y)?;
        rows.push(side.finish.y)?;
    }
    Ok(rows)
}

/// The next row below y, where there is one.
pub fn next_row(rows: &[i64], y: i64) -> i64
    requires rising { AreRising rows.now }
    requires some { Any (λ z. y <ℤ z) rows.now }
    ensures after { y <ℤ result }
    ensures row { IsAmong rows.now result }
    ensures next { AreNeighbourRows rows.now y result }
{
    let place = rows.partition_point(|row| *row <= y);
    rows[place]
}
