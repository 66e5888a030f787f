// Sides cut at all rows, so that each cut passes one slab, from a row down to the next one.
ghost use Rattle.std.specs.Prelude.{◌≡◌, ◌<◌, ◌<ℤ◌, ℤ, IfOk};
ghost use Rattle.std.specs.List.{All};
ghost use Rattle.plane.specs.Edges.{IsOctilinear};
ghost use Rattle.slabs.specs.Slabs.{IsAt, AreCuts, AreCutsInOrder};
ghost use Rattle.slabs.specs.Inner.Cutting.{AreAdded};
ghost use Rattle.outline_slab.specs.Inner.Side.{side_edge};
ghost use Rattle.outline_slab.specs.Cuts.{all_edges, AreRising, IsEdgeInReach, IsSoundEdge, IsInRows, HasRows, AddsCuts, KeepsCuts};

use crate::side::Side;
use crate::slab_rows::next_row;
use grid_num::{Memory, Point};
use std::alloc::Global;

impl Side {
    // Where a side that goes down, and is not level, passes the row.
    fn point_at(self, row: i64) -> Point
        requires reach { IsEdgeInReach (side_edge self) }
        requires octilinear { IsOctilinear (side_edge self) }
        requires after { self.start.y <ℤ row }
        requires before { row <ℤ self.finish.y }
        ensures row { result.y ≡ row }
        ensures place { IsAt (side_edge self) 1 row result.x }
    {
        let down = row - self.start.y;
        let x = if self.start.x < self.finish.x {
            self.start.x + down
        } else if self.finish.x < self.start.x {
            self.start.x - down
        } else {
            self.start.x
        };
        Point { x, y: row }
    }
}

// The cuts with those of a side that goes down.
fn with_cuts_down(rows: &[i64], side: Side, cuts: Vec<Side>) -> Result<Vec<Side>, Memory>
    requires rising { AreRising rows.now }
    requires down { side.start.y <ℤ side.finish.y }
    requires sound { IsSoundEdge (side_edge side) }
    requires ends { IsInRows rows.now (side_edge side) }
    ensures { IfOk result (λ v. AreAdded rows.now (side_edge side) (all_edges cuts.items) (all_edges v.items)) }
{
    let mut cuts = cuts;
    let mut rest = side;
    let mut row = next_row(rows, rest.start.y);
    'row: while row < side.finish.y {
        let middle = rest.point_at(row);
        cuts.push(Side {
            start: rest.start,
            finish: middle,
        })?;
        rest = Side {
            start: middle,
            finish: side.finish,
        };
        row = next_row(rows, row);
    }
    cuts.push(rest)?;
    Ok(cuts)
}

// The cuts with those of a side. A level side has none.
fn with_cuts(rows: &[i64], side: Side, cuts: Vec<Side>) -> Result<Vec<Side>, Memory>
    requires rising { AreRising rows.now }
    requires sound { IsSoundEdge (side_edge side) }
    requires ends { IsInRows rows.now (side_edge side) }
    ensures { IfOk result (λ v. AddsCuts rows.now (side_edge side) (all_edges cuts.items) (all_edges v.items)) }
{
    if side.start.y < side.finish.y {
        return with_cuts_down(rows, side, cuts);
    }
    if side.finish.y < side.start.y {
        return with_cuts_down(rows, side.turned(), cuts);
    }
    Ok(cuts)
}

/// All cuts of the sides.
pub fn cuts_of(alloc: Global, rows: &[i64], sides: &[Side]) -> Result<Vec<Side>, Memory>
    requires rows { HasRows rows.now (all_edges sides.now) }
    requires sound { All IsSoundEdge (all_edges sides.now) }
    ensures { IfOk result (λ v. AreCuts rows.now (all_edges sides.now) (all_edges v.items)) }
{
    let mut cuts = Vec::new(alloc);
    'each: for i in 0..sides.len() {
        cuts = with_cuts(rows, sides[i], cuts)?;
    }
    Ok(cuts)
}

/// The cuts from the top, and in each slab from the left.
pub fn in_order(cuts: Vec<Side>) -> Result<Vec<Side>, Memory>
    ensures cuts { IfOk result (λ v. KeepsCuts (all_edges cuts.items) (all_edges v.items)) }
    ensures order { IfOk result (λ v. AreCutsInOrder (all_edges v.items)) }
{
    let mut cuts = cuts;
    cuts.sort_by_key(|cut| (
        cut.start.y,
        i128::from(cut.start.x) + i128::from(cut.finish.x),
    ))?;
    Ok(cuts)
}
