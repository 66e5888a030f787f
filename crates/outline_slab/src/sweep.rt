// The search for the least pair of crossing edges, along rows or along columns, whichever overlap less.
ghost use Rattle.std.specs.Prelude.{◌≡◌, ◌≤◌, length, IfOk};
ghost use Rattle.std.specs.List.{All};
ghost use Rattle.plane.specs.Covering.{edges_of};
ghost use Rattle.outline_slab.specs.Rules.{IsInSpan, IsSide};
ghost use Rattle.outline_slab.specs.Faults.{IsFoundCrossing};
ghost use Rattle.outline_slab.specs.Inner.Exchange.{all_exchanged};

use crate::crossing::least_crossing;
use crate::side::edge_at;
use grid_num::{Memory, Point};
use std::alloc::Global;

/// The least pair of edges that cross.
pub fn least_pair(alloc: Global, corners: &[Point]) -> Result<Option<(usize, usize)>, Memory>
    requires three { 3 ≤ length corners.now }
    requires span { All IsInSpan corners.now }
    requires sides { All IsSide (edges_of corners.now) }
    ensures { IfOk result (λ found. IsFoundCrossing corners.now found) }
{
    if is_tall(corners) {
        let turned = exchanged(alloc, corners)?;
        return least_crossing(alloc, &turned);
    }
    least_crossing(alloc, corners)
}

// The corners with x and y exchanged.
fn exchanged(alloc: Global, corners: &[Point]) -> Result<Vec<Point>, Memory>
    ensures { IfOk result (λ v. v.items ≡ all_exchanged corners.now) }
{
    let mut turned = Vec::with_capacity(alloc, corners.len())?;
    'each: for corner in corners {
        turned.push(Point {
            x: corner.y,
            y: corner.x,
        })?;
    }
    Ok(turned)
}

// How far the edges reach along one axis: from the least to the greatest end, and in total.
#[derive(Clone, Copy)]
struct Spread {
    least: i64,
    greatest: i64,
    total: u64,
}

impl Spread {
    fn with(self, start: i64, finish: i64) -> Spread {
        Spread {
            least: self.least.min(start),
            greatest: self.greatest.max(start),
            total: self.total.saturating_add(start.abs_diff(finish)),
        }
    }

    fn extent(self) -> u64 {
        self.greatest.abs_diff(self.least)
    }
}

// Whether more edges overlap along the rows than along the columns. That is an estimate, the total length of the edges
// by their extent, and tells only where to search.
fn is_tall(corners: &[Point]) -> bool {
    let nothing = Spread {
        least: i64::MAX,
        greatest: i64::MIN,
        total: 0,
    };
    let mut across = nothing;
    let mut down = nothing;
    'each: for i in 0..corners.len() {
        let side = edge_at(corners, i);
        across = across.with(side.start.x, side.finish.x);
        down = down.with(side.start.y, side.finish.y);
    }
    let rows = u128::from(down.total).saturating_mul(u128::from(across.extent()));
    let columns = u128::from(across.total).saturating_mul(u128::from(down.extent()));
    columns < rows
}
