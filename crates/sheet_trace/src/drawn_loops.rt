// The loops of a sheet, and the contours of any edges in their order.
ghost use Rattle.std.specs.Prelude.{◌≡◌, IfOk};
ghost use Rattle.rings.specs.Laws.{HasOneNextEach};
ghost use Rattle.rings.specs.Sheets.{AreLoops};
ghost use Rattle.rings.specs.Inner.Tracing.{loops_by};
ghost use Rattle.sheet_trace.specs.Edges.{edges_in};
ghost use Rattle.sheet_trace.specs.Next.{AreByStart};
ghost use Rattle.sheet_trace.specs.Inner.Order.{loop_in, loops_in};
ghost use Rattle.sheet_trace.specs.Inner.Outlines.{AreEdgesOf, AreUnlike};
ghost use Rattle.sheet_union.specs.Near.{IsSheet};

use crate::boundary;
use crate::edge::BoundaryEdge;
use crate::next::by_start;
use crate::order::{Drawn, in_order};
use crate::walk::drawings;
use grid_num::Memory;
use rings::Loop;
use sheet_union::Sheet;
use std::alloc::Global;

/// The boundary edges of the sheet, by where they begin. Refuses for want of memory alone.
pub fn listed(alloc: Global, sheet: &Sheet) -> Result<Vec<BoundaryEdge>, Memory>
    ensures sheet { IsSheet sheet.now }
    ensures edges { IfOk result (λ v. AreEdgesOf sheet.now (edges_in v.items)) }
    ensures order { IfOk result (λ v. AreByStart v.items) }
{
    let edges = by_start(boundary(alloc, sheet)?)?;
    Ok(edges)
}

/// What the walks along the edges draw, by their contours. Refuses for want of memory alone.
pub fn contours(alloc: Global, edges: &[BoundaryEdge]) -> Result<Vec<Drawn>, Memory>
    requires order { AreByStart edges.now }
    requires next { HasOneNextEach (edges_in edges.now) }
    requires unlike { AreUnlike (edges_in edges.now) }
    ensures { IfOk result (λ v. loops_in v.items ≡ loops_by (edges_in edges.now)) }
{
    let drawn = drawings(alloc, edges)?;
    let sorted = in_order(drawn)?;
    Ok(sorted)
}

// The loop that was drawn.
fn loop_of(drawn: Drawn) -> Loop
    ensures { result ≡ loop_in drawn }
{
    Loop {
        corners: drawn.corners,
        hole: drawn.hole,
    }
}

// The loops that were drawn. Refuses for want of memory alone.
fn loops_from(alloc: Global, drawings: Vec<Drawn>) -> Result<Vec<Loop>, Memory>
    ensures { IfOk result (λ v. v.items ≡ loops_in drawings.items) }
{
    let mut loops = Vec::new(alloc);
    'each: for drawn in drawings {
        loops.push(loop_of(drawn))?;
    }
    Ok(loops)
}

/// The loops of a sheet, by their lists of corners: the contours of the walks along its boundary, around copper and around holes. A sheet has just one such
/// list, and by the even-odd rule its loops cover exactly the sheet.
///
/// # Errors
///
/// Refuses for want of memory alone.
pub fn loops(alloc: Global, sheet: &Sheet) -> Result<Vec<Loop>, Memory>
    ensures { IfOk result (λ v. AreLoops sheet.now v.items) }
{
    let edges = listed(alloc, sheet)?;
    let drawings = contours(alloc, &edges)?;
    let loops = loops_from(alloc, drawings)?;
    Ok(loops)
}
