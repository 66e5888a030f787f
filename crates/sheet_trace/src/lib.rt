//! The boundary of a sheet of copper, as loops and as rings: closed lists of corners with copper on their right.
//! The layer above uses `polygons`, the rings that are written of a fill, and `trace`, which adds twice the area; or `loops`, with their holes.
//! Coordinates are nanometres, x to the right and y downward.
#![tactic(auto)]

ghost use Rattle.std.specs.Prelude.{IfOk};
ghost use Rattle.rings.specs.Boundary.{AreBoundary};
ghost use Rattle.sheet_trace.specs.Edges.{edges_in};
ghost use Rattle.sheet_trace.specs.Laws.{OneSheetLoopsLaw, OneSheetRingsLaw, SheetLoopsCoverLaw, SheetRingsCoverLaw, SheetUnionCoverLaw};
ghost use Rattle.sheet_union.specs.Near.{IsSheet};

mod contour;
mod drawn_loops;
mod drawn_rings;
mod edge;
mod hole;
mod level;
mod next;
mod order;
mod sides;
mod slit;
mod walk;

pub use crate::drawn_loops::loops;
pub use crate::drawn_rings::{polygons, trace};
pub use crate::edge::BoundaryEdge;
use crate::level::put_level_parts;
pub use crate::next::{by_start, next_place};
use crate::sides::{corners_of, sides_of};
use grid_num::Memory;
pub use rings::{Loop, Ring, Traced};
use sheet_union::Sheet;
use std::alloc::Global;

/// Just one list of loops is right for a sheet, and just one list of rings.
pub fn one_law()
    ensures loops { OneSheetLoopsLaw }
    ensures rings { OneSheetRingsLaw }
{}

/// The loops of a sheet, counted together by the even-odd rule, cover exactly its points, and so do its rings; so these cover exactly the octagons of
/// which it is the union.
pub fn cover_law()
    ensures loops { SheetLoopsCoverLaw }
    ensures rings { SheetRingsCoverLaw }
    ensures union { SheetUnionCoverLaw }
{}

/// The boundary edges of the sheet: the sides of its strips and the level parts, each once. It also hands out what every sheet is.
///
/// # Errors
///
/// Refuses for want of memory alone.
pub fn boundary(alloc: Global, sheet: &Sheet) -> Result<Vec<BoundaryEdge>, Memory>
    ensures sheet { IsSheet sheet.now }
    ensures edges { IfOk result (λ v. AreBoundary sheet.now (edges_in v.items)) }
{
    let strips = sheet.strips();
    let mut edges = sides_of(alloc, strips)?;
    let corners = corners_of(alloc, &edges)?;
    put_level_parts(&mut edges, strips, &corners)?;
    Ok(edges)
}
