// The rings of a sheet: along an outer loop, and by slits along the holes in it.
ghost use Rattle.std.specs.Prelude.{◌≡◌, ◌∷◌, [], ◌++◌, pos, map, IfOk};
ghost use Rattle.plane.specs.Edges.{both_ways};
ghost use Rattle.rings.specs.Rings.{holes_of};
ghost use Rattle.rings.specs.Sheets.{AreRings};
ghost use Rattle.rings.specs.Inner.Tracing.{slits_by};
ghost use Rattle.sheet_trace.specs.Edges.{edges_in};
ghost use Rattle.sheet_trace.specs.Next.{AreByStart};
ghost use Rattle.sheet_trace.specs.Inner.Order.{loop_in, loops_in};
ghost use Rattle.sheet_trace.specs.Inner.Outlines.{AreSlitted, corners_in, slit_along};
ghost use Rattle.strips.specs.Area.{area2_of};

use crate::drawn_loops::{contours, listed};
use crate::edge::BoundaryEdge;
use crate::next::by_start;
use crate::order::Drawn;
use crate::slit::slit;
use grid_num::{Memory, Point};
use rings::{Ring, Traced};
use sheet_union::Sheet;
use std::alloc::Global;

// Adds the slit from the first of the corners, there and back.
fn put_slit(
    slits: &mut Vec<BoundaryEdge>,
    edges: &[BoundaryEdge],
    corners: &[Point],
) -> Result<(), Memory>
    requires { AreByStart edges.now }
    ensures { IfOk result (λ _. edges_in slits.new.items ≡ edges_in slits.old.items ++ both_ways (slits_by (edges_in edges.now) (corners.now ∷ []))) }
{
    if corners.is_empty() {
        return Ok(());
    }
    let there = slit(edges, corners[0]);
    slits.push(there)?;
    slits.push(BoundaryEdge {
        start: there.finish,
        finish: there.start,
    })?;
    Ok(())
}

// Adds the slit of a loop, there and back, if it is a hole.
fn put_slit_of(
    slits: &mut Vec<BoundaryEdge>,
    edges: &[BoundaryEdge],
    drawn: &Drawn,
) -> Result<(), Memory>
    requires { AreByStart edges.now }
    ensures { IfOk result (λ _. edges_in slits.new.items ≡ edges_in slits.old.items ++ slit_along (edges_in edges.now) (loop_in drawn.now)) }
{
    if drawn.hole {
        put_slit(slits, edges, &drawn.corners)?;
        return Ok(());
    }
    Ok(())
}

// The slits of the loops that are holes, each there and back. Refuses for want of memory alone.
fn slits(
    alloc: Global,
    edges: &[BoundaryEdge],
    loops: &[Drawn],
) -> Result<Vec<BoundaryEdge>, Memory>
    requires { AreByStart edges.now }
    ensures { IfOk result (λ v. edges_in v.items ≡ both_ways (slits_by (edges_in edges.now) (holes_of (loops_in loops.now)))) }
{
    let mut slits = Vec::new(alloc);
    'each: for drawn in loops {
        put_slit_of(&mut slits, edges, drawn)?;
    }
    Ok(slits)
}

// The edges with the slits of the loops that are holes, there and back, by where they begin. Refuses for want of memory alone.
fn slitted(
    alloc: Global,
    mut edges: Vec<BoundaryEdge>,
    loops: &[Drawn],
) -> Result<Vec<BoundaryEdge>, Memory>
    requires { AreByStart edges.items }
    ensures slits { IfOk result (λ v. AreSlitted (edges_in edges.items) (loops_in loops.now) (edges_in v.items)) }
    ensures order { IfOk result (λ v. AreByStart v.items) }
{
    let slits = slits(alloc, &edges, loops)?;
    edges.extend_from_slice(&slits)?;
    let sorted = by_start(edges)?;
    Ok(sorted)
}

// The ring that was drawn.
fn ring_of(drawn: Drawn) -> Ring
    ensures { result ≡ corners_in drawn }
{
    Ring {
        corners: drawn.corners,
    }
}

// The rings that were drawn. Refuses for want of memory alone.
fn rings_from(alloc: Global, drawings: Vec<Drawn>) -> Result<Vec<Ring>, Memory>
    ensures { IfOk result (λ v. v.items ≡ map corners_in drawings.items) }
{
    let mut rings = Vec::new(alloc);
    'each: for drawn in drawings {
        rings.push(ring_of(drawn))?;
    }
    Ok(rings)
}

/// The rings of a sheet, by their lists of corners: the contours of the walks along its boundary and along the slits of its holes. A sheet has just
/// one such list, and by the even-odd rule its rings cover exactly the sheet.
///
/// # Errors
///
/// Refuses for want of memory alone.
pub fn polygons(alloc: Global, sheet: &Sheet) -> Result<Vec<Ring>, Memory>
    ensures { IfOk result (λ v. AreRings sheet.now v.items) }
{
    let edges = listed(alloc, sheet)?;
    let loops = contours(alloc, &edges)?;
    let all = slitted(alloc, edges, &loops)?;
    let drawings = contours(alloc, &all)?;
    let rings = rings_from(alloc, drawings)?;
    Ok(rings)
}

/// The rings of a sheet, with twice its area.
///
/// # Errors
///
/// Refuses for want of memory alone.
pub fn trace(alloc: Global, sheet: &Sheet) -> Result<Traced, Memory>
    ensures rings { IfOk result (λ t. AreRings sheet.now t.rings) }
    ensures area { IfOk result (λ t. pos t.area2 ≡ area2_of sheet.now) }
{
    Ok(Traced {
        rings: polygons(alloc, sheet)?,
        area2: sheet.area2(),
    })
}
