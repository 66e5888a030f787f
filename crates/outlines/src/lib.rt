//! The outlines of fills: the rings that are written of each, and its area.
//! The layer above uses `outlines_single`, or `outlines` with threads: the rings of the definition, which cover exactly the points
//! of the pieces; `drawable_law`: the fills of every accepted board are such as these ask for; and `covered_law`: so whatever
//! outlines are those of its fills cover these.
//! Pieces are in units of the grid (2 nm), corners of rings in nanometres, areas twice over in square nanometres.
#![tactic(auto)]

ghost use Rattle.std.specs.Prelude.{◌≡◌, ◌<◌, IfOk, map, length, get_or};
ghost use Rattle.std.specs.List.{All};
ghost use Rattle.std.specs.Arc.{arc_value};
ghost use Rattle.rings.specs.Outlines.{AreOutlines};
ghost use Rattle.rings.specs.Rings.{IsRingInRange};
ghost use Rattle.fill_rules.specs.Made.{Made};
ghost use Rattle.output_rules.specs.Traced.{AreTracedOf};
ghost use Rattle.outlines.specs.Drawn.{ArePiecesDrawable, IsCovering, AreCovered, AreRingsInRange};
ghost use Rattle.outlines.specs.Laws.{DrawableLaw, AllDrawableLaw, AllCoveredLaw};

mod threads;

use any_strips::any_law;
use fills::Fill;
use grid_num::Memory;
use octagon::Oct;
pub use rings::{Ring, Traced};
use sheet_trace::{cover_law, trace};
use sheet_union::Sheet;
use stacks::stacks;
use std::alloc::Global;
use std::sync::Arc;
pub use threads::outlines;

/// The outlines of each fill, in the order of the fills. Each piece has points strictly inside, and lies within 250,000,000
/// units of 0.
///
/// # Errors
///
/// Want of memory.
pub fn outlines_single(alloc: Global, fills: &[Arc<Fill>]) -> Result<Vec<Traced>, Memory>
    requires { All (λ f. ArePiecesDrawable f.pieces) (map arc_value fills.now) }
    ensures outlines { IfOk result (λ t. AreTracedOf (map arc_value fills.now) t.items) }
    ensures cover { IfOk result (λ t. AreCovered (map arc_value fills.now) t.items) }
    ensures range { IfOk result (λ t. AreRingsInRange t.items) }
{
    let mut all = Vec::new(alloc);
    'each: for i in 0..fills.len() {
        all.push(of_fill(alloc, fill_at(fills, i))?)?;
    }
    Ok(all)
}

/// The fill of each task of an accepted board can be drawn, and so can all of them.
pub fn drawable_law()
    ensures each { DrawableLaw }
    ensures all { AllDrawableLaw }
{}

/// Whatever outlines are those of the fills of an accepted board, they cover exactly the points of the fills' pieces.
pub fn covered_law()
    ensures { AllCoveredLaw }
{
    sheet_union::cover_law();
    rings::cover_law();
}

// The fill at the place.
fn fill_at(fills: &[Arc<Fill>], i: usize) -> &Fill
    requires { i < length fills.now }
    ensures { (d : Made) → result.now ≡ get_or (map arc_value fills.now) i d }
{
    &fills[i]
}

// The outlines of one fill.
fn of_fill(alloc: Global, fill: &Fill) -> Result<Traced, Memory>
    requires { ArePiecesDrawable fill.now.pieces }
    ensures outlines { IfOk result (λ t. AreOutlines fill.now.pieces t) }
    ensures cover { IfOk result (λ t. IsCovering fill.now.pieces t) }
    ensures range { IfOk result (λ t. All IsRingInRange t.rings) }
{
    outline(alloc, fill.pieces.as_slice())
}

// The outlines of pieces, drawn from their stacks: these have the same points, and so the same outlines.
fn outline(alloc: Global, pieces: &[Oct]) -> Result<Traced, Memory>
    requires { ArePiecesDrawable pieces.now }
    ensures outlines { IfOk result (λ t. AreOutlines pieces.now t) }
    ensures cover { IfOk result (λ t. IsCovering pieces.now t) }
    ensures range { IfOk result (λ t. All IsRingInRange t.rings) }
{
    let fewer = stacks(alloc, pieces)?;
    let sheet = Sheet::of(alloc, fewer.as_slice())?;
    let _ = sheet.strips();
    cover_law();
    any_law();
    trace(alloc, &sheet)
}
