// The outline of a zone or rule area.
ghost use Rattle.std.specs.Prelude.{◌≡◌, ◌||◌, is_none, Some, IfOk};
ghost use Rattle.std.specs.List.{All, list_any};
ghost use Rattle.outline_slab.specs.Rules.{IsInSpan, IsOutline};
ghost use Rattle.board_text.specs.Numbers.{is_short};
ghost use Rattle.board_language.specs.Zones.{corner_lists, corners_read, corners_fault, outline_of};
ghost use Rattle.board_language.specs.Offences.{has_two_outlines, has_arc, outline_lacks, is_long_outline, IsOutlineResult};

use crate::lists::{corner_lists, count_headed};
use board_items::{has_other_point, has_short_point, points_fault, points_of};
use board_text::Part;
use grid_num::{Memory, NumFault, Point};
use outline_slab::laws::no_fault;
use outline_slab::{Outline, OutlineError, OutlineFault};
use std::alloc::Global;

/// Whether there are two outlines.
pub fn has_two_outlines(zone: &Part<'_>) -> bool
    ensures { result ≡ has_two_outlines zone.now.bytes zone.now.item }
{
    count_headed(zone, b"polygon") > 1
}

/// Whether the outline has another point than `xy`.
///
/// # Errors
///
/// Want of memory.
pub fn has_arc(alloc: Global, zone: &Part<'_>) -> Result<bool, Memory>
    ensures { IfOk result (λ yes. yes ≡ has_arc zone.now.bytes zone.now.item) }
{
    let lists = corner_lists(alloc, zone)?;
    Ok(has_other_point(&lists))
}

fn has_short_corner(alloc: Global, zone: &Part<'_>) -> Result<bool, Memory>
    ensures { IfOk result (λ yes. yes ≡ list_any (λ list. is_short 2 (Some list)) (corner_lists zone.now.bytes zone.now.item)) }
{
    let lists = corner_lists(alloc, zone)?;
    Ok(has_short_point(&lists))
}

/// Whether there is no outline, or one of its points lacks a number.
///
/// # Errors
///
/// Want of memory.
pub fn outline_lacks(alloc: Global, zone: &Part<'_>) -> Result<bool, Memory>
    ensures { IfOk result (λ yes. yes ≡ outline_lacks zone.now.bytes zone.now.item) }
{
    let short = has_short_corner(alloc, zone)?;
    Ok(zone.list_in(b"polygon", b"pts").is_none() || short)
}

/// Whether the outline has more than 20,000 vertices.
///
/// # Errors
///
/// Want of memory.
pub fn is_long_outline(alloc: Global, zone: &Part<'_>) -> Result<bool, Memory>
    ensures { IfOk result (λ yes. yes ≡ is_long_outline zone.now.bytes zone.now.item) }
{
    let lists = corner_lists(alloc, zone)?;
    Ok(lists.len() > 20_000)
}

/// The first of the outline's numbers that can't be read.
///
/// # Errors
///
/// Want of memory.
#[tactic(auto, unfolding(board_language::specs::Zones::corners_fault))]
pub fn corners_fault(alloc: Global, zone: &Part<'_>) -> Result<Option<NumFault>, Memory>
    ensures { IfOk result (λ f. f ≡ corners_fault zone.now.bytes zone.now.item) }
{
    let lists = corner_lists(alloc, zone)?;
    points_fault(alloc, &lists)
}

/// The corners in nanometres.
#[tactic(auto, unfolding(board_language::specs::Zones::corners_read))]
fn corners_of(alloc: Global, zone: &Part<'_>) -> Result<Vec<Point>, Memory>
    ensures value { IfOk result (λ v. v.items ≡ corners_read zone.now.bytes zone.now.item) }
    ensures range { IfOk result (λ v. All IsInSpan v.items) }
{
    let lists = corner_lists(alloc, zone)?;
    points_of(alloc, &lists)
}

/// The outline of corners that break no rule.
///
/// # Errors
///
/// Want of memory.
pub fn outline_of(alloc: Global, zone: &Part<'_>) -> Result<Outline, Memory>
    requires { IsOutline (corners_read zone.now.bytes zone.now.item) }
    ensures { IfOk result (λ o. o ≡ outline_of zone.now.bytes zone.now.item) }
{
    no_fault();
    let corners = corners_of(alloc, zone)?;
    match Outline::make(alloc, &corners) {
        Ok(outline) => Ok(outline),
        Err(OutlineError::Bad(_)) => unreachable!(),
        Err(OutlineError::Memory) => Err(Memory),
    }
}

/// Why the outline is refused, or that it isn't.
///
/// # Errors
///
/// Want of memory.
pub fn outline_result(alloc: Global, zone: &Part<'_>) -> Result<Option<OutlineFault>, Memory>
    ensures { IfOk result (IsOutlineResult (corners_read zone.now.bytes zone.now.item)) }
{
    let corners = corners_of(alloc, zone)?;
    match Outline::make(alloc, &corners) {
        Ok(_) => Ok(None),
        Err(OutlineError::Bad(fault)) => Ok(Some(fault)),
        Err(OutlineError::Memory) => Err(Memory),
    }
}
