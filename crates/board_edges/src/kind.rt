// What offends in a drawing.
ghost use Rattle.std.specs.Prelude.{◌≡◌, ◌&&◌, cond, not, map, codes, is_some, None, Some, IfOk};
ghost use Rattle.std.specs.List.{list_any};
ghost use Rattle.sexpr_text.specs.Items.{is_headed};
ghost use Rattle.board_language.specs.Edges.{is_edge, is_on_copper, is_wide, is_unread, is_curved, corner_lists, edge_fault, lacks_points};
ghost use Rattle.board_text.specs.Items.{point_in};
ghost use Rattle.board_language.specs.Offences.{drawing_kind, footprint_drawing_kind};
ghost use Rattle.board_items.specs.Known.{context};

use crate::form::{corner_lists, edge_fault, form_of, lacks_points};
use crate::wide::is_wide;
use board_items::{Known, has_other_point, is_on_copper, is_on_edge};
use board_language::{EdgeForm, OffenceKind, first_kind, number_kind, when};
use board_text::Part;
use grid_num::{Memory, NumFault};
use std::alloc::Global;

/// Whether a drawing is a piece of the board's edge.
///
/// # Errors
///
/// Want of memory.
pub fn is_edge(alloc: Global, item: &Part<'_>) -> Result<bool, Memory>
    ensures { IfOk result (λ yes. yes ≡ is_edge item.now.bytes item.now.item) }
{
    let drawn = is_on_edge(alloc, item)?;
    Ok(item.begins(b"gr_") && drawn)
}

fn is_unread(alloc: Global, item: &Part<'_>) -> Result<bool, Memory>
    ensures { IfOk result (λ yes. yes ≡ is_unread item.now.bytes item.now.item) }
{
    let lacks = lacks_points(alloc, item)?;
    let fault = edge_fault(alloc, item)?;
    Ok(lacks || fault.is_some())
}

fn is_wide_arc(alloc: Global, item: &Part<'_>) -> Result<bool, Memory>
    ensures { IfOk result (λ yes. yes ≡ (not (is_unread item.now.bytes item.now.item) && is_wide (point_in item.now.bytes (codes "start") item.now.item) (point_in item.now.bytes (codes "mid") item.now.item) (point_in item.now.bytes (codes "end") item.now.item))) }
{
    let unread = is_unread(alloc, item)?;
    let start = item.point_in(alloc, b"start")?;
    let mid = item.point_in(alloc, b"mid")?;
    let end = item.point_in(alloc, b"end")?;
    Ok(!unread && is_wide(start, mid, end))
}

fn has_other_corner(alloc: Global, item: &Part<'_>) -> Result<bool, Memory>
    ensures { IfOk result (λ yes. yes ≡ list_any (λ list. not (is_headed item.now.bytes (codes "xy") list)) (corner_lists item.now.bytes item.now.item)) }
{
    let lists = corner_lists(alloc, item)?;
    Ok(has_other_point(&lists))
}

/// Whether an edge is curved otherwise than in an arc of at most a half circle, or has other points than `xy`.
///
/// # Errors
///
/// Want of memory.
#[tactic(auto, unfolding(board_language::specs::Edges::is_curved))]
fn is_curved(alloc: Global, item: &Part<'_>) -> Result<bool, Memory>
    ensures { IfOk result (λ yes. yes ≡ is_curved item.now.bytes item.now.item) }
{
    match form_of(item) {
        EdgeForm::Line => Ok(false),
        EdgeForm::Rectangle => Ok(false),
        EdgeForm::Arc => is_wide_arc(alloc, item),
        EdgeForm::Polygon => has_other_corner(alloc, item),
        EdgeForm::Other => Ok(true),
    }
}

/// The fault of a drawing's numbers, where it is an edge.
fn fault_of_edge(edge: bool, fault: Option<NumFault>) -> Option<NumFault>
    ensures { result ≡ cond edge fault None }
{
    if edge { fault } else { None }
}

/// The first offence of a drawing of the board, that is one edge too many or not.
///
/// # Errors
///
/// Want of memory.
#[tactic(auto, unfolding(board_language::specs::Offences::drawing_kind))]
pub fn drawing_kind(
    alloc: Global,
    known: &Known,
    item: &Part<'_>,
    many: bool,
) -> Result<Option<OffenceKind>, Memory>
    ensures { IfOk result (λ k. k ≡ drawing_kind (context item.now.bytes known.now) item.now.item many) }
{
    let copper = is_on_copper(alloc, item)?;
    let edge = is_edge(alloc, item)?;
    let curved = is_curved(alloc, item)?;
    let lacks = lacks_points(alloc, item)?;
    let fault = edge_fault(alloc, item)?;
    Ok(first_kind(&[
        when(OffenceKind::CopperGraphic, copper),
        when(OffenceKind::EdgeCurve, edge && curved),
        when(OffenceKind::MissingPart, edge && lacks),
        number_kind(fault_of_edge(edge, fault)),
        when(OffenceKind::TooMany, many),
    ]))
}

/// The first offence of a drawing of a footprint.
///
/// # Errors
///
/// Want of memory.
#[tactic(auto, unfolding(board_language::specs::Offences::footprint_drawing_kind))]
pub fn footprint_drawing_kind(
    alloc: Global,
    known: &Known,
    item: &Part<'_>,
) -> Result<Option<OffenceKind>, Memory>
    ensures { IfOk result (λ k. k ≡ footprint_drawing_kind (context item.now.bytes known.now) item.now.item) }
{
    let copper = is_on_copper(alloc, item)?;
    let edge = is_on_edge(alloc, item)?;
    Ok(first_kind(&[
        when(OffenceKind::CopperGraphic, copper),
        when(OffenceKind::FootprintEdge, item.begins(b"fp_") && edge),
    ]))
}
