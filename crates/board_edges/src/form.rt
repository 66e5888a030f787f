// What kind of edge a drawing is, and the points that it needs.
ghost use Rattle.std.specs.Prelude.{◌≡◌, ◌||◌, ◌∷◌, [], not, map, codes, Some, IfOk};
ghost use Rattle.std.specs.List.{list_any};
ghost use Rattle.sexpr_text.specs.Parts.{part_of};
ghost use Rattle.board_text.specs.Fields.{list_of};
ghost use Rattle.board_text.specs.Numbers.{first_of, point_fault, is_short};
ghost use Rattle.board_language.specs.Edges.{form_of, corner_lists, lacks_point, lacks_points, edge_fault};

use board_items::{has_short_point, points_fault};
use board_language::EdgeForm;
use board_text::{Part, first_of};
use grid_num::{Memory, NumFault};
use std::alloc::Global;

/// What kind of edge a drawing is.
pub fn form_of(item: &Part<'_>) -> EdgeForm
    ensures { result ≡ form_of item.now.bytes item.now.item }
{
    if item.is_headed(b"gr_line") {
        return EdgeForm::Line;
    }
    if item.is_headed(b"gr_rect") {
        return EdgeForm::Rectangle;
    }
    if item.is_headed(b"gr_arc") {
        return EdgeForm::Arc;
    }
    if item.is_headed(b"gr_poly") {
        return EdgeForm::Polygon;
    }
    EdgeForm::Other
}

/// The lists of a polygon's points.
pub fn corner_lists<'a>(alloc: Global, item: &Part<'a>) -> Result<Vec<Part<'a>>, Memory>
    ensures { IfOk result (λ v. v.items ≡ map (part_of item.now.bytes) (corner_lists item.now.bytes item.now.item)) }
{
    match item.list(b"pts") {
        Some(list) => list.lists(alloc),
        None => Ok(Vec::new(alloc)),
    }
}

fn lacks_point(item: &Part<'_>, name: &[u8]) -> bool
    ensures { result ≡ lacks_point item.now.bytes item.now.item name.now }
{
    !item.has(name) || item.is_short_in(name, 2)
}

fn lacks_corner(alloc: Global, item: &Part<'_>) -> Result<bool, Memory>
    ensures { IfOk result (λ yes. yes ≡ list_any (λ list. is_short 2 (Some list)) (corner_lists item.now.bytes item.now.item)) }
{
    let lists = corner_lists(alloc, item)?;
    Ok(has_short_point(&lists))
}

/// Whether an edge lacks one of its points.
///
/// # Errors
///
/// Want of memory.
#[tactic(auto, unfolding(board_language::specs::Edges::lacks_points))]
pub fn lacks_points(alloc: Global, item: &Part<'_>) -> Result<bool, Memory>
    ensures { IfOk result (λ yes. yes ≡ lacks_points item.now.bytes item.now.item) }
{
    match form_of(item) {
        EdgeForm::Line => Ok(lacks_point(item, b"start") || lacks_point(item, b"end")),
        EdgeForm::Rectangle => Ok(lacks_point(item, b"start") || lacks_point(item, b"end")),
        EdgeForm::Arc => {
            Ok(
                lacks_point(item, b"start")
                    || lacks_point(item, b"mid")
                    || lacks_point(item, b"end"),
            )
        }
        EdgeForm::Polygon => lacks_corner(alloc, item),
        EdgeForm::Other => Ok(false),
    }
}

fn corners_fault(alloc: Global, item: &Part<'_>) -> Result<Option<NumFault>, Memory>
    ensures { IfOk result (λ f. f ≡ first_of (map (λ list. point_fault item.now.bytes (Some list)) (corner_lists item.now.bytes item.now.item))) }
{
    let lists = corner_lists(alloc, item)?;
    points_fault(alloc, &lists)
}

fn ends_fault(alloc: Global, item: &Part<'_>) -> Result<Option<NumFault>, Memory>
    ensures { IfOk result (λ f. f ≡ first_of (map (λ name. point_fault item.now.bytes (list_of item.now.bytes name item.now.item)) (codes "start" ∷ codes "end" ∷ []))) }
{
    let start = item.point_fault_in(alloc, b"start")?;
    let end = item.point_fault_in(alloc, b"end")?;
    Ok(first_of(&[start, end]))
}

fn arc_fault(alloc: Global, item: &Part<'_>) -> Result<Option<NumFault>, Memory>
    ensures { IfOk result (λ f. f ≡ first_of (map (λ name. point_fault item.now.bytes (list_of item.now.bytes name item.now.item)) (codes "start" ∷ codes "mid" ∷ codes "end" ∷ []))) }
{
    let start = item.point_fault_in(alloc, b"start")?;
    let mid = item.point_fault_in(alloc, b"mid")?;
    let end = item.point_fault_in(alloc, b"end")?;
    Ok(first_of(&[start, mid, end]))
}

/// The first of an edge's numbers that can't be read.
///
/// # Errors
///
/// Want of memory.
#[tactic(auto, unfolding(board_language::specs::Edges::edge_fault))]
pub fn edge_fault(alloc: Global, item: &Part<'_>) -> Result<Option<NumFault>, Memory>
    ensures { IfOk result (λ f. f ≡ edge_fault item.now.bytes item.now.item) }
{
    match form_of(item) {
        EdgeForm::Line => ends_fault(alloc, item),
        EdgeForm::Rectangle => ends_fault(alloc, item),
        EdgeForm::Arc => arc_fault(alloc, item),
        EdgeForm::Polygon => corners_fault(alloc, item),
        EdgeForm::Other => Ok(None),
    }
}
