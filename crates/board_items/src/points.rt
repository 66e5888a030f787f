// Lists of points: those of an outline, or of a polygon on the board's edge.
ghost use Rattle.std.specs.Prelude.{◌≡◌, not, map, codes, Some, IfOk};
ghost use Rattle.std.specs.List.{All, list_any};
ghost use Rattle.sexpr_text.specs.Items.{is_headed};
ghost use Rattle.grid_num.specs.Length.{IsInRange};
ghost use Rattle.board_text.specs.Numbers.{first_of, is_short, point_fault};
ghost use Rattle.board_text.specs.Items.{point_at};

use board_text::Part;
use grid_num::{Memory, NumFault, Point};
use std::alloc::Global;

/// Whether a point has fewer than two numbers.
pub fn has_short_point(lists: &[Part<'_>]) -> bool
    ensures { result ≡ list_any (λ p. is_short 2 (Some p.item)) lists.now }
{
    'each: for list in lists {
        if list.is_short(2) {
            return true;
        }
    }
    false
}

/// Whether a point is another than `xy`.
pub fn has_other_point(lists: &[Part<'_>]) -> bool
    ensures { result ≡ list_any (λ p. not (is_headed p.bytes (codes "xy") p.item)) lists.now }
{
    'each: for list in lists {
        if !list.is_headed(b"xy") {
            return true;
        }
    }
    false
}

/// The first of the points' numbers that can't be read.
///
/// # Errors
///
/// Want of memory.
pub fn points_fault(alloc: Global, lists: &[Part<'_>]) -> Result<Option<NumFault>, Memory>
    ensures { IfOk result (λ f. f ≡ first_of (map (λ p. point_fault p.bytes (Some p.item)) lists.now)) }
{
    'each: for list in lists {
        let fault = list.point_fault(alloc)?;
        if fault.is_some() {
            return Ok(fault);
        }
    }
    Ok(None)
}

/// The points, in nanometres.
///
/// # Errors
///
/// Want of memory.
pub fn points_of(alloc: Global, lists: &[Part<'_>]) -> Result<Vec<Point>, Memory>
    ensures value { IfOk result (λ v. v.items ≡ map (λ p. point_at p.bytes (Some p.item)) lists.now) }
    ensures range { IfOk result (λ v. All (λ p. IsInRange p.x × IsInRange p.y) v.items) }
{
    let mut points = Vec::with_capacity(alloc, lists.len())?;
    'each: for list in lists {
        points.push(list.point(alloc)?)?;
    }
    Ok(points)
}
