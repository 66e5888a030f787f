// Where a pad lies: in its footprint, that is turned.
ghost use Rattle.std.specs.Prelude.{◌≡◌, ◌||◌, cond, nat_lt, codes, Some, None, IfOk, ◌+ℤ◌};
ghost use Rattle.grid_num.specs.Length.{IsInRange};
ghost use Rattle.grid_num.specs.declared.read.NumFault.TheVariants.{OutOfRange};
ghost use Rattle.plane.specs.Narrow.{IsNearZero};
ghost use Rattle.board_language.specs.Pads.{is_far, pad_place, place_fault, turned_by};

use crate::angle::turned_by;
use crate::given::ReadFootprint;
use board_text::Part;
use grid_num::{Memory, NumFault, Point};
use std::alloc::Global;

fn moved(base: Point, own: Point) -> Point
    requires base_x { IsInRange base.x }
    requires base_y { IsInRange base.y }
    requires own_x { IsInRange own.x }
    requires own_y { IsInRange own.y }
    ensures x { result.x ≡ base.x +ℤ own.x }
    ensures y { result.y ≡ base.y +ℤ own.y }
    ensures near_x { IsNearZero 1000000000 result.x }
    ensures near_y { IsNearZero 1000000000 result.y }
{
    Point {
        x: base.x + own.x,
        y: base.y + own.y,
    }
}

/// The place of a pad, in nanometres.
///
/// # Errors
///
/// Want of memory.
pub fn pad_place(
    alloc: Global,
    footprint: &ReadFootprint<'_, '_>,
    pad: &Part<'_>,
) -> Result<Point, Memory>
    requires same { footprint.now.bytes ≡ pad.now.bytes }
    ensures value { IfOk result (λ p. p ≡ pad_place pad.now.bytes footprint.now.item pad.now.item) }
    ensures x { IfOk result (λ p. IsNearZero 1000000000 p.x) }
    ensures y { IfOk result (λ p. IsNearZero 1000000000 p.y) }
{
    let at = pad.point_in(alloc, b"at")?;
    let base = footprint.at();
    let turns = footprint.turns();
    let own = turned_by(turns, at);
    let place = moved(base, own);
    Ok(place)
}

fn is_far(nm: i64) -> bool
    ensures { result ≡ is_far nm }
{
    nm.unsigned_abs() > 500_000_000
}

/// What is wrong with the place of a pad: it is beyond 500 mm.
///
/// # Errors
///
/// Want of memory.
pub fn place_fault(
    alloc: Global,
    footprint: &ReadFootprint<'_, '_>,
    pad: &Part<'_>,
) -> Result<Option<NumFault>, Memory>
    requires same { footprint.now.bytes ≡ pad.now.bytes }
    ensures { IfOk result (λ f. f ≡ place_fault pad.now.bytes footprint.now.item pad.now.item) }
{
    let place = pad_place(alloc, footprint, pad)?;
    Ok(if is_far(place.x) || is_far(place.y) {
        Some(NumFault::OutOfRange)
    } else {
        None
    })
}
