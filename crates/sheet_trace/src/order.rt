// The order of lists of corners, and of what walks draw.
ghost use Rattle.std.specs.Prelude.{◌≡◌, IfOk};
ghost use Rattle.std.specs.List.Sorted.{IsPermutation, IsSortedBy};
ghost use Rattle.std.specs.Ordering.{is_lt};
ghost use Rattle.rings.specs.Inner.Tracing.{is_same_point, is_less_list};
ghost use Rattle.sheet_trace.specs.Inner.Order.{is_less_drawn, AreLoopsInOrder};

use crate::next::is_before;
use grid_num::{Memory, Point};
use std::cmp::Ordering;

/// What a walk draws.
#[derive(Drop, Debug)]
pub struct Drawn {
    /// Its corners in nanometres, without those that are passed straight, begun at the least: by y, and then by x.
    pub corners: Vec<Point>,
    /// Whether it goes around a hole.
    pub hole: bool,
}

// Whether two corners are one.
#[tactic(auto, unfolding(rings::specs::Inner::Tracing::is_same_point))]
pub fn is_same(a: Point, b: Point) -> bool
    ensures { result ≡ is_same_point a b }
{
    a.x == b.x && a.y == b.y
}

// Whether a list of corners is less than another: by the first corner in which they differ, or where it ends before the other.
fn is_less(one: &[Point], other: &[Point]) -> bool
    ensures { result ≡ is_less_list one.now other.now }
{
    'each: for i in 0..one.len() {
        if i == other.len() {
            return false;
        }
        if !is_same(one[i], other[i]) {
            return is_before(one[i], other[i]);
        }
    }
    one.len() < other.len()
}

// How two of them are ordered.
fn compare(one: &Drawn, other: &Drawn) -> Ordering
    ensures { is_lt result ≡ is_less_drawn one.now other.now }
{
    if is_less(&one.corners, &other.corners) {
        Ordering::Less
    } else if is_less(&other.corners, &one.corners) {
        Ordering::Greater
    } else {
        Ordering::Equal
    }
}

/// The drawings by their lists of corners.
///
/// # Errors
///
/// Refuses for want of memory alone.
pub fn in_order(mut drawings: Vec<Drawn>) -> Result<Vec<Drawn>, Memory>
    ensures drawings { IfOk result (λ v. IsPermutation drawings.items v.items) }
    ensures order { IfOk result (λ v. IsSortedBy is_less_drawn v.items) }
    ensures loops { IfOk result (λ v. AreLoopsInOrder drawings.items v.items) }
{
    drawings.sort_by(|one, other| compare(one, other))?;
    Ok(drawings)
}
