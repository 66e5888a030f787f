//! The ratsnest of a list of anchors: the least tree of straight lines that joins the clusters, and its certificate.
//! The layer above uses `IsTree` (the pairs in joining order) and `IsLeastTree` (what such a list is good for).
//! Coordinates are in nanometres, within a metre of the origin; an anchor is named by its place in the list.
#![tactic(auto)]

ghost use Rattle.std.specs.Prelude.{◌≡◌, ◌↔◌, List, IfOk, IsTrue};
ghost use Rattle.std.specs.List.{All};
ghost use Rattle.ratsnest.specs.Ratsnest.{IsNearby, IsTree, IsLeastTree, TreeLaw};

mod grow;
mod key;
mod offers;

use crate::grow::grown;
use grid_num::{Memory, Point};
use std::alloc::Global;

/// Where a ratsnest line may end, and the number of the cluster that it belongs to. Two anchors of one cluster are
/// joined already.
#[derive(Clone, Copy, PartialEq, Eq, Debug, Drop)]
pub struct Anchor {
    /// In nanometres.
    pub at: Point,
    /// Any numbers serve; only whether two are equal counts.
    pub cluster: u32,
}

/// A line of a ratsnest: two anchors by their places in the list, the lesser first.
#[derive(Clone, Copy, PartialEq, Eq, Debug, Drop)]
pub struct Pair {
    pub first: u32,
    pub second: u32,
}

/// The ratsnest in joining order: it starts with the cluster of the first anchor, and takes each time the pair of least
/// key that leaves the joined clusters. A pair's key is the squared distance of its anchors, then its lesser number, then
/// its greater. Time is quadratic in the anchors and memory linear.
///
/// # Errors
///
/// Want of memory, which 2^32 anchors or more are taken for.
pub fn tree(alloc: Global, anchors: &[Anchor]) -> Result<Vec<Pair>, Memory>
    requires near { All IsNearby anchors.now }
    ensures order { IfOk result (λ pairs. IsTree anchors.now pairs.items) }
    ensures least { IfOk result (λ pairs. IsLeastTree anchors.now pairs.items) }
{
    if anchors.len() > u32::MAX as usize {
        return Err(Memory);
    }
    grown(alloc, anchors)
}

/// Whether these pairs are the ratsnest in joining order. Any pairs may be asked about: one whose ends are in the other
/// order, or an end that is no anchor, makes the answer false.
///
/// # Errors
///
/// Want of memory, which 2^32 anchors or more are taken for.
pub fn check_tree(alloc: Global, anchors: &[Anchor], pairs: &[Pair]) -> Result<bool, Memory>
    requires near { All IsNearby anchors.now }
    ensures exact { IfOk result (λ yes. IsTrue yes ↔ IsTree anchors.now pairs.now) }
    ensures least { IfOk result (λ yes. IsTrue yes → IsLeastTree anchors.now pairs.now) }
{
    let one = tree(alloc, anchors)?;
    Ok(is_same(&one, pairs))
}

/// Whatever list is the ratsnest in joining order is a least tree, and there is no second such list.
pub fn tree_law()
    ensures { TreeLaw }
{}

// Whether the two lists are equal.
fn is_same(a: &[Pair], b: &[Pair]) -> bool
    ensures { IsTrue result ↔ (a.now ≡ b.now) }
{
    a == b
}
