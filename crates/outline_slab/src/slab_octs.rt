// The octagons of slabs: between the first cut of a slab and the second, the third and the fourth, ..
ghost use Rattle.std.specs.Prelude.{◌≡◌, ◌⊎◌, ◌↔◌, IfOk};
ghost use Rattle.std.specs.List.{All};
ghost use Rattle.plane.specs.Plane.{PlanePoint, In, StrictlyIn, IsOct};
ghost use Rattle.plane.specs.Covering.{IsOn, Covers, StrictlyCovers};
ghost use Rattle.slabs.specs.Slabs.{IsAmid, IsInPair, IsOnLevel, AreClosed, starts};
ghost use Rattle.outline_slab.specs.Inner.Side.{side_edge};
ghost use Rattle.outline_slab.specs.Cuts.{all_edges, IsSoundEdge, AreTwo, ArePaired, IsInSome, HaveJust};
ghost use Rattle.outline_slab.specs.Filled.{AreFilling};
ghost use Rattle.outline_slab.specs.Inner.Wide.{IsWide, IsInWidePair, KeepStout};

use crate::cuts::{cuts_of, in_order};
use crate::side::Side;
use crate::slab_rows::rows_of_ends;
use grid_num::Memory;
use octagon::Oct;
use std::alloc::Global;

// The octagon from one cut to the other, in one slab.
fn amid(left: Side, right: Side) -> Oct
    requires { AreTwo (side_edge left) (side_edge right) }
    ensures points { (p : PlanePoint) → In result p ↔ IsAmid (side_edge left) (side_edge right) p }
    ensures wide { IsWide (side_edge left) (side_edge right) → (q : PlanePoint) × StrictlyIn result q }
    ensures oct { IsOct result }
{
    Oct::of_points(&[left.start, right.start, left.finish, right.finish])
}

// The octagons of all pairs.
fn pair_octs(alloc: Global, cuts: &[Side]) -> Result<Vec<Oct>, Memory>
    requires { ArePaired (all_edges cuts.now) }
    ensures points { IfOk result (λ v. HaveJust v.items (IsInPair (all_edges cuts.now))) }
    ensures wide { IfOk result (λ v. AreFilling v.items (IsInWidePair (all_edges cuts.now))) }
    ensures octs { IfOk result (λ v. All IsOct v.items) }
{
    let pairs = cuts.len() / 2;
    let mut octs = Vec::with_capacity(alloc, pairs)?;
    'pair: for j in 0..pairs {
        octs.push(amid(cuts[2 * j], cuts[2 * j + 1]))?;
    }
    Ok(octs)
}

// The octagon of the points of a side.
fn side_oct(side: Side) -> Oct
    requires { IsSoundEdge (side_edge side) }
    ensures points { (p : PlanePoint) → In result p ↔ IsOn (side_edge side) p }
    ensures oct { IsOct result }
{
    Oct::of_points(&[side.start, side.finish])
}

// The octagons with that of a side, if the side is level.
fn with_level(side: Side, octs: Vec<Oct>) -> Result<Vec<Oct>, Memory>
    requires sound { IsSoundEdge (side_edge side) }
    requires octs { All IsOct octs.items }
    ensures points { IfOk result (λ v. (p : PlanePoint) → IsInSome v.items p ↔ (IsInSome octs.items p ⊎ ((side.start.y ≡ side.finish.y) × IsOn (side_edge side) p))) }
    ensures kept { IfOk result (λ v. KeepStout octs.items v.items) }
    ensures octs { IfOk result (λ v. All IsOct v.items) }
{
    let mut octs = octs;
    if side.start.y != side.finish.y {
        return Ok(octs);
    }
    octs.push(side_oct(side))?;
    Ok(octs)
}

// The octagons with those of the level sides.
fn with_levels(sides: &[Side], octs: Vec<Oct>) -> Result<Vec<Oct>, Memory>
    requires sound { All IsSoundEdge (all_edges sides.now) }
    requires octs { All IsOct octs.items }
    ensures points { IfOk result (λ v. (p : PlanePoint) → IsInSome v.items p ↔ (IsInSome octs.items p ⊎ IsOnLevel (all_edges sides.now) p)) }
    ensures kept { IfOk result (λ v. KeepStout octs.items v.items) }
    ensures octs { IfOk result (λ v. All IsOct v.items) }
{
    let mut octs = octs;
    'each: for i in 0..sides.len() {
        octs = with_level(sides[i], octs)?;
    }
    Ok(octs)
}

/// Octagons of just the points that closed sides cover. The flat ones among them stand for level sides alone.
pub fn covered_octs(alloc: Global, sides: &[Side]) -> Result<Vec<Oct>, Memory>
    requires closed { AreClosed (starts (all_edges sides.now)) (all_edges sides.now) }
    requires sound { All IsSoundEdge (all_edges sides.now) }
    ensures points { IfOk result (λ v. HaveJust v.items (Covers (all_edges sides.now))) }
    ensures filling { IfOk result (λ v. AreFilling v.items (StrictlyCovers (all_edges sides.now))) }
    ensures octs { IfOk result (λ v. All IsOct v.items) }
{
    let rows = rows_of_ends(alloc, sides)?;
    let cuts = in_order(cuts_of(alloc, &rows, sides)?)?;
    with_levels(sides, pair_octs(alloc, &cuts)?)
}
