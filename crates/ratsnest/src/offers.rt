// For each anchor outside the joined clusters, its pair of least key to an anchor inside. Kept up as clusters come
// inside, these make the growing of the tree quadratic in the anchors.
ghost use Rattle.std.specs.Prelude.{◌≡◌, ◌⊎◌, ℕ, ◌<◌, ◌≤◌, ◌^◌, List, [], ◌∷◌, length, IfOk};
ghost use Rattle.std.specs.List.{All};
ghost use Rattle.ratsnest.specs.Ratsnest.{IsNearby, IsPair, IsTree, anchor};
ghost use Rattle.ratsnest.specs.declared.Anchor.{Anchor};
ghost use Rattle.ratsnest.specs.Inner.Best.{IsBetween, IsBetter, IsImproved, IsSoundOffer, IsEntering, IsRestOfOffers, IsRing, IsAbsorbed, IsNearest, MayMeet};

use crate::key::{anchor_at, dist, is_less};
use crate::{Anchor, Pair};
use grid_num::Memory;
use std::alloc::Global;

// An anchor outside the joined clusters, its pair of least key to an anchor inside, and the square of their distance.
#[derive(Clone, Copy, Drop)]
pub(crate) struct Offer {
    pub(crate) outside: u32,
    pub(crate) best: Pair,
    length: u64,
}

// The pair of two anchors.
fn pair_of(i: u32, j: u32) -> Pair
    requires { i ≡ j → ⊥ }
    ensures { IsBetween result i j }
{
    if i < j {
        Pair {
            first: i,
            second: j,
        }
    } else {
        Pair {
            first: j,
            second: i,
        }
    }
}

// The offer, where m is inside too.
fn better(anchors: &[Anchor], o: Offer, m: u32) -> Offer
    requires near { All IsNearby anchors.now }
    requires sound { IsSoundOffer anchors.now o }
    requires meets { MayMeet anchors.now o.outside m }
    ensures { IsBetter anchors.now m o result }
{
    let e = pair_of(m, o.outside);
    let length = dist(anchors, e);
    if is_less(e, length, o.best, o.length) {
        Offer {
            outside: o.outside,
            best: e,
            length,
        }
    } else {
        o
    }
}

// The offer, where all the moved anchors are inside too.
fn improved(anchors: &[Anchor], o: Offer, moved: &[u32]) -> Offer
    requires near { All IsNearby anchors.now }
    requires sound { IsSoundOffer anchors.now o }
    requires meets { All (λ m. MayMeet anchors.now o.outside m) moved.now }
    ensures { IsImproved anchors.now moved.now o result }
{
    let mut best = o;
    'each: for m in moved {
        best = better(anchors, best, *m);
    }
    best
}

// The anchors outside that are in the cluster.
fn entering(
    alloc: Global,
    anchors: &[Anchor],
    left: &[Offer],
    cluster: u32,
) -> Result<Vec<u32>, Memory>
    requires sound { All (λ o. IsSoundOffer anchors.now o) left.now }
    ensures { IfOk result (λ moved. IsEntering anchors.now cluster left.now moved.items) }
{
    let mut moved = Vec::new(alloc);
    'each: for o in left {
        if anchor_at(anchors, o.outside).cluster == cluster {
            moved.push(o.outside)?;
        }
    }
    Ok(moved)
}

// The offers of the other anchors outside, now that the moved ones are inside.
fn others(
    alloc: Global,
    anchors: &[Anchor],
    left: &[Offer],
    cluster: u32,
    moved: &[u32],
) -> Result<Vec<Offer>, Memory>
    requires near { All IsNearby anchors.now }
    requires sound { All (λ o. IsSoundOffer anchors.now o) left.now }
    requires entering { IsEntering anchors.now cluster left.now moved.now }
    ensures { IfOk result (λ rest. IsRestOfOffers anchors.now cluster moved.now left.now rest.items) }
{
    let mut rest = Vec::new(alloc);
    'each: for o in left {
        if anchor_at(anchors, o.outside).cluster != cluster {
            rest.push(improved(anchors, *o, moved))?;
        }
    }
    Ok(rest)
}

// The offers once the cluster is joined.
pub(crate) fn absorbed(
    alloc: Global,
    anchors: &[Anchor],
    left: &[Offer],
    cluster: u32,
) -> Result<Vec<Offer>, Memory>
    requires near { All IsNearby anchors.now }
    requires sound { All (λ o. IsSoundOffer anchors.now o) left.now }
    ensures { IfOk result (λ rest. IsAbsorbed anchors.now cluster left.now rest.items) }
{
    let moved = entering(alloc, anchors, left, cluster)?;
    others(alloc, anchors, left, cluster, &moved)
}

// The offer of least key.
pub(crate) fn nearest(left: &[Offer]) -> Offer
    requires some { 0 < length left.now }
    ensures { (xs : List Anchor) → All (λ o. IsSoundOffer xs o) left.now → IsNearest xs left.now result }
{
    let mut best = left[0];
    'each: for o in left {
        if is_less(o.best, o.length, best.best, best.length) {
            best = *o;
        }
    }
    best
}

// The offers where anchor 0 alone is inside.
pub(crate) fn first_offers(alloc: Global, anchors: &[Anchor]) -> Result<Vec<Offer>, Memory>
    requires some { 0 < length anchors.now }
    requires near { All IsNearby anchors.now }
    requires count { length anchors.now < 2 ^ 32 }
    ensures { IfOk result (λ left. IsRing anchors.now (0 ∷ []) left.items) }
{
    let mut left = Vec::new(alloc);
    'each: for k in 1..anchors.len() as u32 {
        let best = Pair {
            first: 0,
            second: k,
        };
        left.push(Offer {
            outside: k,
            best,
            length: dist(anchors, best),
        })?;
    }
    Ok(left)
}
