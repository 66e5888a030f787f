// What no clause says: that the calls succeed, and values worked out by hand from the rules.
ghost use Rattle.std.specs.Prelude.{◌≡◌, ◌≤◌, ◌<◌, ◌^◌, ℕ, List, length, IfOk};
ghost use Rattle.std.specs.List.{All};
ghost use Rattle.ratsnest.specs.Ratsnest.{IsNearby};

use crate::shapes::is_send_and_sync;
use grid_num::Point;
use ratsnest::{Anchor, Pair, check_tree, tree};
use std::alloc::{AllocError, Global};
use std::test::Fail;

fn anchor(x: i64, y: i64, cluster: u32) -> Anchor
    ensures x { result.at.x ≡ x }
    ensures y { result.at.y ≡ y }
{
    Anchor {
        at: Point { x, y },
        cluster,
    }
}

fn line(first: u32, second: u32) -> Pair {
    Pair { first, second }
}

// Four pads at the corners of a square with sides of 10 mm, each a cluster of its own. All sides are equally long, so
// the numbers decide: from pad 0 first pad 1, then pad 3, then from pad 1 pad 2.
//
//     0 --- 1
//     |     |
//     3     2
#[test]
fn a_square_is_joined_along_three_sides(rt: HostRuntime) -> Result<(), Fail> {
    let pads = [
        anchor(0, 0, 0),
        anchor(10_000_000, 0, 1),
        anchor(10_000_000, 10_000_000, 2),
        anchor(0, 10_000_000, 3),
    ];
    let lines = tree(rt.alloc(), &pads).ok().ok_or("no memory")?;
    let wanted = [line(0, 1), line(0, 3), line(1, 2)];
    assert!(rt; lines.as_slice() == wanted.as_slice());
    is_send_and_sync(&pads);
    is_send_and_sync(&lines);
    for (pairs, answer) in [
        (&wanted[..], true),
        // the last two change places
        (&[line(0, 1), line(1, 2), line(0, 3)][..], false),
        // ends swapped
        (&[line(0, 1), line(3, 0), line(1, 2)][..], false),
        // a cluster is left
        (&[line(0, 1), line(0, 3)][..], false),
        // a line inside what is joined
        (&[line(0, 1), line(0, 3), line(1, 2), line(2, 3)][..], false),
        // no such anchor
        (&[line(0, 1), line(0, 3), line(1, 4)][..], false),
    ] {
        let said = check_tree(rt.alloc(), &pads, pairs);
        assert!(rt; said == Ok(answer));
    }
    Ok(())
}

#[test]
fn one_cluster_needs_no_line(rt: HostRuntime) -> Result<(), Fail> {
    assert!(rt; check_tree(rt.alloc(), &[], &[]) == Ok(true));
    let same = [anchor(0, 0, 7), anchor(5, 0, 7)];
    assert!(rt; check_tree(rt.alloc(), &same, &[]) == Ok(true));
    let apart = [anchor(0, 0, 7), anchor(5, 0, 8)];
    assert!(rt; check_tree(rt.alloc(), &apart, &[]) == Ok(false));
    assert!(rt; check_tree(rt.alloc(), &apart, &[line(0, 1)]) == Ok(true));
    Ok(())
}

// An anchor at small coordinates.
fn near(x: u32, y: u32, cluster: u32) -> Anchor
    requires x { x ≤ 1000000 }
    requires y { y ≤ 1000000 }
    ensures { IsNearby result }
{
    anchor(i64::from(x), i64::from(y), cluster)
}

// Anchors at grid points of a square, in some of the clusters, by a linear congruential generator.
fn generated(
    alloc: Global,
    n: u32,
    side: u32,
    clusters: u32,
    seed: u32,
) -> Result<Vec<Anchor>, AllocError>
    requires some_side { 0 < side }
    requires side { side ≤ 1000000 }
    requires clusters { 0 < clusters }
    ensures near { IfOk result (λ v. All IsNearby v.items) }
    ensures count { IfOk result (λ v. length v.items ≡ n) }
{
    let mut anchors = Vec::new(alloc);
    let mut state = seed;
    'each: for i in 0..n {
        let x = state.wrapping_mul(1_664_525).wrapping_add(1_013_904_223);
        let y = x.wrapping_mul(1_664_525).wrapping_add(1_013_904_223);
        state = y.wrapping_mul(1_664_525).wrapping_add(1_013_904_223);
        anchors.push(near((x >> 8) % side, (y >> 8) % side, (state >> 8) % clusters))?;
    }
    Ok(anchors)
}

fn squared(a: Anchor, b: Anchor) -> i64 {
    let dx = a.at.x.wrapping_sub(b.at.x);
    let dy = a.at.y.wrapping_sub(b.at.y);
    dx.wrapping_mul(dx).wrapping_add(dy.wrapping_mul(dy))
}

// The least key of a pair with just one end in the joined clusters.
fn least_leaving(anchors: &[Anchor], joined: &[u32]) -> Option<(i64, usize, usize)> {
    let mut best = None;
    for (i, a) in anchors.iter().enumerate() {
        for (j, b) in anchors.iter().enumerate() {
            if i < j && joined.contains(&a.cluster) != joined.contains(&b.cluster) {
                best = lesser(best, (squared(*a, *b), i, j));
            }
        }
    }
    best
}

fn lesser(
    best: Option<(i64, usize, usize)>,
    key: (i64, usize, usize),
) -> Option<(i64, usize, usize)> {
    match best {
        Some(old) if old < key => Some(old),
        _ => Some(key),
    }
}

// Whether the pairs are those of a plain search over all pairs, each time.
fn is_searched(alloc: Global, anchors: &[Anchor], pairs: &[Pair]) -> Result<bool, AllocError> {
    let mut joined = Vec::new(alloc);
    if let Some(a) = anchors.first() {
        joined.push(a.cluster)?;
    }
    for pair in pairs {
        let (i, j) = (pair.first as usize, pair.second as usize);
        let (Some(a), Some(b)) = (anchors.get(i), anchors.get(j)) else {
            return Ok(false);
        };
        if least_leaving(anchors, &joined) != Some((squared(*a, *b), i, j)) {
            return Ok(false);
        }
        joined.push(a.cluster)?;
        joined.push(b.cluster)?;
    }
    Ok(least_leaving(anchors, &joined).is_none())
}

// A dozen anchors on a grid of four by four places have many equal distances.
#[test]
fn ties_are_broken_as_a_plain_search_breaks_them(rt: HostRuntime) -> Result<(), Fail> {
    for seed in 0..200u32 {
        let anchors = generated(rt.alloc(), 12, 4, 1 + seed % 12, seed)?;
        let lines = tree(rt.alloc(), &anchors).ok().ok_or("no memory")?;
        assert!(rt; is_searched(rt.alloc(), &anchors, &lines)?, "at {seed}");
    }
    Ok(())
}

// A whole ground net: 20,000 anchors, each its own cluster but for chance, within seconds.
#[test]
fn a_large_net_takes_seconds(rt: HostRuntime) -> Result<(), Fail> {
    let anchors = generated(rt.alloc(), 20_000, 1_000_000, 16_000_000, 1)?;
    let lines = tree(rt.alloc(), &anchors).ok().ok_or("no memory")?;
    assert!(rt; lines.len() > 19_900);
    assert!(rt; lines.len() < 20_000);
    Ok(())
}
