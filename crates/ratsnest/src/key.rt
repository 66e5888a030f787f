// The keys of pairs, and which is the lesser.
ghost use Rattle.std.specs.Prelude.{◌≡◌, ◌↔◌, ◌⊎◌, ◌<◌, ℤ, pos, neg_ℤ, ◌+ℤ◌, ◌≤ℤ◌, ◌*ℤ◌, ◌-ℤ◌, length, List, IsTrue};
ghost use Rattle.std.specs.List.{All};
ghost use Rattle.ratsnest.specs.Ratsnest.{IsNearby, HasLesserKey, anchor, dist_sq};
ghost use Rattle.ratsnest.specs.declared.Anchor.{Anchor};

use crate::{Anchor, Pair};

// The anchor of that number.
pub(crate) fn anchor_at(anchors: &[Anchor], i: u32) -> Anchor
    requires { i < length anchors.now }
    ensures { result ≡ anchor anchors.now i }
{
    anchors[i as usize]
}

fn difference(a: i64, b: i64) -> i64
    requires a_low { neg_ℤ (pos 1000000000) ≤ℤ a }
    requires a_high { a ≤ℤ pos 1000000000 }
    requires b_low { neg_ℤ (pos 1000000000) ≤ℤ b }
    requires b_high { b ≤ℤ pos 1000000000 }
    ensures is { result ≡ a -ℤ b }
    ensures low { neg_ℤ (pos 2000000000) ≤ℤ result }
    ensures high { result ≤ℤ pos 2000000000 }
{
    a - b
}

fn square(d: i64) -> i64
    requires low { neg_ℤ (pos 2000000000) ≤ℤ d }
    requires high { d ≤ℤ pos 2000000000 }
    ensures is { result ≡ d *ℤ d }
    ensures low { pos 0 ≤ℤ result }
    ensures high { result ≤ℤ pos 4000000000000000000 }
{
    d * d
}

fn plus(a: i64, b: i64) -> i64
    requires a_low { pos 0 ≤ℤ a }
    requires a_high { a ≤ℤ pos 4000000000000000000 }
    requires b_low { pos 0 ≤ℤ b }
    requires b_high { b ≤ℤ pos 4000000000000000000 }
    ensures is { result ≡ a +ℤ b }
    ensures low { pos 0 ≤ℤ result }
{
    a + b
}

// The squared distance of two points, whose coordinates are given one by one.
fn apart(ax: i64, ay: i64, bx: i64, by: i64) -> i64
    requires ax_low { neg_ℤ (pos 1000000000) ≤ℤ ax }
    requires ax_high { ax ≤ℤ pos 1000000000 }
    requires ay_low { neg_ℤ (pos 1000000000) ≤ℤ ay }
    requires ay_high { ay ≤ℤ pos 1000000000 }
    requires bx_low { neg_ℤ (pos 1000000000) ≤ℤ bx }
    requires bx_high { bx ≤ℤ pos 1000000000 }
    requires by_low { neg_ℤ (pos 1000000000) ≤ℤ by }
    requires by_high { by ≤ℤ pos 1000000000 }
    ensures is { result ≡ ((ax -ℤ bx) *ℤ (ax -ℤ bx)) +ℤ ((ay -ℤ by) *ℤ (ay -ℤ by)) }
    ensures low { pos 0 ≤ℤ result }
{
    plus(square(difference(ax, bx)), square(difference(ay, by)))
}

// A squared distance is no negative number.
fn natural(z: i64) -> u64
    requires { pos 0 ≤ℤ z }
    ensures { pos result ≡ z }
{
    z.unsigned_abs()
}

// The squared distance of the two anchors.
pub(crate) fn dist(anchors: &[Anchor], e: Pair) -> u64
    requires first { e.first < length anchors.now }
    requires second { e.second < length anchors.now }
    requires near { All IsNearby anchors.now }
    ensures { pos result ≡ dist_sq anchors.now e }
{
    let a = anchor_at(anchors, e.first);
    let b = anchor_at(anchors, e.second);
    natural(apart(a.at.x, a.at.y, b.at.x, b.at.y))
}

// The order of keys, whose three parts are given one by one.
fn is_less_key(d: u64, i: u32, j: u32, g: u64, k: u32, l: u32) -> bool
    ensures { IsTrue result ↔ ((d < g) ⊎ ((d ≡ g) × ((i < k) ⊎ ((i ≡ k) × (j < l))))) }
{
    if d < g {
        return true;
    }
    if g < d {
        return false;
    }
    if i < k {
        return true;
    }
    i == k && j < l
}

// Whether e has the lesser key, where d and g are the squared distances of e and f.
pub(crate) fn is_less(e: Pair, d: u64, f: Pair, g: u64) -> bool
    ensures { (xs : List Anchor) → pos d ≡ dist_sq xs e → pos g ≡ dist_sq xs f → IsTrue result ↔ HasLesserKey xs e f }
{
    is_less_key(d, e.first, e.second, g, f.first, f.second)
}
