// Ends of runs that move in straight lines over a stretch of rows: those of an octagon, and how two of them lie.
ghost use Rattle.std.specs.Prelude.{◌≡◌, ◌⊎◌, ℕ, ◌^◌, ◌≤◌, pos, ◌+ℤ◌, ◌≤ℤ◌, ◌<ℤ◌, IsTrue, IsNone, IfSome, false};
ghost use Rattle.plane.specs.Narrow.{IsNearZero};
ghost use Rattle.grid_sets.specs.Bands.{reach};
ghost use Rattle.scan_runs.specs.Inner.Lines.{AreEndsApart, IsGreaterEnd};
ghost use Rattle.scan_runs.specs.Inner.Ends.{IsSmallEnd, IsLeftFor, IsRightFor};

use grid_sets::{End, Move};

fn is_greatest(a: i64, b: i64, c: i64) -> bool
    ensures yes { IsTrue result → (b ≤ℤ a) × (c ≤ℤ a) }
    ensures no { result ≡ false → (a <ℤ b) ⊎ (a <ℤ c) }
{
    b <= a && c <= a
}

fn is_least(a: i64, b: i64, c: i64) -> bool
    ensures yes { IsTrue result → (a ≤ℤ b) × (a ≤ℤ c) }
    ensures no { result ≡ false → (b <ℤ a) ⊎ (c <ℤ a) }
{
    a <= b && a <= c
}

// Where the end is k rows further down.
pub(crate) fn place_at(e: End, k: u64) -> i64
    requires e { IsNearZero (2 ^ 44) e.place }
    requires k { k ≤ 2 ^ 42 }
    ensures { result ≡ reach k e }
{
    match e.go {
        Move::Left => e.place - k as i64,
        Move::Still => e.place,
        Move::Right => e.place + k as i64,
    }
}

// The straight end that begins each of the rows, if there is one.
pub(crate) fn left_of(x0: i64, s0: i64, d0: i64, top: i64, more: u64) -> Option<End>
    requires x { IsNearZero (2 ^ 42) x0 }
    requires s { IsNearZero (2 ^ 42) s0 }
    requires d { IsNearZero (2 ^ 42) d0 }
    requires top { IsNearZero (2 ^ 40) top }
    requires more { more ≤ 2 ^ 41 }
    ensures some { IfSome result (IsLeftFor x0 s0 d0 top more) }
    ensures none { IsNone result → 1 ≤ more }
{
    let bottom = top + more as i64;
    if is_greatest(x0, s0 - top, d0 + bottom) {
        return Some(End {
            place: x0,
            go: Move::Still,
        });
    }
    if is_greatest(s0 - bottom, x0, d0 + bottom) {
        return Some(End {
            place: s0 - top,
            go: Move::Left,
        });
    }
    if is_greatest(d0 + top, x0, s0 - top) {
        return Some(End {
            place: d0 + top,
            go: Move::Right,
        });
    }
    None
}

// The straight end that ends each of the rows, if there is one.
pub(crate) fn right_of(x1: i64, s1: i64, d1: i64, top: i64, more: u64) -> Option<End>
    requires x { IsNearZero (2 ^ 42) x1 }
    requires s { IsNearZero (2 ^ 42) s1 }
    requires d { IsNearZero (2 ^ 42) d1 }
    requires top { IsNearZero (2 ^ 40) top }
    requires more { more ≤ 2 ^ 41 }
    ensures some { IfSome result (IsRightFor x1 s1 d1 top more) }
    ensures none { IsNone result → 1 ≤ more }
{
    let bottom = top + more as i64;
    if is_least(x1, s1 - bottom, d1 + top) {
        return Some(End {
            place: x1,
            go: Move::Still,
        });
    }
    if is_least(s1 - top, x1, d1 + top) {
        return Some(End {
            place: s1 - top,
            go: Move::Left,
        });
    }
    if is_least(d1 + bottom, x1, s1 - bottom) {
        return Some(End {
            place: d1 + top,
            go: Move::Right,
        });
    }
    None
}

// Whether on each row the one end and the gap or more is no more than the other; it has to be so on the first row
// and the last.
pub(crate) fn is_apart(e: End, f: End, gap: i64, more: u64) -> bool
    requires e { IsSmallEnd e }
    requires f { IsSmallEnd f }
    requires gap { IsNearZero 2 gap }
    requires more { more ≤ 2 ^ 42 }
    ensures yes { IsTrue result → AreEndsApart more gap e f }
    ensures no { result ≡ false → more ≡ 0 → reach 0 f <ℤ (reach 0 e +ℤ gap) }
{
    let e_first = place_at(e, 0);
    let f_first = place_at(f, 0);
    let e_last = place_at(e, more);
    let f_last = place_at(f, more);
    let first = leaves(e_first, f_first, gap);
    let last = leaves(e_last, f_last, gap);
    first && last
}

fn leaves(a: i64, b: i64, gap: i64) -> bool
    requires a { IsNearZero (2 ^ 44) a }
    requires gap { IsNearZero 2 gap }
    ensures yes { IsTrue result → (a +ℤ gap) ≤ℤ b }
    ensures no { result ≡ false → b <ℤ (a +ℤ gap) }
{
    a + gap <= b
}

// The end that is the greater one on each row, if it is the same one.
pub(crate) fn greater_end(e: End, f: End, more: u64) -> Option<End>
    requires e { IsSmallEnd e }
    requires f { IsSmallEnd f }
    requires more { more ≤ 2 ^ 42 }
    ensures some { IfSome result (IsGreaterEnd more e f) }
    ensures none { IsNone result → 1 ≤ more }
{
    if is_apart(f, e, 0, more) {
        return Some(e);
    }
    if is_apart(e, f, 0, more) {
        return Some(f);
    }
    None
}
