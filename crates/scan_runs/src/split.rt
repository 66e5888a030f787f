// Where to split a stretch of rows whose runs aren't straight: after the row nearest to its middle at which one of the
// octagons ends, turns, or is about to begin; in the middle where there is none, since then two sides cross.
ghost use Rattle.std.specs.Prelude.{ℕ, ◌<◌, ◌≤◌, ◌^◌};
ghost use Rattle.plane.specs.Narrow.{IsNearZero};

use octagon::Oct;

// How many rows below the first one the upper part of the stretch ends.
pub(crate) fn split_of(octs: &[Oct], top: i64, more: u64) -> u64
    requires top { IsNearZero (2 ^ 40) top }
    requires some { 1 ≤ more }
    requires more { more ≤ 2 ^ 41 }
    ensures { result < more }
{
    let middle = more / 2;
    let mut best = more;
    'octs: for oct in octs {
        best = nearer_end(best, more, middle, oct, top);
        best = nearer_left(best, more, middle, oct, top);
        best = nearer_right(best, more, middle, oct, top);
    }
    if best < more { best } else { middle }
}

// The row above the octagon's first, or its last, where it is nearer.
fn nearer_end(best: u64, more: u64, middle: u64, oct: &Oct, top: i64) -> u64
    requires { IsNearZero (2 ^ 40) top }
{
    let above = oct.y0() - 1 - top;
    let last = oct.y1() - top;
    let best = nearest(best, more, middle, above);
    nearest(best, more, middle, last)
}

// The rows where the octagon's left side turns.
fn nearer_left(best: u64, more: u64, middle: u64, oct: &Oct, top: i64) -> u64
    requires { IsNearZero (2 ^ 40) top }
{
    let upper = oct.s0() - oct.x0();
    let lower = oct.x0() - oct.d0();
    let best = nearest(best, more, middle, upper - top);
    nearest(best, more, middle, lower - top)
}

// The rows where its right side turns.
fn nearer_right(best: u64, more: u64, middle: u64, oct: &Oct, top: i64) -> u64
    requires { IsNearZero (2 ^ 40) top }
{
    let upper = oct.x1() - oct.d1();
    let lower = oct.s1() - oct.x1();
    let best = nearest(best, more, middle, upper - top);
    nearest(best, more, middle, lower - top)
}

// The row, where it is on the stretch and nearer to the middle than the best one.
fn nearest(best: u64, more: u64, middle: u64, row: i64) -> u64 {
    if row < 0 {
        return best;
    }
    let row = row as u64;
    if row < more && (best >= more || row.abs_diff(middle) < best.abs_diff(middle)) {
        row
    } else {
        best
    }
}
