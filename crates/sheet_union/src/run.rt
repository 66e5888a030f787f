// What octagons have between two rows, in nanometres.
ghost use Rattle.std.specs.Prelude.{◌≡◌, ◌^◌, IfOk};
ghost use Rattle.std.specs.List.{All};
ghost use Rattle.plane.specs.Plane.{times};
ghost use Rattle.plane.specs.Narrow.{IsNearZero};
ghost use Rattle.strips.specs.Strips.{in_nanometres};
ghost use Rattle.strips.specs.Inner.Runs.{greatest, least, left_at, right_at, run_at, runs_of};
ghost use Rattle.sheet_union.specs.Near.{IsNearStrip};

use grid_num::Memory;
use octagon::Oct;
use std::alloc::Global;
use strips::Strip;

fn greatest(a: i64, b: i64, c: i64) -> i64
    ensures { result ≡ greatest a b c }
{
    if a < b {
        if b < c { c } else { b }
    } else if a < c {
        c
    } else {
        a
    }
}

fn least(a: i64, b: i64, c: i64) -> i64
    ensures { result ≡ least a b c }
{
    if b < a {
        if c < b { c } else { b }
    } else if c < a {
        c
    } else {
        a
    }
}

// Where the octagon's row y begins.
fn row_start(oct: &Oct, y: i64) -> i64
    requires { IsNearZero (2 ^ 43) y }
    ensures value { result ≡ left_at (times 2 oct.now) y }
    ensures near { IsNearZero (2 ^ 45) result }
{
    let x = 2 * oct.x0();
    let s = 2 * oct.s0() - y;
    let d = 2 * oct.d0() + y;
    greatest(x, s, d)
}

// Where it ends.
fn row_end(oct: &Oct, y: i64) -> i64
    requires { IsNearZero (2 ^ 43) y }
    ensures value { result ≡ right_at (times 2 oct.now) y }
    ensures near { IsNearZero (2 ^ 45) result }
{
    let x = 2 * oct.x1();
    let s = 2 * oct.s1() - y;
    let d = 2 * oct.d1() + y;
    least(x, s, d)
}

// What the octagon has between two rows.
fn run_of(oct: &Oct, top: i64, bottom: i64) -> Strip
    requires top { IsNearZero (2 ^ 43) top }
    requires bottom { IsNearZero (2 ^ 43) bottom }
    ensures value { result ≡ run_at (times 2 oct.now) top bottom }
    ensures near { IsNearStrip result }
{
    Strip {
        top,
        bottom,
        left: row_start(oct, top),
        left_end: row_start(oct, bottom),
        right: row_end(oct, top),
        right_end: row_end(oct, bottom),
    }
}

/// What each of the octagons has between two rows. Refuses for want of memory alone.
pub fn runs_of(alloc: Global, octs: &[Oct], top: i64, bottom: i64) -> Result<Vec<Strip>, Memory>
    requires top { IsNearZero (2 ^ 43) top }
    requires bottom { IsNearZero (2 ^ 43) bottom }
    ensures value { IfOk result (λ v. v.items ≡ runs_of (in_nanometres octs.now) top bottom) }
    ensures near { IfOk result (λ v. All (λ s. IsNearStrip s) v.items) }
{
    let mut out = Vec::new(alloc);
    'each: for oct in octs {
        out.push(run_of(oct, top, bottom))?;
    }
    Ok(out)
}
