// The runs of one slab, joined where they touch or overlap.
ghost use Rattle.std.specs.Prelude.{◌≡◌, ◌^◌, ◌++◌, ◌+ℤ◌, IfOk, int_lt};
ghost use Rattle.std.specs.List.{All};
ghost use Rattle.std.specs.List.Sorted.{IsPermutation};
ghost use Rattle.plane.specs.Narrow.{IsNearZero};
ghost use Rattle.strips.specs.Inner.Merge.{joined, merged};
ghost use Rattle.strips.specs.Inner.Sweep.{AreFromLeft};
ghost use Rattle.sheet_union.specs.Near.{IsNearStrip, AddsSlab, StayNear};

use crate::run::runs_of;
use grid_num::Memory;
use octagon::Oct;
use std::alloc::Global;
use strips::Strip;

// Whether the sum of a and b is less than that of c and d.
fn is_less(a: i64, b: i64, c: i64, d: i64) -> bool
    requires a { IsNearZero (2 ^ 45) a }
    requires b { IsNearZero (2 ^ 45) b }
    requires c { IsNearZero (2 ^ 45) c }
    requires d { IsNearZero (2 ^ 45) d }
    ensures { result ≡ int_lt (a +ℤ b) (c +ℤ d) }
{
    a + b < c + d
}

// The run a with the right side of b, where that is further.
fn join(a: Strip, b: Strip) -> Strip
    requires a { IsNearStrip a }
    requires b { IsNearStrip b }
    ensures value { result ≡ joined a b }
    ensures near { IsNearStrip result }
{
    if is_less(a.right, a.right_end, b.right, b.right_end) {
        Strip {
            top: a.top,
            bottom: a.bottom,
            left: a.left,
            left_end: a.left_end,
            right: b.right,
            right_end: b.right_end,
        }
    } else {
        a
    }
}

// Adds the runs of one slab, which are listed from left to right, joined where there is no gap between them.
fn put_merged(out: &mut Vec<Strip>, runs: &[Strip]) -> Result<(), Memory>
    requires { All (λ s. IsNearStrip s) runs.now }
    ensures strips { IfOk result (λ _. out.new.items ≡ out.old.items ++ merged runs.now) }
    ensures near { IfOk result (λ _. StayNear out.old.items out.new.items) }
{
    if runs.is_empty() {
        return Ok(());
    }
    let mut last = runs[0];
    'each: for i in 1..runs.len() {
        let run = runs[i];
        if is_less(last.right, last.right_end, run.left, run.left_end) {
            out.push(last)?;
            last = run;
        } else {
            last = join(last, run);
        }
    }
    out.push(last)?;
    Ok(())
}

// The runs from left to right.
fn from_left(mut runs: Vec<Strip>) -> Result<Vec<Strip>, Memory>
    ensures order { IfOk result (λ v. IsPermutation runs.items v.items) }
    ensures sorted { IfOk result (λ v. AreFromLeft v.items) }
{
    runs.sort_by_key(|run| i128::from(run.left) + i128::from(run.left_end))?;
    Ok(runs)
}

/// Adds the strips between two neighbouring rows, of the octagons that reach across. Refuses for want of memory alone.
pub fn put_slab(
    alloc: Global,
    out: &mut Vec<Strip>,
    octs: &[Oct],
    top: i64,
    bottom: i64,
) -> Result<(), Memory>
    requires top { IsNearZero (2 ^ 43) top }
    requires bottom { IsNearZero (2 ^ 43) bottom }
    ensures slab { IfOk result (λ _. AddsSlab octs.now top bottom out.old.items out.new.items) }
    ensures near { IfOk result (λ _. StayNear out.old.items out.new.items) }
{
    let runs = from_left(runs_of(alloc, octs, top, bottom)?)?;
    put_merged(out, &runs)?;
    Ok(())
}
