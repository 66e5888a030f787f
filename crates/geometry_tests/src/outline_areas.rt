// Outlines of twenty thousand vertices: how many octagons are inside and outside.
ghost use Rattle.std.specs.Prelude.{IfOk};
ghost use Rattle.std.specs.List.{All};
ghost use Rattle.outline_slab.specs.Rules.{IsInSpan};

use grid_num::{Memory, Point};
use outline_slab::Outline;
use std::alloc::Global;
use std::test::Fail;

fn with(points: Vec<Point>, p: Point) -> Result<Vec<Point>, Memory>
    requires points { All IsInSpan points.items }
    requires p { IsInSpan p }
    ensures { IfOk result (λ v. All IsInSpan v.items) }
{
    let mut points = points;
    points.push(p)?;
    Ok(points)
}

fn at(x: u16, y: u16) -> Point
    ensures { IsInSpan result }
{
    Point {
        x: x as i64 * 5000,
        y: y as i64 * 5000,
    }
}

// A comb of 5,000 tall teeth on a back.
fn comb(alloc: Global) -> Result<Vec<Point>, Memory>
    ensures { IfOk result (λ v. All IsInSpan v.items) }
{
    let mut points = Vec::new(alloc);
    points = with(points, at(60000, 40000))?;
    points = with(points, at(0, 40000))?;
    'tooth: for k in 0..5000u16 {
        points = with(points, at(12 * k, 30000))?;
        points = with(points, at(12 * k, 0))?;
        points = with(points, at(12 * k + 6, 0))?;
        points = with(points, at(12 * k + 6, 30000))?;
    }
    points = with(points, at(60000, 30000))?;
    Ok(points)
}

// A staircase of 10,000 steps.
fn staircase(alloc: Global) -> Result<Vec<Point>, Memory>
    ensures { IfOk result (λ v. All IsInSpan v.items) }
{
    let mut points = Vec::new(alloc);
    points = with(points, at(0, 60000))?;
    'step: for k in 0..10000u16 {
        points = with(points, at(6 * k, 6 * k))?;
        points = with(points, at(6 * k + 6, 6 * k))?;
    }
    points = with(points, at(60000, 60000))?;
    Ok(points)
}

// One octagon for each two cuts of a slab, and one for each level side: so memory follows the slabs.
#[test]
fn a_comb_has_two_slabs(rt: HostRuntime) -> Result<(), Fail> {
    let a = rt.alloc();
    let outline = Outline::make(a, &comb(a)?).ok().ok_or("an outline")?;
    // a slab with 5,000 teeth and one with the back; 5,000 tips, 5,000 ways to the next tooth or to the end, the bottom
    assert_eq!(rt; outline.inner(a)?.len(), 5000 + 1 + 5000 + 5000 + 1);
    // above the comb 1, between the teeth and the sides 5,001, beside the back 2, below it 1; its level sides, and two
    // of the frame
    assert_eq!(rt;
        outline.outer(a, &outline.wide_frame())?.len(),
        1 + 5001 + 2 + 1 + 10001 + 2
    );
    Ok(())
}

#[test]
fn a_staircase_has_a_slab_for_each_step(rt: HostRuntime) -> Result<(), Fail> {
    let a = rt.alloc();
    let outline = Outline::make(a, &staircase(a)?).ok().ok_or("an outline")?;
    // 10,000 slabs, 10,000 treads, the bottom
    assert_eq!(rt; outline.inner(a)?.len(), 10000 + 10000 + 1);
    // one above, two in each slab, one below; the level sides, and two of the frame
    assert_eq!(rt;
        outline.outer(a, &outline.wide_frame())?.len(),
        1 + 20000 + 1 + 10001 + 2
    );
    Ok(())
}
