// Corners in nanometres, tried against the rules of outlines.
ghost use Rattle.std.specs.Prelude.{◌≡◌, ◌<◌, ◌≤◌, ◌↔◌, pos, ◌+ℤ◌, ◌-ℤ◌, ◌≤ℤ◌, length, map, IsTrue, IfOk, IfErr, MatchOption};
ghost use Rattle.std.specs.List.{All};
ghost use Rattle.plane.specs.Narrow.{IsNearZero};
ghost use Rattle.plane.specs.Covering.{edges_of};
ghost use Rattle.plane.specs.Units.{finer};
ghost use Rattle.grid_num.specs.declared.Point.{Point as point};
ghost use Rattle.outline_slab.specs.Rules.{IsInSpan, IsPointWithin, IsEven, IsOnGrid, IsSide, IsOutline};
ghost use Rattle.outline_slab.specs.Faults.{IsFirstOff, IsCause};

use crate::Outline;
use crate::error::{OutlineError, OutlineFault};
use crate::side::{both, side_at};
use crate::sweep::least_pair;
use grid_num::{Memory, Point};
use octagon::Oct;
use std::alloc::Global;

impl Outline {
    /// The outline of the vertices, which are given in nanometres; its last edge closes it. It is refused exactly where
    /// a rule of outlines is broken, with the first such rule.
    pub fn make(alloc: Global, vertices: &[Point]) -> Result<Outline, OutlineError>
        requires { All IsInSpan vertices.now }
        ensures ok { IfOk result (λ o. IsOutline vertices.now × (map (finer 2) o ≡ vertices.now)) }
        ensures err { IfErr result (IsCause vertices.now) }
    {
        if vertices.len() < 3 {
            return Err(OutlineError::Bad(OutlineFault::Short));
        }
        if let Some(index) = first_off_grid(vertices) {
            return Err(OutlineError::Bad(OutlineFault::OffGrid { index }));
        }
        if let Some(index) = first_off_angle(vertices) {
            return Err(OutlineError::Bad(OutlineFault::OffAngle { index }));
        }
        if let Some((first, second)) = least_pair(alloc, vertices)? {
            return Err(OutlineError::Bad(OutlineFault::Crossing { first, second }));
        }
        let units = all_halved(alloc, vertices)?;
        let frame = Oct::of_points(units.as_slice());
        Ok(Outline {
            vertices: units,
            frame,
        })
    }
}

// The first vertex with an odd coordinate.
fn first_off_grid(vertices: &[Point]) -> Option<usize>
    requires { All IsInSpan vertices.now }
    ensures { MatchOption result (All IsOnGrid vertices.now) (IsFirstOff point IsOnGrid vertices.now) }
{
    'each: for (i, vertex) in vertices.iter().enumerate() {
        if !is_on_grid(*vertex) {
            return Some(i);
        }
    }
    None
}

// The first edge without length, or off a multiple of 45 degrees.
fn first_off_angle(vertices: &[Point]) -> Option<usize>
    requires { All IsInSpan vertices.now }
    ensures { MatchOption result (All IsSide (edges_of vertices.now)) (IsFirstOff _ IsSide (edges_of vertices.now)) }
{
    'each: for i in 0..vertices.len() {
        if !side_at(vertices, i).is_right() {
            return Some(i);
        }
    }
    None
}

// Whether both coordinates are even.
fn is_on_grid(p: Point) -> bool
    requires { IsInSpan p }
    ensures { IsTrue result ↔ IsOnGrid p }
{
    both(is_even(p.x), is_even(p.y))
}

fn is_even(z: i64) -> bool
    requires { IsNearZero 500000000 z }
    ensures { IsTrue result ↔ IsEven z }
{
    let half = half(z);
    half + half == z
}

// Half of it, an odd number rounded.
fn half(z: i64) -> i64
    ensures low { (z -ℤ pos 1) ≤ℤ (result +ℤ result) }
    ensures high { (result +ℤ result) ≤ℤ (z +ℤ pos 1) }
{
    z / 2
}

// Nanometres as units of 2 nm.
fn halved(p: Point) -> Point
    requires { IsOnGrid p }
    ensures { finer 2 result ≡ p }
{
    Point {
        x: half(p.x),
        y: half(p.y),
    }
}

fn all_halved(alloc: Global, vertices: &[Point]) -> Result<Vec<Point>, Memory>
    requires { All IsOnGrid vertices.now }
    ensures { IfOk result (λ v. map (finer 2) v.items ≡ vertices.now) }
{
    let mut units = Vec::with_capacity(alloc, vertices.len())?;
    'each: for vertex in vertices {
        units.push(halved(*vertex))?;
    }
    Ok(units)
}
