// Octagons of what an outline covers, and of what it leaves of a frame.
ghost use Rattle.std.specs.Prelude.{◌≡◌, ◌++◌, pos, ◌+ℤ◌, ◌-ℤ◌, IfOk};
ghost use Rattle.std.specs.List.{All};
ghost use Rattle.plane.specs.Plane.{Bounds, IsOct, box_of};
ghost use Rattle.plane.specs.Narrow.{IsNearZero};
ghost use Rattle.octagon.specs.Bounded.{bounds_of};
ghost use Rattle.plane.specs.Covering.{Covers, StrictlyCovers, edges_of};
ghost use Rattle.plane.specs.Corners.{box_corners};
ghost use Rattle.slabs.specs.Outside.{IsFrame, IsAtMost, IsOutside};
ghost use Rattle.outline_slab.specs.Cuts.{all_edges, IsWithinHalfMetre, HaveJust};
ghost use Rattle.outline_slab.specs.Filled.{AreFilling, IsLeftOver};

use crate::Outline;
use crate::side::{Side, edge_at};
use crate::slab_octs::covered_octs;
use grid_num::{Memory, Point};
use octagon::Oct;
use std::alloc::Global;

impl Outline {
    /// Octagons of just the points of the plane that the outline covers, its edges counted in. Each point off the edges
    /// lies in one that isn't flat.
    pub fn inner(&self, alloc: Global) -> Result<Vec<Oct>, Memory>
        ensures points { IfOk result (λ v. HaveJust v.items (Covers (edges_of self.now))) }
        ensures filling { IfOk result (λ v. AreFilling v.items (StrictlyCovers (edges_of self.now))) }
        ensures octs { IfOk result (λ v. All IsOct v.items) }
    {
        let sides = with_sides(self.vertices.as_slice(), Vec::new(alloc))?;
        covered_octs(alloc, &sides)
    }

    /// The least rectangle that has the outline inside, off its rim: it is one unit wider than the outline on each side.
    pub fn wide_frame(&self) -> Oct
        ensures frame { IsFrame self.now result }
        ensures least { (b : Bounds) → IsFrame self.now b → IsAtMost result b }
        ensures oct { IsOct result }
    {
        let frame = self.frame();
        match Oct::of_bounds(rim_round(&frame).bounds()) {
            Some(wide) => wide,
            None => frame,
        }
    }

    /// Octagons of just the points of the frame, a rectangle round the outline, that the outline doesn't cover, the
    /// outline's edges counted in. Each point off these edges lies in one that isn't flat.
    pub fn outer(&self, alloc: Global, frame: &Oct) -> Result<Vec<Oct>, Memory>
        requires { IsFrame self.now frame.now }
        ensures points { IfOk result (λ v. HaveJust v.items (IsOutside (edges_of self.now) frame.now)) }
        ensures filling { IfOk result (λ v. AreFilling v.items (IsLeftOver (edges_of self.now) frame.now)) }
        ensures octs { IfOk result (λ v. All IsOct v.items) }
    {
        let sides = with_sides(self.vertices.as_slice(), Vec::new(alloc))?;
        let sides = with_sides(&corners_of(frame), sides)?;
        covered_octs(alloc, &sides)
    }
}

// The four sides of a rectangle.
#[derive(Clone, Copy)]
struct Rim {
    left: i64,
    right: i64,
    top: i64,
    bottom: i64,
}

// One unit round an octagon on each side.
fn rim_round(frame: &Oct) -> Rim
    requires { IsWithinHalfMetre frame.now }
    ensures left { result.left ≡ frame.now.x0 -ℤ pos 1 }
    ensures right { result.right ≡ frame.now.x1 +ℤ pos 1 }
    ensures top { result.top ≡ frame.now.y0 -ℤ pos 1 }
    ensures bottom { result.bottom ≡ frame.now.y1 +ℤ pos 1 }
{
    Rim {
        left: frame.x0() - 1,
        right: frame.x1() + 1,
        top: frame.y0() - 1,
        bottom: frame.y1() + 1,
    }
}

impl Rim {
    // The bounds of the rectangle as an octagon.
    fn bounds(self) -> [i64; 8]
        requires x { IsNearZero 250000001 self.left × IsNearZero 250000001 self.right }
        requires y { IsNearZero 250000001 self.top × IsNearZero 250000001 self.bottom }
        ensures { bounds_of result ≡ box_of self.left self.right self.top self.bottom }
    {
        [
            self.left,
            self.right,
            self.top,
            self.bottom,
            self.left + self.top,
            self.right + self.bottom,
            self.left - self.bottom,
            self.right - self.top,
        ]
    }
}

// The sides with those of a closed chain.
fn with_sides(corners: &[Point], sides: Vec<Side>) -> Result<Vec<Side>, Memory>
    ensures { IfOk result (λ v. all_edges v.items ≡ all_edges sides.items ++ edges_of corners.now) }
{
    let mut sides = sides;
    'each: for i in 0..corners.len() {
        sides.push(edge_at(corners, i))?;
    }
    Ok(sides)
}

// The corners of a rectangle, clockwise from the upper left.
fn corners_of(frame: &Oct) -> [Point; 4]
    ensures corners { result ≡ box_corners frame.now.x0 frame.now.x1 frame.now.y0 frame.now.y1 }
    ensures oct { IsOct frame.now }
{
    [
        Point {
            x: frame.x0(),
            y: frame.y0(),
        },
        Point {
            x: frame.x1(),
            y: frame.y0(),
        },
        Point {
            x: frame.x1(),
            y: frame.y1(),
        },
        Point {
            x: frame.x0(),
            y: frame.y1(),
        },
    ]
}
