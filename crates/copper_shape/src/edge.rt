// Board edges, and the hulls of segments and of the discs on the chords of arcs.
ghost use Rattle.std.specs.Prelude.{◌≡◌, ℕ, ◌*◌, ◌^◌, ◌≤◌, ◌<◌, ◌+ℤ◌, false, true, IfOk};
ghost use Rattle.std.specs.List.{All};
ghost use Rattle.plane.specs.Plane.{PlanePoint};
ghost use Rattle.octagon.specs.Room.{IsAround};
ghost use Rattle.touching.specs.Core.{OnLine};
ghost use Rattle.hulls.specs.Hulls.{chord_of, edge_core, edge_radius, edge_hulls_of, in_halves, corner};
ghost use Rattle.hulls.specs.Laws.{InSome, InChordDisc, nm_in_units};
ghost use Rattle.cores.specs.Room.{IsInRoom, spot};

use crate::Shape;
use grid_num::{Memory, Point};
use octagon::Oct;
use std::alloc::Global;

/// A part of the board's outline, in nanometres.
#[derive(Clone, Copy, PartialEq, Eq, Debug, Drop)]
pub struct Edge {
    pub from: Point,
    pub to: Point,
    /// Whether it is an arc, given by its chord; else it is the segment.
    pub bow: bool,
}

/// The hulls of a board edge: octagons that hold every point of the segment, or of the disc on an arc's chord. Refuses
/// for want of memory alone.
pub fn edge_hulls(alloc: Global, edge: &Edge) -> Result<Vec<Oct>, Memory>
    requires from { IsInRoom 500000000 edge.now.from }
    requires to { IsInRoom 500000000 edge.now.to }
    ensures value { IfOk result (λ hulls. hulls.items ≡ edge_hulls_of edge.now.from edge.now.to edge.now.bow) }
    ensures segment { IfOk result (λ hulls. edge.now.bow ≡ false → (p : PlanePoint)
        → OnLine (spot edge.now.from) (spot edge.now.to) p → InSome hulls.items (nm_in_units p)) }
    ensures disc { IfOk result (λ hulls. edge.now.bow ≡ true → (p : PlanePoint)
        → InChordDisc edge.now.from edge.now.to p → InSome hulls.items (nm_in_units p)) }
    ensures reach { IfOk result (λ hulls. All (IsAround 1000000000) hulls.items) }
{
    copper_of(edge).hulls(alloc)
}

// The copper that stands for the edge: its segment without a radius, or the disc on the chord.
fn copper_of(edge: &Edge) -> Shape
    requires from { IsInRoom 500000000 edge.now.from }
    requires to { IsInRoom 500000000 edge.now.to }
    ensures core { result.core ≡ edge_core edge.now.from edge.now.to edge.now.bow }
    ensures radius { result.radius ≡ edge_radius edge.now.from edge.now.to edge.now.bow }
{
    if edge.bow {
        Shape::disc(middle(edge.from, edge.to), chord(edge.from, edge.to))
    } else {
        Shape::capsule(doubled(edge.from), doubled(edge.to), 0)
    }
}

// The point half way between the two, in halves.
fn middle(from: Point, to: Point) -> Point
    requires from { IsInRoom 500000000 from }
    requires to { IsInRoom 500000000 to }
    ensures x { result.x ≡ from.x +ℤ to.x }
    ensures y { result.y ≡ from.y +ℤ to.y }
    ensures within { IsInRoom 2000000000 result }
{
    Point {
        x: from.x + to.x,
        y: from.y + to.y,
    }
}

// Nanometres as halves.
fn doubled(p: Point) -> Point
    requires { IsInRoom 500000000 p }
    ensures value { result ≡ corner (in_halves p) }
    ensures within { IsInRoom 2000000000 result }
{
    Point {
        x: p.x + p.x,
        y: p.y + p.y,
    }
}

// The distance of the points, rounded up.
fn chord(from: Point, to: Point) -> u32
    requires from { IsInRoom 500000000 from }
    requires to { IsInRoom 500000000 to }
    ensures value { result ≡ chord_of from to }
    ensures most { result ≤ 2000000000 }
{
    let width = to.x.abs_diff(from.x);
    let height = to.y.abs_diff(from.y);
    up_root(width * width + height * height) as u32
}

// The least number whose square is at least that.
fn up_root(square: u64) -> u64
    requires { square < 2 ^ 62 }
    ensures reaches { square ≤ result * result }
    ensures least { (m : ℕ) → square ≤ m * m → result ≤ m }
{
    let root = square.isqrt();
    if root * root == square {
        root
    } else {
        root + 1
    }
}
