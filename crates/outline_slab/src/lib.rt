//! Outlines: closed chains of corners with edges in the eight directions, that neither touch nor cross themselves.
//! The layer above uses the rules of `specs/` with the first one that is broken, and which points an outline covers.
//! A coordinate is a unit of the grid (2 nm); `Outline::make` takes nanometres.
#![tactic(auto)]

ghost use Rattle.std.specs.Prelude.{◌≡◌};
ghost use Rattle.std.specs.List.{All};
ghost use Rattle.plane.specs.Plane.{Bounds, PlanePoint, Within, In, IsOct};
ghost use Rattle.outline_slab.specs.Rules.{IsSimple, IsPointWithin};
ghost use Rattle.outline_slab.specs.Cuts.{IsWithinHalfMetre};

mod covers;
mod crossing;
mod cuts;
mod error;
mod inside;
pub mod laws;
mod make;
mod rows;
mod side;
mod slab_octs;
mod slab_rows;
mod sweep;

pub use error::{OutlineError, OutlineFault};
use grid_num::Point;
use octagon::Oct;
use std::marker::Model;

/// The outline of a zone or of a rule area. Contracts see it as the list of its vertices, in units of the grid. Edge i
/// runs from vertex i to the next, the last edge to the first vertex.
#[derive(Debug, Drop)]
pub struct Outline {
    vertices: Vec<Point>,
    frame: Oct,
}

impl Model for Outline {
    ghost use Rattle.std.specs.Prelude.{List};
    ghost use Rattle.grid_num.specs.declared.Point.{Point};
    ghost use Rattle.outline_slab.specs.Rules.{IsKeptOutline};
    ghost use Rattle.outline_slab.specs.Inner.Kept.{IsFrameKept};

    ghost Value = { List Point };

    ghost view = { λ a. a.vertices.items };

    ghost invariant = { λ a. IsKeptOutline a.vertices.items × IsFrameKept a.vertices.items a.frame };
}

impl Outline {
    /// The vertices, in units of the grid.
    pub fn vertices(&self) -> &[Point]
        ensures value { result.now ≡ self.now }
        ensures simple { IsSimple self.now }
        ensures within { All (IsPointWithin 250000000) self.now }
    {
        self.vertices.as_slice()
    }

    /// The tight octagon of the vertices. Each other octagon that holds them contains it.
    pub fn frame(&self) -> Oct
        ensures holds { All (λ q. Within result q.x q.y) self.now }
        ensures least { (b : Bounds) (p : PlanePoint) → All (λ q. Within b q.x q.y) self.now → In result p → In b p }
        ensures oct { IsOct result }
        ensures near { IsWithinHalfMetre result }
    {
        self.frame
    }
}
