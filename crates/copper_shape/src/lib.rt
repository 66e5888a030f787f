//! Shapes of copper: a core and a radius, as pads, tracks and vias have them; what they touch, and their hulls.
//! The layer above uses the stated core and radius, that touching is exact, and that hulls hold all copper.
//! Cores and radii are in halves of a nanometre, hulls in units of the grid (2 nm), board edges in nanometres.
#![tactic(auto)]

ghost use Rattle.std.specs.Prelude.{◌≡◌, ◌+◌, ◌≤◌, ◌↔◌, ℤ, length, IsTrue, IfOk};
ghost use Rattle.std.specs.List.{All};
ghost use Rattle.plane.specs.Plane.{PlanePoint, Within, grid_point};
ghost use Rattle.octagon.specs.Room.{IsAround};
ghost use Rattle.touching.specs.Core.{InCore, InCopper, Touches};
ghost use Rattle.cores.specs.Room.{IsCoreInRoom};
ghost use Rattle.hulls.specs.Cells.{floor_of};
ghost use Rattle.hulls.specs.Hulls.{hulls_of, in_units};
ghost use Rattle.hulls.specs.Laws.{InSome, IsPad};
ghost use Rattle.copper_shape.specs.Shapes.{IsShape};
ghost use Rattle.copper_shape.specs.Laws.{HullReachLaw};

mod area;
mod cells;
mod edge;
mod make;
mod pieces;

pub use cores::dist_sq;
use cores::{Core, Kind};
pub use edge::{Edge, edge_hulls};
use grid_num::Memory;
use octagon::Oct;
use std::alloc::Global;
use std::marker::Model;

/// A piece of copper: all that lies within a radius of a core, both in halves of a nanometre. Contracts see it as the
/// record of both.
#[derive(Clone, Copy, PartialEq, Eq, Debug)]
pub struct Shape {
    core: Core,
    radius: u32,
}

impl Model for Shape {
    ghost use Rattle.copper_shape.specs.Shapes.{Copper, IsShape};

    ghost Value = { Copper };

    ghost view = { λ a. record { core = a.core; radius = a.radius } };

    ghost invariant = { λ a. IsShape (record { core = a.core; radius = a.radius }) };

    ghost inverse = { λ c. record { core = c.core; radius = c.radius } };
}

impl Shape {
    /// The core.
    pub fn core(&self) -> &Core
        ensures value { result.now ≡ self.now.core }
        ensures shape { IsShape self.now }
    {
        &self.core
    }

    /// The radius.
    pub fn radius(&self) -> u32
        ensures value { result ≡ self.now.radius }
        ensures shape { IsShape self.now }
    {
        self.radius
    }

    /// The hulls: octagons that hold every point of the copper. There is one, or one of each piece of a slanted track;
    /// that of a pad holds the pad's centre, rounded down. Refuses for want of memory alone.
    pub fn hulls(&self, alloc: Global) -> Result<Vec<Oct>, Memory>
        ensures value { IfOk result (λ hulls. hulls.items ≡ hulls_of self.now.core self.now.radius) }
        ensures copper { IfOk result (λ hulls. (p : PlanePoint)
            → InCopper self.now.core self.now.radius p → InSome hulls.items (in_units p)) }
        ensures pad { IfOk result (λ hulls. IsPad self.now.core → length hulls.items ≡ 1) }
        ensures centre { IfOk result (λ hulls. IsPad self.now.core → (x y : ℤ) → InCore self.now.core (grid_point x y)
            → All (λ h. Within h (floor_of 4 x) (floor_of 4 y)) hulls.items) }
        ensures reach { IfOk result (λ hulls. All (IsAround 1000000000) hulls.items) }
    {
        hulls_of(alloc, &self.core, self.radius)
    }

    /// Whether some points of the two cores are at most as far apart as both radii together; just as far apart touches,
    /// too. It is exact, by the copper and not by the hulls.
    pub fn touches(&self, other: &Shape) -> bool
        requires room { IsCoreInRoom 1200000000 self.now.core }
        requires other_room { IsCoreInRoom 1200000000 other.now.core }
        requires radius { self.now.radius ≤ 200000000 }
        requires other_radius { other.now.radius ≤ 200000000 }
        ensures { IsTrue result ↔ Touches (self.now.radius + other.now.radius) self.now.core other.now.core }
    {
        self.core.is_within(&other.core, self.radius + other.radius)
    }
}

// The hulls of a core and a radius.
fn hulls_of(alloc: Global, core: &Core, radius: u32) -> Result<Vec<Oct>, Memory>
    requires { IsShape (record { core = core.now; radius = radius }) }
    ensures { IfOk result (λ hulls. hulls.items ≡ hulls_of core.now radius) }
{
    match core.kind() {
        Kind::Line(line) => pieces::segment_hulls(alloc, line.from, line.to, radius),
        Kind::Area(bounds) => area::area_hulls(alloc, &bounds, radius),
    }
}

/// The hulls of a core within m units of 0, with a radius of at most a units, lie within m + a units of 0.
pub fn reach_law()
    ensures { HullReachLaw }
{}
