//! Cores of copper: areas and lines, and whether two of them are within reach of one another, decided exactly.
//! The layer above uses the value of each maker (a core as a set of points) and `is_within`, which speaks of all points.
//! A coordinate is half a nanometre; `dist_sq` serves any unit.
#![tactic(auto)]

ghost use Rattle.std.specs.Prelude.{◌≡◌, ◌↔◌, ◌≤◌, ◌*◌, ◌≤ℤ◌, IsTrue};
ghost use Rattle.plane.specs.Plane.{times, box_of};
ghost use Rattle.touching.specs.Core.{area, line, IsWhole, Touches};
ghost use Rattle.cores.specs.Room.{IsInRoom, IsCoreInRoom, spot};
ghost use Rattle.cores.specs.Kinds.{core_of};

mod area;
mod close;
mod corners;
mod distance;
mod kind;
mod line;
mod number;
mod sides;
mod steps;

use crate::close::{are_close, is_in_room};
pub use area::AreaBounds;
pub use distance::dist_sq;
use grid_num::Point;
pub use kind::{Kind, Line};
use octagon::Oct;
use std::marker::Model;

/// The middle of a piece of copper, with all its points: a point, a box, an octagon, or the straight way between two
/// places. Contracts see it as the area of its bounds, which are tight, or as the line of its ends.
#[derive(Clone, Copy, PartialEq, Eq, Debug)]
pub struct Core {
    kind: Kind,
}

impl Model for Core {
    ghost use Rattle.touching.specs.Core.{Core};

    ghost Value = { Core };

    ghost use Rattle.std.proofs.Common.{ap};
    ghost use Rattle.touching.specs.Core.{IsWhole};
    ghost use Rattle.cores.specs.Kinds.{core_of, core_kind, kind_again};

    ghost view = { λ a. core_of a.kind };

    ghost invariant = { λ a. IsWhole (core_of a.kind) };

    ghost inverse = { λ c. record { kind = core_kind c } };

    ghost inverse_ok = { λ a h. ap (λ k. record { kind = k }) (kind_again a.kind) };
}

impl Core {
    /// The straight way from one place to another, which may be the same.
    pub fn segment(from: Point, to: Point) -> Core
        ensures { result ≡ line (spot from) (spot to) }
    {
        Core {
            kind: Kind::Line(Line { from, to }),
        }
    }

    /// One place.
    pub fn point(at: Point) -> Core
        requires { IsInRoom 2000000000 at }
        ensures { result ≡ area (box_of at.x at.x at.y at.y) }
    {
        Core::rectangle(at, at)
    }

    /// The upright rectangle between two corners, of which the first is the least in x and in y.
    pub fn rectangle(least: Point, greatest: Point) -> Core
        requires least { IsInRoom 2000000000 least }
        requires greatest { IsInRoom 2000000000 greatest }
        requires across { least.x ≤ℤ greatest.x }
        requires along { least.y ≤ℤ greatest.y }
        ensures { result ≡ area (box_of least.x greatest.x least.y greatest.y) }
    {
        Core {
            kind: Kind::Area(AreaBounds::rectangle(least, greatest)),
        }
    }

    /// An octagon that is given in units of the grid, in halves: 4 to the unit.
    pub fn of_oct(oct: &Oct) -> Core
        ensures { result ≡ area (times 4 oct.now) }
    {
        Core {
            kind: Kind::Area(AreaBounds::of_oct(oct)),
        }
    }

    /// The bounds, or the ends.
    pub fn kind(&self) -> Kind
        ensures value { core_of result ≡ self.now }
        ensures whole { IsWhole self.now }
    {
        self.kind
    }

    /// Whether all coordinates lie within 1,200,000,000 of 0, as `is_within` asks.
    pub fn has_room(&self) -> bool
        ensures { IsTrue result ↔ IsCoreInRoom 1200000000 self.now }
    {
        let kind = self.kind();
        is_in_room(&kind)
    }

    /// Whether some point of this core is at most the reach away from some point of the other. A distance of just the
    /// reach counts. Copper of two cores touches where they are within the sum of its radii.
    pub fn is_within(&self, other: &Core, reach: u32) -> bool
        requires room { IsCoreInRoom 1200000000 self.now }
        requires other_room { IsCoreInRoom 1200000000 other.now }
        requires reach { reach ≤ 400000000 }
        ensures { IsTrue result ↔ Touches reach self.now other.now }
    {
        let first = self.kind();
        let second = other.kind();
        are_close(square(reach), &first, &second)
    }
}

// The square of a reach.
fn square(reach: u32) -> u64
    requires { reach ≤ 400000000 }
    ensures value { result ≡ reach * reach }
    ensures high { result ≤ 160000000000000000 }
{
    reach as u64 * reach as u64
}
