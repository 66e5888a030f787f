// Loops, rings and outlines as values. Contracts see a ring as the list of its corners, a loop and outlines as records of lists.
use grid_num::Point;
use std::marker::Model;

/// A loop along the boundary of a sheet: around copper, or around a hole in it.
#[derive(Debug, Drop)]
pub struct Loop {
    /// The corners in nanometres, in their order along the loop: copper is on its right. It begins at the least corner, by y
    /// and then by x, and leaves out those that are passed straight.
    pub corners: Vec<Point>,
    /// Whether it goes around a hole.
    pub hole: bool,
}

impl Model for Loop {
    ghost use Rattle.rings.specs.Loops as defined;

    ghost Value = { defined.Loop };

    ghost view = { λ a. record { corners = a.corners.items; hole = a.hole } };
}

/// A ring of a sheet: along a loop around copper, and by slits along the holes in it.
#[derive(Debug, Drop)]
pub struct Ring {
    /// The corners in nanometres, in their order along the ring: copper is on its right. It begins at the least corner, by y
    /// and then by x; where that comes twice, so that the list is least. Corners that are passed straight are left out.
    pub corners: Vec<Point>,
}

impl Model for Ring {
    ghost use Rattle.std.specs.Prelude.{List};
    ghost use Rattle.grid_num.specs.declared.Point.{Point};

    ghost Value = { List Point };

    ghost view = { λ a. a.corners.items };
}

/// The outlines of a sheet.
#[derive(Debug, Drop)]
pub struct Traced {
    /// The rings, by their lists of corners.
    pub rings: Vec<Ring>,
    /// Twice the area in square nanometres.
    pub area2: u128,
}

impl Model for Traced {
    ghost use Rattle.rings.specs.Rings as defined;

    ghost Value = { defined.Traced };

    ghost view = { λ a. record { rings = a.rings.items; area2 = a.area2 } };
}
