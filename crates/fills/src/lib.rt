//! A fill as it is handed on: the list of its pieces, and which part each piece belongs to.
//! The layer above uses `Task` and `Fill`, the definition `IsFillOf` of `specs/`, and the laws that functions here state.
//! Pieces are octagons in units of the grid (2 nm).
#![tactic(auto)]

ghost use Rattle.fills.specs.Laws.{OneFillLaw, SameFillLaw, FillPointsLaw, AllFillsLaw, FillSpokesLaw, FillPartsLaw};
ghost use Rattle.fills.specs.Thick.{ThickLaw};
ghost use Rattle.fills.specs.Rows.{PiecesRow};

use octagon::Oct;
use std::marker::Model;

/// A zone together with one of its copper layers.
#[derive(Clone, Copy, PartialEq, Eq, Debug)]
pub struct Task {
    /// The place of the zone among the board's zones.
    pub zone: u32,
    /// The layer's place among the board's copper layers.
    pub layer: u8,
}

/// The copper of a task. Contracts see it as the record of its lists.
#[derive(Debug, Drop)]
pub struct Fill {
    pub task: Task,
    /// The octagons that the copper is the union of, in units, with the spokes at the end.
    pub pieces: Vec<Oct>,
    /// How many of the pieces are spokes.
    pub spokes: u32,
    /// For each piece the place of the first piece of its part, which is what hangs together with it.
    pub parts: Vec<u32>,
}

impl Model for Fill {
    ghost use Rattle.fill_rules.specs.Made.{Made};
    ghost use Rattle.fills.specs.Fills.{task_of};

    ghost Value = { Made };

    ghost view = { λ f. record { task = task_of f.task; pieces = f.pieces.items; spokes = f.spokes; parts = f.parts.items } };
}

/// A task has at most one fill, whatever the program that makes it.
pub fn one_fill_law()
    ensures { OneFillLaw }
{}

/// A task that has the same kept centres and live spokes on two boards has the same pieces there, in the same order and
/// parts.
pub fn same_fill_law()
    ensures { SameFillLaw }
{}

/// A point is on one of the pieces exactly where the rules of the fill put copper; so the fills of all tasks are lists that
/// meet the rules one after another.
pub fn fill_points_law()
    ensures points { FillPointsLaw }
    ensures all { AllFillsLaw }
{}

/// The last pieces of a fill are its spokes: all that are live and meet the kept copper, and no others.
pub fn spokes_law()
    ensures { FillSpokesLaw }
{}

/// Two pieces have the same number in `parts` exactly where they hang together, and no number is past the piece's own place.
pub fn parts_law()
    ensures { FillPartsLaw }
{}

/// No copper of a fill is too thin: each piece is a union of octagons that hold a disc as wide as the zone's least thickness.
pub fn thick_law()
    ensures { ThickLaw }
{}

/// What the definitions give for three rows of centres that are worked by hand.
pub fn rows()
    ensures { PiecesRow }
{}
