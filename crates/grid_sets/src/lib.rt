//! Finite sets of grid points: their rows, the greedy bands of these rows, the cells of the bands, what a brush covers at
//! the points of a cell, and how many points there are.
//! The crates above use the definitions of `specs/` and the laws that the functions here state; nothing here runs.
//! A coordinate is a unit of the grid (2 nm). x grows to the right and y downward.
#![tactic(auto)]

ghost use Rattle.grid_sets.specs.Brush.{BrushLaw};
ghost use Rattle.grid_sets.specs.Laws.{OneRowsLaw, OneRunsLaw, BandsLaw, CellPointsLaw, CellsApartLaw, CellsTightLaw, CellsBrushLaw, CountLaw};

/// How an end of a run moves from a row to the next one below: by -1, by 0, or by 1.
#[derive(Clone, Copy, PartialEq, Eq, Debug, Drop)]
pub enum Move {
    Left,
    Still,
    Right,
}

/// An end of a run in the first row of a band, and its move from each row to the next.
#[derive(Clone, Copy, PartialEq, Eq, Debug, Drop)]
pub struct End {
    pub place: i64,
    pub go: Move,
}

/// A run through the rows of a band: both its ends in the first row, with their moves.
#[derive(Clone, Copy, PartialEq, Eq, Debug, Drop)]
pub struct Slant {
    pub from: End,
    pub to: End,
}

/// A finite set has one list of rows, and each of its rows one list of runs.
pub fn rows_law()
    ensures rows { OneRowsLaw }
    ensures runs { OneRunsLaw }
{}

/// A list of rows has one list of greedy bands, so a finite set has one list of cells.
pub fn bands_law()
    ensures { BandsLaw }
{}

/// The points of the cells are those of the rows, each in exactly one cell, and each cell is a tight octagon.
pub fn cells_law()
    ensures points { CellPointsLaw }
    ensures apart { CellsApartLaw }
    ensures tight { CellsTightLaw }
{}

/// The points of a tight octagon plus a brush of at least 10 units, at every scale, are exactly those of the brush at
/// the octagon's grid points.
pub fn brush_law()
    ensures { BrushLaw }
{}

/// The points, at every scale, of the cells plus a brush of at least 250 units are those of the brush at the points of
/// the rows.
pub fn cells_brush_law()
    ensures { CellsBrushLaw }
{}

/// A finite set has one number of points.
pub fn count_law()
    ensures { CountLaw }
{}
