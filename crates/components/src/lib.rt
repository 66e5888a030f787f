//! The components of a task's allowed centres, which of them are kept, and the pieces of a task's fill, told by cells and
//! labels. The layer above makes fills by the laws that the functions here state; nothing here runs.
//! A cell is an octagon of allowed centres, in units of the grid (2 nm); its piece is what the brush covers at them.
#![tactic(auto)]

ghost use Rattle.components.specs.Laws.{CentresLaw, ComponentsLaw, FirstLaw, AnchoredLaw, PartPointsLaw, SparedCountLaw, CentreKeptLaw};
ghost use Rattle.components.specs.PieceLaws.{MeetsLaw, KeptMeetsLaw, KeptCellsLaw, CountedLaw, PiecesLaw, CellsFillLaw};

/// The allowed centres are the grid points of the cells, and two of them are in one component exactly where the pieces of
/// their cells hang together. So cells whose pieces have one label are a component.
pub fn components_law()
    ensures centres { CentresLaw }
    ensures same { ComponentsLaw }
{}

/// A component begins, by least y, then least x, at the top left point of the cell whose number its pieces have as their
/// label.
pub fn first_law()
    ensures { FirstLaw }
{}

/// A component is anchored exactly where its part of the pieces is held by the live spokes and the copper of the anchors.
pub fn anchored_law()
    ensures { AnchoredLaw }
{}

/// The grid points that the brush takes at a component's centres are those of its pieces, so one number counts both, and
/// tells whether the component is large enough to stay.
pub fn size_law()
    ensures points { PartPointsLaw }
    ensures count { SparedCountLaw }
{}

/// An allowed centre is kept exactly where its cell is: all centres of a cell are kept, or none is.
pub fn kept_law()
    ensures { CentreKeptLaw }
{}

/// An octagon meets the brush at some allowed centre exactly where it meets the piece of a cell, and the brush at some kept
/// centre exactly where it meets the piece of a cell that is kept.
pub fn meets_law()
    ensures allowed { MeetsLaw }
    ensures kept { KeptMeetsLaw }
{}

/// The grid points of the cells that are kept are the kept centres. Their bands anew, each cell plus the brush, and then the
/// live spokes that meet a kept piece, in their order, are the pieces of the task; with the parts that these make they are
/// its fill.
pub fn pieces_law()
    ensures centres { KeptCellsLaw }
    ensures spokes { CountedLaw }
    ensures pieces { PiecesLaw }
    ensures fill { CellsFillLaw }
{}
