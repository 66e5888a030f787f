//! What lies strictly inside: where brushes, rectangles and other bounds enter octagons or overlap them, points that keep
//! off edges, grid points that are linked by the brush, and the first points of cells: definitions with their laws.
//! The crates above use the definitions of `specs/` and the laws that the functions here state; nothing here runs.
//! A coordinate is a unit of the grid (2 nm). x grows to the right and y downward.
#![tactic(auto)]

ghost use Rattle.open_laws.specs.Laws.{OpenBrushLaw, OpenLaw, OpenBoxLaw, OffEdgesLaw, BesideLaw, CellLaw, FirstsLaw};

/// A brush at a grid point enters a tight octagon exactly where the grid point is strictly within the octagon plus the
/// brush; where the octagon has an inside, the two overlap exactly there.
pub fn open_brush_law()
    ensures { OpenBrushLaw }
{}

/// Bounds that have an inside are entered exactly where they are overlapped.
pub fn open_law()
    ensures { OpenLaw }
{}

/// A rectangle enters a tight octagon exactly where the octagon of the rectangle's inner grid points is near it at 1; where
/// it has none, the same in half the unit, or it enters nothing.
pub fn open_box_law()
    ensures { OpenBoxLaw }
{}

/// Bounds with a point strictly inside have one that lies on none of finitely many edges; so do several bounds that have
/// a common point strictly inside, in common.
pub fn off_edges_law()
    ensures one { OffEdgesLaw }
    ensures beside { BesideLaw }
{}

/// Two grid points of one octagon are linked by grid points of it whose brushes meet. The left end of a cell's top row
/// comes before all other points of the cell and of the cells after it: least y, then least x.
pub fn cell_law()
    ensures linked { CellLaw }
    ensures first { FirstsLaw }
{}
