//! The strips of a union of octagons, the trapezoids between neighbouring rows of their corners and crossings: definitions with their laws.
//! The layer above uses `Strip`, the definitions of `specs/` and the laws that the functions here state; nothing here runs.
//! A coordinate is a nanometre; octagons are given in nanometres too, so all their bounds are even.
#![tactic(auto)]

ghost use Rattle.strips.specs.Laws.{WholeCrossingLaw, SweepLaw, SameOctsLaw, InsideLaw, OnceLaw};

/// A closed trapezoid between two rows, by the ends of its left and its right side: nanometres, x to the right, y downward.
#[derive(Clone, Copy, PartialEq, Eq, Debug)]
pub struct Strip {
    /// The y of the upper row.
    pub top: i64,
    /// The y of the lower row.
    pub bottom: i64,
    /// The x of the left side in the upper row.
    pub left: i64,
    /// The x of the left side in the lower row.
    pub left_end: i64,
    /// The x of the right side in the upper row.
    pub right: i64,
    /// The x of the right side in the lower row.
    pub right_end: i64,
}

/// Where sides of two octagons cross, the point has whole coordinates in nanometres.
pub fn whole_law()
    ensures { WholeCrossingLaw }
{}

/// A sweep over the rows that cut gives the strips, and they cover exactly the union.
pub fn sweep_law()
    ensures { SweepLaw }
{}

/// Neither the order of the octagons nor an octagon that stands twice matters.
pub fn same_law()
    ensures { SameOctsLaw }
{}

/// A tight octagon has points strictly inside exactly where no two opposite sides lie on each other.
pub fn inside_law()
    ensures { InsideLaw }
{}

/// Octagons have one list of strips.
pub fn once_law()
    ensures { OnceLaw }
{}
