//! What edges cover, slab by slab: the rows of all corners cut the plane into slabs, which the edges pass in order.
//! The crates above use the definitions of `specs/` and the laws that the functions here state; nothing here runs.
//! A coordinate has the unit that its user names.
#![tactic(auto)]

ghost use Rattle.slabs.specs.Slabs.{SlabsLaw, PairsLaw, MoreRowsLaw, ChainLaw, ClosedTogetherLaw};
ghost use Rattle.slabs.specs.Inner.Cutting.{BeginLaw, StepLaw, EndLaw, TurnedCutsLaw, MoreCutsLaw, LevelCutsLaw, AmidLaw};
ghost use Rattle.slabs.specs.Outside.{OutsideLaw, FramedLaw};

/// Closed edges cover just what lies between the cuts of pairs, and their level edges: in each slab between the first
/// cut and the second one, between the third and the fourth, ..
pub fn slabs_law()
    ensures { SlabsLaw }
{}

/// The two cuts of a pair pass the same slab, and the first is nowhere right of the second.
pub fn pairs_law()
    ensures { PairsLaw }
{}

/// A chain of octilinear edges is closed, if its edges meet in rows alone; so are two lists of closed edges that don't
/// touch each other, and more rows don't matter.
pub fn closed_law()
    ensures chain { ChainLaw }
    ensures together { ClosedTogetherLaw }
    ensures rows { MoreRowsLaw }
{}

/// The cuts of an edge, from its top to its bottom, in either direction.
pub fn cut_law()
    ensures begin { BeginLaw }
    ensures step { StepLaw }
    ensures end { EndLaw }
    ensures turned { TurnedCutsLaw }
{}

/// The cuts of a list of edges, edge by edge.
pub fn cuts_law()
    ensures more { MoreCutsLaw }
    ensures level { LevelCutsLaw }
{}

/// The octagon round the ends of two cuts of a slab has just the points from the one to the other.
pub fn amid_law()
    ensures { AmidLaw }
{}

/// A chain and a rectangle round it, counted together, cover what the chain leaves of the rectangle.
pub fn outside_law()
    ensures covers { OutsideLaw }
    ensures closed { FramedLaw }
{}
