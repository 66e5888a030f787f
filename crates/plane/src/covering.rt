// What closed chains of corners cover, by the even-odd rule, for every point of the plane: the laws.
ghost use Rattle.plane.specs.Units.{FinerBoundsLaw, FinerCoverLaw, StrictFinerCoverLaw, FinerCoverAllLaw};
ghost use Rattle.plane.specs.CoverLaws.{CornersLaw, StrictCornersLaw, RepeatsLaw, StrictRepeatsLaw, ExactCoverLaw, StrictExactCoverLaw, SomeCoverLaw, BoxCoverLaw, StrictBoxCoverLaw, CountsLaw, TurnedLaw, OrderLaw, SlitsLaw, SplitLaw, EndsLaw};

/// The corners of a tight octagon cover exactly its points, and strictly those strictly in it.
pub fn corners_law()
    ensures points { CornersLaw }
    ensures inner { StrictCornersLaw }
{}

/// A closed chain covers, and strictly covers, the same without its repeats.
pub fn repeats_law()
    ensures points { RepeatsLaw }
    ensures inner { StrictRepeatsLaw }
{}

/// The ring of a tight octagon, its corners without repeats, covers exactly its points, and strictly those strictly in it.
pub fn exact_cover_law()
    ensures points { ExactCoverLaw }
    ensures inner { StrictExactCoverLaw }
{}

/// The rings of tight octagons, each for itself, cover exactly the points that are in one of them.
pub fn some_cover_law()
    ensures { SomeCoverLaw }
{}

/// The four corners of a rectangle cover exactly its points, and strictly those strictly in it.
pub fn box_cover_law()
    ensures points { BoxCoverLaw }
    ensures inner { StrictBoxCoverLaw }
{}

/// The counts of two lists of edges add up, and an edge counts the same the other way: both ways change no parity.
pub fn parity_law()
    ensures counts { CountsLaw }
    ensures turned { TurnedLaw }
{}

/// The order of edges, and so that of chains, does not matter.
pub fn cover_order_law()
    ensures { OrderLaw }
{}

/// Edges that are gone both ways do not matter where their points are covered anyway.
pub fn slits_law()
    ensures { SlitsLaw }
{}

/// An edge that is cut at a point of it covers as its two parts do.
pub fn split_law()
    ensures { SplitLaw }
{}

/// Off the edges of a closed chain it does not matter which end of an edge counts.
pub fn ends_law()
    ensures { EndsLaw }
{}

/// A board in a smaller unit has the same places: in an octagon, under a chain, and under chains counted together.
pub fn units_law()
    ensures bounds { FinerBoundsLaw }
    ensures chain { FinerCoverLaw }
    ensures inner { StrictFinerCoverLaw }
    ensures chains { FinerCoverAllLaw }
{}
