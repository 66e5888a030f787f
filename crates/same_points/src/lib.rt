//! Lists of strips that have the same points have the same loops, the same rings and the same area, whichever rows their
//! strips are cut at: definitions with their laws.
//! The crates above use the laws that the functions here state; nothing here runs.
//! A coordinate is a nanometre, or what its user names.
#![tactic(auto)]

ghost use Rattle.same_points.specs.Laws.{CutOrderLaw, CutPointsLaw, CutBoundaryLaw, CutDrawnLaw, SameListLaw, SameOutlinesLaw, SameCoverLaw, SameDrawnLaw};

/// Strips in order that are cut at one more row stay in order, and keep their points and their boundary, cut at that row;
/// so they keep their area, their loops and their rings.
pub fn cut_law()
    ensures order { CutOrderLaw }
    ensures points { CutPointsLaw }
    ensures boundary { CutBoundaryLaw }
    ensures drawn { CutDrawnLaw }
{}

/// Two lists that have the same points off some rows are one list once they are cut at these and at all rows of both. So
/// they have the same points in these rows, too; and lists that cover the same octagons have the same points.
pub fn one_list_law()
    ensures list { SameListLaw }
    ensures points { SameOutlinesLaw }
    ensures cover { SameCoverLaw }
{}

/// Two lists that have the same points have the same area, the same loops and the same rings.
pub fn same_law()
    ensures { SameDrawnLaw }
{}
