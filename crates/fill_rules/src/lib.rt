//! The rules of the fill: which points a zone's copper takes, given the board and the fills of higher rank; and what hangs
//! together on a filled board.
//! The crates above use the definitions of `specs/` and the laws that the functions here state; nothing here runs.
//! Places and octagons are units of the grid (2 nm), lengths of the board nanometres, cores and radii of copper halves.
#![tactic(auto)]

ghost use Rattle.fill_rules.specs.InWords.{ForeignLaw, UnitsLaw, ItemNeedLaw, ZoneNeedLaw, AnchorsLaw, SpokesLaw, GapLaw, CopperKeptLaw, EdgeKeptLaw, ArcKeptLaw, ZoneKeptLaw};
ghost use Rattle.fill_rules.specs.Clearance.{CoreClearanceLaw, CopperClearanceLaw, EdgeClearanceLaw, ArcClearanceLaw, ZoneClearanceLaw, ReliefLaw};
ghost use Rattle.fill_rules.specs.Edits.{DirectLaw, SettingsLaw};
ghost use Rattle.fill_rules.specs.Rows.{SpokesRow, RankRow, PadNeedRow, TrackNeedRow, EdgeNeedRow, BrushRow, IslandRow, LessIslandRow, ModeRow};
ghost use Rattle.fill_rules.specs.Laws.{NearnessGrowsLaw, ClearLaw, RankingLaw, FrameLaw, KeptLaw, ComponentLaw, WholeComponentLaw, KeptTogetherLaw, OneIslandSizeLaw, IslandSizeLaw, FillLaw, NoFillLaw, FillFrameLaw, SpokeFrameLaw, ListLaw, OneListOfFillsLaw, NoReachLaw, ReachedLaw, CleanLaw, SameAsBeforeLaw, CopperDistanceLaw};

mod joined;

pub use joined::{cluster_law, label_law, node_law, touch_law};

/// Points that are near at a need are near at a greater one, so what keeps a need keeps each lesser one.
pub fn near_law()
    ensures points { NearnessGrowsLaw }
    ensures clear { ClearLaw }
{}

/// Copper is foreign where the nets differ or there is none. Of the clearances the greatest counts; a distance in units is
/// the least that is no less than the nanometres.
pub fn need_law()
    ensures foreign { ForeignLaw }
    ensures units { UnitsLaw }
    ensures item { ItemNeedLaw }
    ensures zone { ZoneNeedLaw }
{}

/// The anchors of a zone are the copper of its net's solid pads, vias and tracks on the layer; without a net it has none.
pub fn anchors_law()
    ensures { AnchorsLaw }
{}

/// The four spokes of a pad lead east, south, west and north, and a gap is never nothing.
pub fn spokes_law()
    ensures spokes { SpokesLaw }
    ensures gap { GapLaw }
{}

/// The list of tasks has each task once, in rank order.
pub fn ranking_law()
    ensures { RankingLaw }
{}

/// What an outline covers lies in the outline's frame.
pub fn frame_law()
    ensures { FrameLaw }
{}

/// Kept centres are allowed. A component has allowed centres alone, and each one that is linked to it; it is kept or left
/// out as a whole.
pub fn component_law()
    ensures kept { KeptLaw }
    ensures allowed { ComponentLaw }
    ensures whole { WholeComponentLaw }
    ensures together { KeptTogetherLaw }
{}

/// The grid points of a component have one number, and this tells whether the component's area lets it stay.
pub fn island_law()
    ensures one { OneIslandSizeLaw }
    ensures size { IslandSizeLaw }
{}

/// Each fill meets the rules over the fills above it, and past the last rank there is none; it lies in the frame of its outline, and so do its live spokes.
pub fn fill_law()
    ensures rules { FillLaw }
    ensures none { NoFillLaw }
    ensures frame { FillFrameLaw }
    ensures spokes { SpokeFrameLaw }
{}

/// Lists that meet the rules one after another cover the fills, so there is at most one list of fills.
pub fn list_law()
    ensures fills { ListLaw }
    ensures one { OneListOfFillsLaw }
{}

/// A higher task that does not reach a task changes nothing in its fill; a task reaches only what ranks below it on its layer,
/// for a foreign zone.
pub fn reach_law()
    ensures fill { NoReachLaw }
    ensures reached { ReachedLaw }
{}

/// A task that no edit dirties, directly or from a task above it whose pieces changed, is made of the same centres and
/// spokes as before, and then it has the fill that it had.
pub fn clean_law()
    ensures made { CleanLaw }
    ensures fill { SameAsBeforeLaw }
{}

/// A task is untouched that no track or via which came or went comes near to, at the need and whatever the nets; and, where a
/// zone's settings changed, that is of another zone and reached by none of its tasks, before or after.
pub fn direct_law()
    ensures copper { DirectLaw }
    ensures settings { SettingsLaw }
{}

/// What is not near, at a need, to any point of the copper round a place is at least the need and the copper's radius away from
/// the place.
pub fn distance_law()
    ensures { CopperDistanceLaw }
{}

/// Each point of a fill keeps the need from each point of foreign copper, of holes and of pads that are not to be joined, of
/// the board's edge, and of the fills of foreign zones above it.
pub fn clearance_law()
    ensures copper { CopperKeptLaw }
    ensures edge { EdgeKeptLaw }
    ensures arc { ArcKeptLaw }
    ensures zones { ZoneKeptLaw }
{}

/// In nanometres, before any rounding: each point of a fill is at least the clearance and the radius away from each point of the
/// core of foreign copper, of holes and of pads that are not to be joined, so at least the clearance from that copper; at least
/// the edge clearance from straight board edges and the discs on arcs' chords; and fills of foreign zones on one layer
/// are at least the clearance apart.
pub fn clearance_in_nanometres()
    ensures core { CoreClearanceLaw }
    ensures copper { CopperClearanceLaw }
    ensures edge { EdgeClearanceLaw }
    ensures arc { ArcClearanceLaw }
    ensures zones { ZoneClearanceLaw }
{}

/// Copper of a fill that isn't in a spoke is at least the thermal gap away from the copper of each pad that is joined by spokes.
pub fn relief_law()
    ensures { ReliefLaw }
{}

/// What the rules give for boards that are worked by hand.
pub fn rows()
    ensures spokes { SpokesRow }
    ensures rank { RankRow }
    ensures pad { PadNeedRow }
    ensures track { TrackNeedRow }
    ensures edge { EdgeNeedRow }
    ensures brush { BrushRow }
    ensures island { IslandRow }
    ensures less_island { LessIslandRow }
    ensures modes { ModeRow }
{}
