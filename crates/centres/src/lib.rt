//! Where the brush of a task may stand, and which spokes fit and are clear, in octagons and grid points that a
//! program can compute with. The layer above uses the definitions of `specs/` and the laws here; nothing here runs.
//! Octagons and grid points are units of the grid (2 nm).
#![tactic(auto)]

ghost use Rattle.centres.specs.Laws.{FitsLaw, WallsLaw, FrameHeldLaw, HomeLaw, LiesInLaw, ClearByLaw, RealNeedsLaw, AllowedLaw, GrownLaw, LiveLaw, SpokeLaw, EnteredLaw};

/// Copper fits exactly where it enters no wall: then all that is strictly inside it is covered by the zone's outline
/// and strictly inside no rule area on the layer.
pub fn fits_law()
    ensures { FitsLaw }
{}

/// The octagons outside a zone's outline and in the rule areas on its layer, without the flat ones, are walls. They
/// are found one outline after another. A frame of the outline holds the octagon round it.
pub fn walls_law()
    ensures walls { WallsLaw }
    ensures frame { FrameHeldLaw }
{}

/// The brush lies in an octagon exactly where its centre lies in the octagon, shrunk by the brush. What is tight lies
/// in an octagon exactly where its bounds do.
pub fn home_law()
    ensures home { HomeLaw }
    ensures bounds { LiesInLaw }
{}

/// A task keeps away from the fills of lesser ranks, so needs that tell what is clear of them tell what is clear. All of
/// them are at least one unit, from tight octagons.
pub fn clear_law()
    ensures lesser { ClearByLaw }
    ensures real { RealNeedsLaw }
{}

/// The brush may stand at a grid point exactly where it lies in the frame of its task, and the grid point is strictly
/// within no wall grown by the brush, and in no octagon grown by its need and the brush.
pub fn allowed_law()
    ensures allowed { AllowedLaw }
    ensures list { GrownLaw }
{}

/// A spoke fits and is clear exactly where it lies in the frame of its task, enters no wall and keeps all needs. It
/// is 500 units wide at least, and enters a wall exactly where the octagon of its inner grid points is near it at 1.
pub fn live_law()
    ensures live { LiveLaw }
    ensures spoke { SpokeLaw }
    ensures entered { EnteredLaw }
{}
