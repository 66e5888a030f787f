//! How an accepted edit changes the value of a board: a track or via more, one less, or another priority or clearance of a zone,
//! and all else the same but for places in the file.
//! The crates above use the definitions of `specs/` and the laws that the functions here state; nothing here runs.
#![tactic(auto)]

ghost use Rattle.edit_changes.specs.Laws.{ChangeLaw, TrackAddedLaw, ViaAddedLaw, TrackDroppedLaw, ViaDroppedLaw, PrioritySetLaw, ClearanceSetLaw, LeftAloneLaw};

/// An accepted edit leads from the board of the old text to that of the new one: a new track or via stands behind all others,
/// one that is dropped is gone, and of a zone the priority or the clearance is the one that the edit names.
pub fn change_law()
    ensures { ChangeLaw }
{}

/// Boards of which one has a track or via more are the same but for that.
pub fn added_law()
    ensures track { TrackAddedLaw }
    ensures via { ViaAddedLaw }
{}

/// And so are boards of which one has a track or via less.
pub fn dropped_law()
    ensures track { TrackDroppedLaw }
    ensures via { ViaDroppedLaw }
{}

/// Boards of which a zone's priority or clearance is changed are the same but for the priority, or for the settings, of that
/// zone.
pub fn setting_law()
    ensures priority { PrioritySetLaw }
    ensures clearance { ClearanceSetLaw }
{}

/// A task that an accepted edit doesn't dirty directly is untouched by it.
pub fn left_alone_law()
    ensures { LeftAloneLaw }
{}
