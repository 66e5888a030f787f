//! Which tasks a list of edits dirties: those that an edit dirties directly, and those that changed fills reach.
//! The layer above uses the definitions of `specs/` and the laws that the functions here state; nothing here runs.
//! Tasks are told by zone and layer, ranks are those on one board, lengths of the board are nanometres.
#![tactic(auto)]

ghost use Rattle.dirty_rules.specs.Laws.{FirstRuleLaw, SecondRuleLaw, LeastSetLaw, ClearanceLaw, PriorityLaw, TrackLaw, ViaLaw, DropTrackLaw, DropViaLaw};

/// The dirty set of a list of edits has what its two rules say, and nothing else.
pub fn dirty_law()
    ensures first { FirstRuleLaw }
    ensures second { SecondRuleLaw }
    ensures least { LeastSetLaw }
{}

/// A task that a zone's new clearance or priority doesn't dirty directly is untouched: its settings stay, what is near its
/// frame stays, and so do the tasks that reach it.
pub fn untouched_law()
    ensures clearance { ClearanceLaw }
    ensures priority { PriorityLaw }
{}

/// A task that a track or via which comes or goes doesn't dirty directly is untouched, where the boards are the same but
/// for the track or via.
pub fn copper_law()
    ensures track { TrackLaw }
    ensures via { ViaLaw }
    ensures drop_track { DropTrackLaw }
    ensures drop_via { DropViaLaw }
{}
