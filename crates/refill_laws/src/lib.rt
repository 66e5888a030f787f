//! That a refill which fills again only what edits dirtied gives the fills of the edited board.
//! The crates above use the definitions of `specs/` and the laws that the functions here state; nothing here runs.
//! Tasks are told by zone and layer, ranks are those on one board.
#![tactic(auto)]

ghost use Rattle.refill_laws.specs.Laws.{RanksLaw, OneRankLaw, FoundLaw, ZonesLaw, EditLaw, ChainLaw, ChainRanksLaw, SameLaw, RenamedLaw, NextFlagsLaw, NoEditLaw, SnocLaw, FlagsLaw, KeepLaw, NextFillLaw, AllFillsLaw, WalkLaw, StayLaw, RefillLaw, AgainLaw, DirtySetLaw, SameDirtyLaw, CountLaw, DirtyCountLaw, OneCountLaw, BrokenWalkLaw};
ghost use Rattle.refill_laws.specs.StepLaws.{StartLaw, KeptStepLaw, MadeStepLaw, EndTellsLaw, EndChangedLaw, EndCountLaw, EndDirtyLaw, SomeRanksLaw, EarlyCountLaw};

/// Each task of an edited board has one rank on the board before, and what the edit doesn't dirty is untouched.
pub fn undirtied_law()
    ensures ranks { RanksLaw }
    ensures one { OneRankLaw }
    ensures found { FoundLaw }
    ensures zones { ZonesLaw }
    ensures untouched { EditLaw }
{}

/// What is untouched by one edit and by the next is untouched by both, and so each task is that no flag was set for.
pub fn chain_law()
    ensures untouched { ChainLaw }
    ensures ranks { ChainRanksLaw }
    ensures same { SameLaw }
    ensures renamed { RenamedLaw }
    ensures flags { NextFlagsLaw }
{}

/// A list with one more edit dirties what the list does, and what the last edit does.
pub fn snoc_law()
    ensures none { NoEditLaw }
    ensures more { SnocLaw }
    ensures flags { FlagsLaw }
{}

/// A task that is untouched, and that tasks with the pieces that they had reach, keeps its fill. So a list of fills that were
/// kept in this way, or made on the edited board, has the fills of the edited board.
pub fn walk_law()
    ensures keep { KeepLaw }
    ensures next { NextFillLaw }
    ensures all { AllFillsLaw }
    ensures walk { WalkLaw }
{}

/// A task that isn't flagged, and that no changed fill reaches, may keep its fill. So where these keep theirs, and all others are
/// filled again, the fills are those of the edited board.
pub fn refill_law()
    ensures stay { StayLaw }
    ensures refill { RefillLaw }
{}

/// The tasks that are filled again, as they are flagged or reached by one that was filled again and changed, are exactly the
/// dirty set.
pub fn again_law()
    ensures flags { AgainLaw }
    ensures edits { DirtySetLaw }
    ensures same { SameDirtyLaw }
{}

/// So they are as many as the dirty set has tasks, and no more where the walk is broken off.
pub fn count_law()
    ensures count { CountLaw }
    ensures edits { DirtyCountLaw }
    ensures one { OneCountLaw }
    ensures broken { BrokenWalkLaw }
{}

/// A walk, step by step: from its first tasks to one more, which keeps its fill or gets one on the edited board.
pub fn step_law()
    ensures start { StartLaw }
    ensures kept { KeptStepLaw }
    ensures made { MadeStepLaw }
{}

/// At its end a walk tells whose fill changed, and has filled as many tasks again as the dirty set has; before its end, no more.
pub fn end_law()
    ensures tells { EndTellsLaw }
    ensures changed { EndChangedLaw }
    ensures some { SomeRanksLaw }
    ensures count { EndCountLaw }
    ensures dirty { EndDirtyLaw }
    ensures early { EarlyCountLaw }
{}
