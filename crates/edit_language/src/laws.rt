// Laws of edits, for the layers above. Each is the contract of a function that does nothing.
ghost use Rattle.edit_language.specs.Laws.{LineEndLaw, LineLaw, WordEndLaw, WordLaw, NoWordLaw, EditsLaw, FaultLaw, SomeScriptLaw, OneScriptLaw, WrittenLaw};
ghost use Rattle.edit_language.specs.FoldLaws.{OneRootLaw, SpliceTextLaw, OneEditLaw, OneFoldLaw, IndexLaw};
ghost use Rattle.board_language.specs.Laws.{OneOffenceLaw, NoOffenceLaw};
ghost use Rattle.edit_language.specs.Rows.{ScriptRows, LengthRows, SpliceRows, RefusalRows};
ghost use Rattle.edit_language.specs.SpellLaws.{SpellLaw};
ghost use Rattle.edit_language.specs.StampLaws.{TrackStampLaw, ViaStampLaw, ZoneStampLaw, BearerLaw, NoBearerLaw, OneBearerLaw};

/// A line feed ends a line, and nothing else does.
pub fn line_law()
    ensures end { LineEndLaw }
    ensures line { LineLaw }
{}

/// Each blank parts words, and nothing else does; between two blanks there is no word.
pub fn word_law()
    ensures end { WordEndLaw }
    ensures word { WordLaw }
    ensures none { NoWordLaw }
{}

/// A script has its edits or its first fault, one of the two and just one.
pub fn script_law()
    ensures edits { EditsLaw }
    ensures fault { FaultLaw }
    ensures some { SomeScriptLaw }
    ensures one { OneScriptLaw }
{}

/// A board's text has one root, and a board at most one first offence; an accepted one has none.
pub fn offence_law()
    ensures root { OneRootLaw }
    ensures one { OneOffenceLaw }
    ensures none { NoOffenceLaw }
{}

/// An edit makes the text of its splice and no other, or is refused for one thing; and so a list of edits, which stops at
/// one edit at most.
pub fn edited_law()
    ensures splice { SpliceTextLaw }
    ensures edit { OneEditLaw }
    ensures fold { OneFoldLaw }
    ensures index { IndexLaw }
{}

/// A stamp stands for the track, via or zone of its number in the board's list, which is read of the item that has the
/// stamp; and for nothing where no item has it. In an accepted board no two items have one stamp.
pub fn stamp_law()
    ensures track { TrackStampLaw }
    ensures via { ViaStampLaw }
    ensures zone { ZoneStampLaw }
    ensures some { BearerLaw }
    ensures none { NoBearerLaw }
    ensures one { OneBearerLaw }
{}

/// What an edit makes of a list is one list again, so an edited text is never refused as a text: only its board may be.
pub fn spell_law()
    ensures { SpellLaw }
{}

/// An edit that some line of a script gives has lengths of at most 500 mm, whole numbers below 2 to the 32nd, and names of
/// the form of names.
pub fn written_law()
    ensures { WrittenLaw }
{}

/// What some scripts say, what some edits put into a text, and which are refused for their stamps, worked by hand.
pub fn rows()
    ensures scripts { ScriptRows }
    ensures length { LengthRows }
    ensures splices { SpliceRows }
    ensures refusals { RefusalRows }
{}
