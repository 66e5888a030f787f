// What holds of boards and their offences, for the layers above: the contract of a function that does nothing.
ghost use Rattle.board_language.specs.Laws.{OneOffenceLaw, NoOffenceLaw};

/// A board has at most one first offence, and an accepted one has none.
pub fn one_offence_law()
    ensures one { OneOffenceLaw }
    ensures none { NoOffenceLaw }
{}
