// What holds of boards that are read, for the layers above. It is the contract of a function that does nothing.
ghost use Rattle.board_edit.specs.Laws.{BoardLaw};

/// A board that is read of a text is the one that `edit_language` takes for the board of that text, under the board's rules.
pub fn board_law()
    ensures { BoardLaw }
{}
