// What a board says of a stamp, for the layers above: the contract of a function that does nothing.
ghost use Rattle.board_model.specs.Laws.{StampLaw};

/// What a board that was read says of a stamp is what `board_language` says of it.
pub fn stamp_law()
    ensures { StampLaw }
{}
