// The name of a board.
use std::marker::Brand;

/// What a pool and its tickets are of: one board. There is nothing to call; a name stands for its board in contracts alone,
/// so that a ticket can't be handed to the pool of another board.
pub trait Named {
    ghost use Rattle.board_language.specs.Board.{Board};

    ghost board: { Board };
}

// A caller picks this name for its own board.
impl Named for Brand {
    ghost use Rattle.fill_pool.specs.Inner.Slots.{no_board};

    ghost board = { no_board };
}
