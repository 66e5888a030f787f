// What every board here is read with, and why one isn't.
use board_language::Rules;
use board_model::BoardError;
use grid_num::Memory;
use sexpr_text::TextError;
use std::alloc::AllocError;

/// A clearance of 0.2 mm everywhere, and one of 0.5 mm to the board's edge.
pub const RULES: Rules = Rules {
    floor: 200_000,
    edge: 500_000,
};

/// Why nothing is printed.
pub enum Stop {
    Memory,
    /// It is no text, or something offends in its board.
    Refused,
}

impl From<Memory> for Stop {
    fn from(_: Memory) -> Self {
        Stop::Memory
    }
}

impl From<AllocError> for Stop {
    fn from(_: AllocError) -> Self {
        Stop::Memory
    }
}

impl From<TextError> for Stop {
    fn from(error: TextError) -> Self {
        match error {
            TextError::Memory => Stop::Memory,
            TextError::Bad(_) => Stop::Refused,
        }
    }
}

impl From<BoardError> for Stop {
    fn from(error: BoardError) -> Self {
        match error {
            BoardError::Memory => Stop::Memory,
            BoardError::Bad(_) => Stop::Refused,
        }
    }
}
