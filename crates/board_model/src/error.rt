// Why a board is refused.
use board_language::Offence;
use grid_num::Memory;
use thiserror::Error;

/// Why a board isn't read.
#[derive(Clone, Copy, Debug, PartialEq, Eq, Error)]
pub enum BoardError {
    /// Want of memory.
    #[error("out of memory")]
    Memory,
    /// An item offends.
    #[error("the board is refused")]
    Bad(Offence),
}

impl From<Memory> for BoardError {
    ghost use Rattle.std.specs.Prelude.{◌≡◌};
    ghost use Rattle.board_model.specs.declared.error.BoardError.TheVariants.{Memory};

    ghost from_gives = { λ _ e. e ≡ Memory };

    fn from(_: Memory) -> Self {
        BoardError::Memory
    }
}
