// Why no session is opened.
use board_model::{BoardError, Offence};
use grid_num::Memory;
use sexpr_text::{TextError, TextFault};
use thiserror::Error;

/// Why no session is opened over a text.
#[derive(Clone, Copy, Debug, PartialEq, Eq, Error)]
pub enum OpenError {
    /// Want of memory.
    #[error("out of memory")]
    Memory,
    /// It is no text, by this fault.
    #[error("the text is refused")]
    Text(TextFault),
    /// Its board has an offence; this is the first.
    #[error("the board is refused")]
    Board(Offence),
}

impl From<Memory> for OpenError {
    ghost use Rattle.std.specs.Prelude.{◌≡◌};
    ghost use Rattle.refill.specs.declared.error.OpenError.TheVariants.{Memory};

    ghost from_gives = { λ _ e. e ≡ Memory };

    fn from(_: Memory) -> Self {
        OpenError::Memory
    }
}

impl From<TextError> for OpenError {
    ghost use Rattle.refill.specs.Errors.{IsErrorOfText};

    ghost from_gives = { IsErrorOfText };

    fn from(error: TextError) -> Self {
        match error {
            TextError::Memory => OpenError::Memory,
            TextError::Bad(fault) => OpenError::Text(fault),
        }
    }
}

impl From<BoardError> for OpenError {
    ghost use Rattle.refill.specs.Errors.{IsErrorOfBoard};

    ghost from_gives = { IsErrorOfBoard };

    fn from(error: BoardError) -> Self {
        match error {
            BoardError::Memory => OpenError::Memory,
            BoardError::Bad(offence) => OpenError::Board(offence),
        }
    }
}
