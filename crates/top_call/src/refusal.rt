// Why a text has no board that can be filled.
use board_model::{BoardError, Offence};
use grid_num::Memory;
use sexpr_text::{TextError, TextFault};

/// Why a text isn't filled.
#[derive(Clone, Copy, Debug, PartialEq, Eq)]
pub enum Refusal {
    /// Want of memory.
    Memory,
    /// It is no text, by this fault.
    BadText(TextFault),
    /// Its board has an offence; this is the first.
    Refused(Offence),
}

impl From<TextError> for Refusal {
    ghost use Rattle.top_call.specs.Refusals.{IsRefusalOf};

    ghost from_gives = { IsRefusalOf };

    fn from(error: TextError) -> Self {
        match error {
            TextError::Memory => Refusal::Memory,
            TextError::Bad(fault) => Refusal::BadText(fault),
        }
    }
}

impl From<BoardError> for Refusal {
    ghost use Rattle.top_call.specs.Refusals.{IsOfBoard};

    ghost from_gives = { IsOfBoard };

    fn from(error: BoardError) -> Self {
        match error {
            BoardError::Memory => Refusal::Memory,
            BoardError::Bad(offence) => Refusal::Refused(offence),
        }
    }
}
