// Why the fills of a text aren't read.
use grid_num::Memory;
use thiserror::Error;

/// Why the fills of a text aren't read.
#[derive(Clone, Copy, Debug, PartialEq, Eq, Error)]
pub enum FillsError {
    /// Want of memory.
    #[error("out of memory")]
    Memory,
    /// A fill can't be read: its list begins at this byte of the text.
    #[error("a fill can't be read")]
    Bad { at: usize },
}

impl From<Memory> for FillsError {
    ghost use Rattle.std.specs.Prelude.{◌≡◌};
    ghost use Rattle.fill_text.specs.declared.error.FillsError.TheVariants.{Memory};

    ghost from_gives = { λ _ e. e ≡ Memory };

    fn from(_: Memory) -> Self {
        FillsError::Memory
    }
}
