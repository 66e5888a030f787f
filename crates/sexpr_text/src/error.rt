// Why a text is refused.
ghost use Rattle.std.specs.Prelude.{◌≡◌};
ghost use Rattle.sexpr_text.specs.declared.error.TextError.TheVariants.{Memory};

use std::alloc::{AllocError, AllocFailed};
use thiserror::Error;

/// What is wrong at the place of a text's fault. Of several kinds that fit, the first one here counts.
#[derive(Clone, Copy, Debug, PartialEq, Eq, Error)]
pub enum TextKind {
    /// The input ends, and no list has begun.
    #[error("the input is empty")]
    Empty,
    /// The input ends inside a string.
    #[error("a string has no end")]
    BadString,
    /// The input ends inside a list and outside a string.
    #[error("a list has no end")]
    Unclosed,
    /// A `)` stands before the list.
    #[error("a parenthesis closes nothing")]
    StrayClose,
    /// Another byte than white space, `(` and `)` stands before the list.
    #[error("the text is no list")]
    NotList,
    /// A byte other than white space stands after the list.
    #[error("something stands after the list")]
    After,
    /// The 65th open parenthesis.
    #[error("the lists are too deep")]
    TooDeep,
    /// The byte can't continue the UTF-8 of a list.
    #[error("the text is not UTF-8")]
    BadUtf8,
}

/// A text's fault: the length of the longest prefix that begins some text, and what is wrong there.
#[derive(Clone, Copy, Debug, PartialEq, Eq, Error)]
#[error("{kind} at byte {at}")]
pub struct TextFault {
    pub at: usize,
    pub kind: TextKind,
}

/// Why there is no tree of a text.
#[derive(Clone, Copy, Debug, PartialEq, Eq, Error)]
pub enum TextError {
    /// Want of memory, or a text of 4 GiB or more.
    #[error("out of memory")]
    Memory,
    /// The text spells no tree.
    #[error("{0}")]
    Bad(TextFault),
}

impl From<AllocError> for TextError {
    ghost from_gives = { λ _ e. e ≡ Memory };

    fn from(_: AllocError) -> Self {
        TextError::Memory
    }
}

impl<T: Drop> From<AllocFailed<T>> for TextError {
    ghost from_gives = { λ _ e. e ≡ Memory };

    fn from(_: AllocFailed<T>) -> Self {
        TextError::Memory
    }
}
