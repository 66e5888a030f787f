// Why corners are refused as an outline.
ghost use Rattle.std.specs.Prelude.{◌≡◌};
ghost use Rattle.outline_slab.specs.declared.error.OutlineError.TheVariants.{Memory};

use std::alloc::{AllocError, AllocFailed};
use thiserror::Error;

/// The first rule of outlines that is broken. The rules are tried in this order.
#[derive(Clone, Copy, Debug, PartialEq, Eq, Error)]
pub enum OutlineFault {
    /// There are fewer than three vertices.
    #[error("fewer than three vertices")]
    Short,
    /// The first vertex with an odd coordinate.
    #[error("vertex {index} has an odd coordinate")]
    OffGrid { index: usize },
    /// The first edge without length, or off a multiple of 45 degrees. Edge i runs from vertex i to the next.
    #[error("edge {index} is off a multiple of 45 degrees")]
    OffAngle { index: usize },
    /// The least pair of edges that share a point other than the common end of neighbours.
    #[error("edges {first} and {second} share a point")]
    Crossing { first: usize, second: usize },
}

/// Why there is no outline of some vertices.
#[derive(Clone, Copy, Debug, PartialEq, Eq, Error)]
pub enum OutlineError {
    /// Want of memory.
    #[error("out of memory")]
    Memory,
    /// The vertices break a rule of outlines.
    #[error("{0}")]
    Bad(OutlineFault),
}

impl From<grid_num::Memory> for OutlineError {
    ghost from_gives = { λ _ e. e ≡ Memory };

    fn from(_: grid_num::Memory) -> Self {
        OutlineError::Memory
    }
}

impl From<AllocError> for OutlineError {
    ghost from_gives = { λ _ e. e ≡ Memory };

    fn from(_: AllocError) -> Self {
        OutlineError::Memory
    }
}

impl<T: Drop> From<AllocFailed<T>> for OutlineError {
    ghost from_gives = { λ _ e. e ≡ Memory };

    fn from(_: AllocFailed<T>) -> Self {
        OutlineError::Memory
    }
}
