//! Octagons that lie upon each other, joined into fewer octagons with the same points.
//! The layer above uses `stacks`, and `stacked` where it asks which stack a piece is put to; `join` makes one octagon of two.
//! Octagons are in units of the grid (2 nm). x grows to the right and y downward.
#![tactic(auto)]

ghost use Rattle.std.specs.Prelude.{◌≡◌, ◌≤◌, length, IfOk};
ghost use Rattle.std.specs.List.{All};
ghost use Rattle.plane.specs.Plane.{IsOct};
ghost use Rattle.stacks.specs.Stacks.{HaveSameUnion, StayThick, StayAround};
ghost use Rattle.stacks.specs.Places.{ArePlaces};

mod joins;
mod piles;
mod reach;

use crate::piles::Piles;
use grid_num::Memory;
pub use joins::join;
use octagon::Oct;
use std::alloc::Global;

/// The stacks of a list of pieces, and for each piece the place of the stack to which it is put.
#[derive(Drop)]
pub struct Stacking {
    pub stacks: Vec<Oct>,
    pub places: Vec<u32>,
}

/// Stacks of the pieces: pieces that make one octagon with a stack of the band above are put to it. They are few where
/// pieces come from the top, band by band and in each from left to right. It also hands out what every piece is.
///
/// # Errors
///
/// Want of memory, which 2^32 stacks or more are taken for.
pub fn stacks(alloc: Global, pieces: &[Oct]) -> Result<Vec<Oct>, Memory>
    ensures points { IfOk result (λ v. HaveSameUnion pieces.now v.items) }
    ensures thick { IfOk result (λ v. StayThick pieces.now v.items) }
    ensures around { IfOk result (λ v. StayAround pieces.now v.items) }
    ensures count { IfOk result (λ v. length v.items ≤ length pieces.now) }
    ensures octs { IfOk result (λ _. All IsOct pieces.now) }
{
    let stacked = stacked(alloc, pieces)?;
    Ok(stacked.stacks)
}

/// The stacks of the pieces, as `stacks` gives them, and which of them each piece is put to.
///
/// # Errors
///
/// Want of memory, which 2^32 stacks or more are taken for.
pub fn stacked(alloc: Global, pieces: &[Oct]) -> Result<Stacking, Memory>
    ensures places { IfOk result (λ s. ArePlaces pieces.now s.stacks.items s.places.items) }
    ensures points { IfOk result (λ s. HaveSameUnion pieces.now s.stacks.items) }
    ensures thick { IfOk result (λ s. StayThick pieces.now s.stacks.items) }
    ensures around { IfOk result (λ s. StayAround pieces.now s.stacks.items) }
    ensures count { IfOk result (λ s. length s.stacks.items ≤ length pieces.now) }
    ensures octs { IfOk result (λ _. All IsOct pieces.now) }
{
    let mut piles = Piles::new(alloc);
    let mut places = Vec::new(alloc);
    'each: for i in 0..pieces.len() {
        let place = piles.put(&pieces[i])?;
        let number = number_of(place)?;
        places.push(number)?;
    }
    let stacks = piles.into_stacks();
    Ok(Stacking { stacks, places })
}

// The place of a stack as a number of 32 bits.
fn number_of(place: usize) -> Result<u32, Memory>
    ensures { IfOk result (λ number. number ≡ place) }
{
    u32::try_from(place).map_err(|_| Memory)
}
