//! Octagons that are asked which of them meet another one, without trying each.
//! The layer above uses `Bins`, which stands for the list of octagons that it was made of, and what `meeting` says of that list.
//! Octagons are in units of the grid (2 nm); an octagon is named by its place in the list.
#![tactic(auto)]

ghost use Rattle.std.specs.Prelude.{◌≡◌, [], IfOk, OnOk, OnErr};
ghost use Rattle.bins.specs.Meeting.{AreThoseMeeting};

mod block;
mod frame;
mod walk;

use crate::block::{Block, blocks_of};
use crate::walk::walk;
use grid_num::Memory;
use octagon::Oct;
use std::alloc::Global;
use std::marker::Model;

/// A list of octagons, with rectangles round runs of them, and round runs of these: where an octagon misses a rectangle, it misses
/// all that is in it. Contracts see the list. It serves well where octagons that are near each other stand near each other in
/// the list.
#[derive(Drop)]
pub struct Bins {
    octs: Vec<Oct>,
    blocks: Vec<Block>,
}

impl Model for Bins {
    ghost use Rattle.std.specs.Prelude.{List};
    ghost use Rattle.plane.specs.Plane.{Bounds};
    ghost use Rattle.bins.specs.Inner.Blocks.{AreBlocks};

    ghost Value = { List Bounds };

    ghost view = { λ b. b.octs.items };

    ghost invariant = { λ b. AreBlocks b.octs.items b.blocks.items };
}

impl Bins {
    /// The bins of a list of octagons.
    ///
    /// # Errors
    ///
    /// Want of memory, which 2^32 octagons or more are taken for.
    pub fn of(alloc: Global, octs: &[Oct]) -> Result<Bins, Memory>
        ensures { IfOk result (λ bins. bins ≡ octs.now) }
    {
        let blocks = blocks_of(alloc, octs)?;
        let octs = Vec::from_slice(alloc, octs)?;
        Ok(Bins { octs, blocks })
    }

    /// Replaces what the list holds by the places of exactly the octagons that meet this one, upward and each once. A point
    /// of both edges is enough.
    ///
    /// # Errors
    ///
    /// Want of memory; the list is then empty.
    pub fn meeting(&self, oct: &Oct, into: &mut Vec<u32>) -> Result<(), Memory>
        ensures met { OnOk result (AreThoseMeeting self.now oct.now into.new.items) }
        ensures none { OnErr result (into.new.items ≡ []) }
    {
        into.clear();
        match walk(&self.octs, &self.blocks, oct, into) {
            Ok(()) => Ok(()),
            Err(memory) => {
                into.clear();
                Err(memory)
            }
        }
    }
}
