// Pads: each is tried after what was read before it, and then read.
ghost use Rattle.std.specs.Prelude.{◌≡◌, ◌+◌, ◌<◌, Bool, OnOk, IfOk, None};
ghost use Rattle.board_text.specs.Things as things;
ghost use Rattle.board_text.specs.Items.{line_of};
ghost use Rattle.board_language.specs.Pads.{pad_of};
ghost use Rattle.board_language.specs.Offences as offences;
ghost use Rattle.board_items.specs.Known.{context};
ghost use Rattle.board_model.specs.Steps.{kind_by, after_as, put, kept};

use crate::reading::{ReadSoFar, has_few};
use board_items::Known;
use board_language::{OffenceKind, Pad};
use board_pads::{ReadFootprint, is_read_pad, pad_kind, pad_of};
use board_text::Part;
use grid_num::Memory;
use std::alloc::Global;

/// The pad that is read of an item, of a board with few layers.
fn pad_kept(
    alloc: Global,
    known: &Known,
    footprint: &ReadFootprint<'_, '_>,
    pad: &Part<'_>,
    line: u64,
) -> Result<Option<Pad>, Memory>
    requires same { footprint.now.bytes ≡ pad.now.bytes }
    requires line { line ≡ line_of pad.now.bytes pad.now.item.from }
    requires sound { (many : Bool) × (offences.pad_kind (context pad.now.bytes known.now) footprint.now.item pad.now.item many ≡ None) }
    ensures { IfOk result (λ p. p ≡ kept (context pad.now.bytes known.now) (pad_of (context pad.now.bytes known.now) footprint.now.item pad.now.item)) }
{
    if has_few(known) {
        Ok(Some(pad_of(alloc, known, footprint, pad, line)?))
    } else {
        Ok(None)
    }
}

impl ReadSoFar {
    /// Counts a pad, and puts it behind the others.
    fn add_pad(&mut self, pad: Option<Pad>) -> Result<(), Memory>
        requires room { self.old.things < 200000 }
        ensures { OnOk result (self.new ≡ record self.old { things = self.old.things + 1; pads = put self.old.pads pad }) }
    {
        self.things += 1;
        if let Some(pad) = pad {
            self.pads.push(pad)?;
        }
        Ok(())
    }

    /// Tries a pad of a footprint, and reads it where nothing offends: the answer is its first offence.
    ///
    /// # Errors
    ///
    /// Want of memory.
    pub fn pad(
        &mut self,
        alloc: Global,
        known: &Known,
        footprint: &ReadFootprint<'_, '_>,
        pad: &Part<'_>,
        line: u64,
    ) -> Result<Option<OffenceKind>, Memory>
        requires same { footprint.now.bytes ≡ pad.now.bytes }
        requires line { line ≡ line_of pad.now.bytes pad.now.item.from }
        ensures kind { IfOk result (λ k. k ≡ kind_by (context pad.now.bytes known.now) self.old pad.now.item None (things.Pad footprint.now.item)) }
        ensures after { IfOk result (λ k. k ≡ None → self.new ≡ after_as (context pad.now.bytes known.now) self.old pad.now.item (things.Pad footprint.now.item)) }
    {
        if !is_read_pad(alloc, known, pad)? {
            return Ok(None);
        }
        let kind = pad_kind(alloc, known, footprint, pad, self.is_over(1, 0))?;
        if kind.is_none() {
            let pad = pad_kept(alloc, known, footprint, pad, line)?;
            self.add_pad(pad)?;
        }
        Ok(kind)
    }
}
