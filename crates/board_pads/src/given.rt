// A footprint, with what it says for its pads: this is read once, however many pads it has.
ghost use Rattle.std.specs.Prelude.{◌≡◌, codes, map, IfOk};
ghost use Rattle.grid_num.specs.Length.{IsInRange};
ghost use Rattle.sexpr_text.specs.Parts.{part_of};
ghost use Rattle.board_text.specs.Lists.{lists_of};
ghost use Rattle.board_text.specs.Items.{point_in};
ghost use Rattle.board_language.specs.Pads.{own_join, own_length, turns_in};

use crate::angle::turns_in;
use crate::join::{own_join, own_length};
use board_language::Join;
use board_text::Part;
use grid_num::{Memory, Point};
use std::alloc::Global;
use std::marker::Model;

/// A footprint, with its place and angle, and how its pads are joined that don't say so themselves. Contracts see the
/// footprint as an item with the bytes of its text.
#[derive(Drop)]
pub struct ReadFootprint<'p, 'a> {
    part: &'p Part<'a>,
    at: Point,
    turns: u64,
    clearance: Option<u32>,
    join: Option<Join>,
    gap: Option<u32>,
    bridge: Option<u32>,
}

impl<'p, 'a> Model for ReadFootprint<'p, 'a> {
    ghost use Rattle.sexpr_text.specs.Parts.{Part};
    ghost use Rattle.board_text.specs.Codes.{part_code};

    ghost Value = { Part };

    ghost coded = { part_code };

    ghost use Rattle.board_pads.specs.Given.{IsGiven};

    ghost view = { λ f. f.part.now };

    ghost invariant = { λ f. IsGiven f.part.now f.at f.turns f.clearance f.join f.gap f.bridge };
}

impl<'p, 'a> ReadFootprint<'p, 'a> {
    /// What a footprint says for its pads.
    ///
    /// # Errors
    ///
    /// Want of memory.
    pub fn of(alloc: Global, footprint: &'p Part<'a>) -> Result<ReadFootprint<'p, 'a>, Memory>
        ensures { IfOk result (λ read. read ≡ footprint.now) }
    {
        Ok(ReadFootprint {
            part: footprint,
            at: footprint.point_in(alloc, b"at")?,
            turns: turns_in(alloc, footprint)?,
            clearance: own_length(alloc, footprint, b"clearance")?,
            join: own_join(alloc, footprint)?,
            gap: own_length(alloc, footprint, b"thermal_gap")?,
            bridge: own_length(alloc, footprint, b"thermal_width")?,
        })
    }

    /// Its child lists, in order.
    ///
    /// # Errors
    ///
    /// Want of memory.
    pub fn lists(&self, alloc: Global) -> Result<Vec<Part<'a>>, Memory>
        ensures { IfOk result (λ v. v.items ≡ map (part_of self.now.bytes) (lists_of self.now.item)) }
    {
        self.part.lists(alloc)
    }

    /// Its place, in nanometres.
    pub fn at(&self) -> Point
        ensures value { result ≡ point_in self.now.bytes (codes "at") self.now.item }
        ensures x { IsInRange result.x }
        ensures y { IsInRange result.y }
    {
        self.at
    }

    /// How often it is turned by a quarter.
    pub fn turns(&self) -> u64
        ensures { result ≡ turns_in self.now.bytes self.now.item }
    {
        self.turns
    }

    /// Its clearance, for pads that give none.
    pub fn clearance(&self) -> Option<u32>
        ensures { result ≡ own_length self.now.bytes (codes "clearance") self.now.item }
    {
        self.clearance
    }

    /// How it joins its pads, for those that don't say so.
    pub fn join(&self) -> Option<Join>
        ensures { result ≡ own_join self.now.bytes self.now.item }
    {
        self.join
    }

    /// Its gap of thermal reliefs, for pads that give none.
    pub fn gap(&self) -> Option<u32>
        ensures { result ≡ own_length self.now.bytes (codes "thermal_gap") self.now.item }
    {
        self.gap
    }

    /// Its width of bridges, for pads that give none.
    pub fn bridge(&self) -> Option<u32>
        ensures { result ≡ own_length self.now.bytes (codes "thermal_width") self.now.item }
    {
        self.bridge
    }
}
