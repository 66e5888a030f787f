// Zones and rule areas: each is tried after what was read before it, and then read.
ghost use Rattle.std.specs.Prelude.{◌≡◌, ◌+◌, ◌<◌, length, option_map, OnOk, IfOk, None};
ghost use Rattle.board_text.specs.Things as things;
ghost use Rattle.board_text.specs.Items.{line_of};
ghost use Rattle.board_language.specs.Zones.{zone_of, area_of};
ghost use Rattle.board_language.specs.Offences.{stamp_kind};
ghost use Rattle.board_items.specs.Known.{context};
ghost use Rattle.board_text.specs.declared.stamped.Stamped.TheVariants as stamped;
ghost use Rattle.board_zones.specs.Kinds.{IsZoneWithoutOffence, IsAreaWithoutOffence};
ghost use Rattle.board_model.specs.Steps.{IsKindBy, after_as, put, kept, put_stamp};

use crate::reading::{ReadSoFar, has_few};
use board_items::{Known, stamp_in};
use board_language::{Area, OffenceKind, Zone, when};
use board_text::{Part, Stamped};
use board_zones::{area_kind, area_of, is_read_area, is_read_zone, zone_kind, zone_of};
use grid_num::Memory;
use std::alloc::Global;

/// The zone that is read of an item, of a board with few layers.
fn zone_kept(
    alloc: Global,
    known: &Known,
    item: &Part<'_>,
    line: u64,
) -> Result<Option<Zone>, Memory>
    requires line { line ≡ line_of item.now.bytes item.now.item.from }
    requires sound { IsZoneWithoutOffence (context item.now.bytes known.now) item.now.item }
    ensures { IfOk result (λ z. z ≡ kept (context item.now.bytes known.now) (zone_of (context item.now.bytes known.now) item.now.item)) }
{
    if has_few(known) {
        Ok(Some(zone_of(alloc, known, item, line)?))
    } else {
        Ok(None)
    }
}

/// The rule area that is read of an item, of a board with few layers.
fn area_kept(alloc: Global, known: &Known, item: &Part<'_>) -> Result<Option<Area>, Memory>
    requires sound { IsAreaWithoutOffence (context item.now.bytes known.now) item.now.item }
    ensures { IfOk result (λ a. a ≡ kept (context item.now.bytes known.now) (area_of (context item.now.bytes known.now) item.now.item)) }
{
    if has_few(known) {
        Ok(Some(area_of(alloc, known, item)?))
    } else {
        Ok(None)
    }
}

impl ReadSoFar {
    /// Tries a zone or rule area that isn't read: its stamp counts alone.
    fn stamp(&mut self, stamp: Option<Vec<u8>>, double: bool) -> Result<Option<OffenceKind>, Memory>
        ensures kind { IfOk result (λ k. k ≡ stamp_kind double) }
        ensures after { IfOk result (λ k. k ≡ None → self.new ≡ record self.old { stamps = put_stamp self.old.stamps (option_map (λ v. v.items) stamp) stamped.Other }) }
    {
        let kind = when(OffenceKind::DoubleStamp, double);
        if kind.is_none() {
            self.put_stamp(stamp, Stamped::Other)?;
        }
        Ok(kind)
    }

    /// Counts a zone, and puts it and its stamp behind the others.
    fn add_zone(&mut self, zone: Option<Zone>, stamp: Option<Vec<u8>>) -> Result<(), Memory>
        requires things { self.old.things < 200000 }
        requires outlines { self.old.outlines < 2000 }
        ensures { OnOk result (self.new ≡ record self.old { things = self.old.things + 1; outlines = self.old.outlines + 1; stamps = put_stamp self.old.stamps (option_map (λ v. v.items) stamp) (stamped.Zone (length self.old.zones)); zones = put self.old.zones zone }) }
    {
        let place = self.zones.len() as u32;
        self.things += 1;
        self.outlines += 1;
        self.put_stamp(stamp, Stamped::Zone(place))?;
        if let Some(zone) = zone {
            self.zones.push(zone)?;
        }
        Ok(())
    }

    /// Counts a rule area, and puts it and its stamp behind the others.
    fn add_area(&mut self, area: Option<Area>, stamp: Option<Vec<u8>>) -> Result<(), Memory>
        requires outlines { self.old.outlines < 2000 }
        ensures { OnOk result (self.new ≡ record self.old { outlines = self.old.outlines + 1; stamps = put_stamp self.old.stamps (option_map (λ v. v.items) stamp) stamped.Other; areas = put self.old.areas area }) }
    {
        self.outlines += 1;
        self.put_stamp(stamp, Stamped::Other)?;
        if let Some(area) = area {
            self.areas.push(area)?;
        }
        Ok(())
    }

    /// Tries a zone, and reads it where nothing offends: the answer is its first offence.
    ///
    /// # Errors
    ///
    /// Want of memory.
    pub fn zone(
        &mut self,
        alloc: Global,
        known: &Known,
        item: &Part<'_>,
        line: u64,
    ) -> Result<Option<OffenceKind>, Memory>
        requires line { line ≡ line_of item.now.bytes item.now.item.from }
        ensures kind { IfOk result (IsKindBy (context item.now.bytes known.now) self.old item.now.item things.Zone) }
        ensures after { IfOk result (λ k. k ≡ None → self.new ≡ after_as (context item.now.bytes known.now) self.old item.now.item things.Zone) }
    {
        let stamp = stamp_in(alloc, item)?;
        let double = self.is_double(&stamp);
        if !is_read_zone(alloc, known, item)? {
            return self.stamp(stamp, double);
        }
        let kind = zone_kind(alloc, known, item, double, self.is_over(1, 1))?;
        if kind.is_none() {
            let zone = zone_kept(alloc, known, item, line)?;
            self.add_zone(zone, stamp)?;
        }
        Ok(kind)
    }

    /// Tries a rule area, and reads it where nothing offends: the answer is its first offence.
    ///
    /// # Errors
    ///
    /// Want of memory.
    pub fn area(
        &mut self,
        alloc: Global,
        known: &Known,
        item: &Part<'_>,
    ) -> Result<Option<OffenceKind>, Memory>
        ensures kind { IfOk result (IsKindBy (context item.now.bytes known.now) self.old item.now.item things.RuleArea) }
        ensures after { IfOk result (λ k. k ≡ None → self.new ≡ after_as (context item.now.bytes known.now) self.old item.now.item things.RuleArea) }
    {
        let stamp = stamp_in(alloc, item)?;
        let double = self.is_double(&stamp);
        if !is_read_area(alloc, known, item)? {
            return self.stamp(stamp, double);
        }
        let kind = area_kind(alloc, known, item, double, self.is_over(0, 1))?;
        if kind.is_none() {
            let area = area_kept(alloc, known, item)?;
            self.add_area(area, stamp)?;
        }
        Ok(kind)
    }
}
