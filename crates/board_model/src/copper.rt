// Nets, tracks, vias and drawings: each is tried after what was read before it, and then read.
ghost use Rattle.std.specs.Prelude.{◌≡◌, ◌+◌, ◌<◌, ◌≤◌, ◌++◌, length, option_map, OnOk, IfOk, None};
ghost use Rattle.board_text.specs.Things as things;
ghost use Rattle.board_text.specs.Items.{line_of};
ghost use Rattle.board_language.specs.Tracks.{track_of, via_of};
ghost use Rattle.board_language.specs.Offences.{is_declared_among};
ghost use Rattle.board_items.specs.Known.{context};
ghost use Rattle.board_text.specs.declared.stamped.Stamped.TheVariants as stamped;
ghost use Rattle.board_model.specs.Steps.{kind_by, after_as, put, kept, put_stamp};

use crate::reading::{ReadSoFar, has_few};
use board_edges::{drawing_kind, edges_of};
use board_items::{Known, Numbers, declared_net, stamp_in};
use board_language::{Edge, OffenceKind, Track, Via};
use board_text::{Part, Stamped};
use board_tracks::{net_kind, track_kind, track_of, via_kind, via_of};
use grid_num::Memory;
use std::alloc::Global;

/// Whether the number is that of a net before.
fn is_declared(nets: &Numbers, number: Option<u32>) -> bool
    ensures { result ≡ is_declared_among nets.now number }
{
    match number {
        Some(number) => nets.has(number),
        None => false,
    }
}

/// The track that is read of an item, of a board with few layers.
fn track_kept(
    alloc: Global,
    known: &Known,
    item: &Part<'_>,
    line: u64,
) -> Result<Option<Track>, Memory>
    requires line { line ≡ line_of item.now.bytes item.now.item.from }
    ensures { IfOk result (λ t. t ≡ kept (context item.now.bytes known.now) (track_of (context item.now.bytes known.now) item.now.item)) }
{
    if has_few(known) {
        Ok(Some(track_of(alloc, known, item, line)?))
    } else {
        Ok(None)
    }
}

/// The via that is read of an item, of a board with few layers.
fn via_kept(alloc: Global, known: &Known, item: &Part<'_>, line: u64) -> Result<Option<Via>, Memory>
    requires line { line ≡ line_of item.now.bytes item.now.item.from }
    ensures { IfOk result (λ v. v ≡ kept (context item.now.bytes known.now) (via_of (context item.now.bytes known.now) item.now.item)) }
{
    if has_few(known) {
        Ok(Some(via_of(alloc, known, item, line)?))
    } else {
        Ok(None)
    }
}

impl ReadSoFar {
    /// Puts the stamp of a thing behind the others, where it has one.
    pub fn put_stamp(&mut self, stamp: Option<Vec<u8>>, thing: Stamped) -> Result<(), Memory>
        ensures { OnOk result (self.new ≡ record self.old { stamps = put_stamp self.old.stamps (option_map (λ v. v.items) stamp) thing }) }
    {
        if let Some(name) = stamp {
            self.stamps.put(name, thing)?;
        }
        Ok(())
    }

    /// Counts a net, and puts its number behind the others.
    fn add_net(&mut self, number: Option<u32>) -> Result<(), Memory>
        requires room { self.old.things < 200000 }
        ensures { OnOk result (self.new ≡ record self.old { things = self.old.things + 1; nets = put self.old.nets number }) }
    {
        self.things += 1;
        if let Some(number) = number {
            self.nets.push(number)?;
        }
        Ok(())
    }

    /// Tries a net, and reads it where nothing offends: the answer is its first offence.
    ///
    /// # Errors
    ///
    /// Want of memory.
    pub fn net(
        &mut self,
        alloc: Global,
        known: &Known,
        net: &Part<'_>,
    ) -> Result<Option<OffenceKind>, Memory>
        ensures kind { IfOk result (λ k. k ≡ kind_by (context net.now.bytes known.now) self.old net.now.item None things.Net) }
        ensures after { IfOk result (λ k. k ≡ None → self.new ≡ after_as (context net.now.bytes known.now) self.old net.now.item things.Net) }
    {
        let number = declared_net(alloc, net)?;
        let double = is_declared(&self.nets, number);
        let kind = net_kind(alloc, known, net, double, self.is_over(1, 0))?;
        if kind.is_none() {
            self.add_net(number)?;
        }
        Ok(kind)
    }

    /// Counts a track, and puts it and its stamp behind the others.
    fn add_track(&mut self, track: Option<Track>, stamp: Option<Vec<u8>>) -> Result<(), Memory>
        requires room { self.old.things < 200000 }
        ensures { OnOk result (self.new ≡ record self.old { things = self.old.things + 1; stamps = put_stamp self.old.stamps (option_map (λ v. v.items) stamp) (stamped.Track (length self.old.tracks)); tracks = put self.old.tracks track }) }
    {
        let place = self.tracks.len() as u32;
        self.things += 1;
        self.put_stamp(stamp, Stamped::Track(place))?;
        if let Some(track) = track {
            self.tracks.push(track)?;
        }
        Ok(())
    }

    /// Tries a track, and reads it where nothing offends: the answer is its first offence.
    ///
    /// # Errors
    ///
    /// Want of memory.
    pub fn track(
        &mut self,
        alloc: Global,
        known: &Known,
        item: &Part<'_>,
        line: u64,
    ) -> Result<Option<OffenceKind>, Memory>
        requires line { line ≡ line_of item.now.bytes item.now.item.from }
        ensures kind { IfOk result (λ k. k ≡ kind_by (context item.now.bytes known.now) self.old item.now.item None things.Track) }
        ensures after { IfOk result (λ k. k ≡ None → self.new ≡ after_as (context item.now.bytes known.now) self.old item.now.item things.Track) }
    {
        let stamp = stamp_in(alloc, item)?;
        let kind = track_kind(
            alloc,
            known,
            item,
            self.is_double(&stamp),
            self.is_over(1, 0),
        )?;
        if kind.is_none() {
            let track = track_kept(alloc, known, item, line)?;
            self.add_track(track, stamp)?;
        }
        Ok(kind)
    }

    /// Counts a via, and puts it and its stamp behind the others.
    fn add_via(&mut self, via: Option<Via>, stamp: Option<Vec<u8>>) -> Result<(), Memory>
        requires room { self.old.things < 200000 }
        ensures { OnOk result (self.new ≡ record self.old { things = self.old.things + 1; stamps = put_stamp self.old.stamps (option_map (λ v. v.items) stamp) (stamped.Via (length self.old.vias)); vias = put self.old.vias via }) }
    {
        let place = self.vias.len() as u32;
        self.things += 1;
        self.put_stamp(stamp, Stamped::Via(place))?;
        if let Some(via) = via {
            self.vias.push(via)?;
        }
        Ok(())
    }

    /// Tries a via, and reads it where nothing offends: the answer is its first offence.
    ///
    /// # Errors
    ///
    /// Want of memory.
    pub fn via(
        &mut self,
        alloc: Global,
        known: &Known,
        item: &Part<'_>,
        line: u64,
    ) -> Result<Option<OffenceKind>, Memory>
        requires line { line ≡ line_of item.now.bytes item.now.item.from }
        ensures kind { IfOk result (λ k. k ≡ kind_by (context item.now.bytes known.now) self.old item.now.item None things.Via) }
        ensures after { IfOk result (λ k. k ≡ None → self.new ≡ after_as (context item.now.bytes known.now) self.old item.now.item things.Via) }
    {
        let stamp = stamp_in(alloc, item)?;
        let kind = via_kind(
            alloc,
            known,
            item,
            self.is_double(&stamp),
            self.is_over(1, 0),
        )?;
        if kind.is_none() {
            let via = via_kept(alloc, known, item, line)?;
            self.add_via(via, stamp)?;
        }
        Ok(kind)
    }

    /// Counts edges, and puts them behind the others.
    fn add_edges(&mut self, edges: Vec<Edge>) -> Result<(), Memory>
        requires room { self.old.things + length edges.items ≤ 200000 }
        ensures { OnOk result (self.new ≡ record self.old { things = self.old.things + length edges.items; edges = self.old.edges ++ edges.items }) }
    {
        self.things += edges.len() as u32;
        self.edges.extend_from_slice(&edges)?;
        Ok(())
    }

    /// Tries a drawing, and reads the edges that it draws where nothing offends: the answer is its first offence.
    ///
    /// # Errors
    ///
    /// Want of memory.
    pub fn drawing(
        &mut self,
        alloc: Global,
        known: &Known,
        item: &Part<'_>,
    ) -> Result<Option<OffenceKind>, Memory>
        ensures kind { IfOk result (λ k. k ≡ kind_by (context item.now.bytes known.now) self.old item.now.item None things.Drawing) }
        ensures after { IfOk result (λ k. k ≡ None → self.new ≡ after_as (context item.now.bytes known.now) self.old item.now.item things.Drawing) }
    {
        let edges = edges_of(alloc, item)?;
        let kind = drawing_kind(alloc, known, item, self.is_over(edges.len(), 0))?;
        if kind.is_none() {
            self.add_edges(edges)?;
        }
        Ok(kind)
    }
}
