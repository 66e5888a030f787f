// Which piece of a board's text an edit takes out, and what it puts in.
ghost use Rattle.std.specs.Prelude.{◌≡◌, ◌<◌, ◌≤◌, None, length, IfOk, IfSome};
ghost use Rattle.text_splices.specs.Splice.{IsSplice};
ghost use Rattle.edit_language.specs.Scripts.{IsPointInRange, IsSize};
ghost use Rattle.edit_language.specs.Splices.{put_for, put_at, put_before_close, take_out, track_line, via_line, priority_splice, clearance_splice};

use crate::text::{connect_list, number_list, size_list, spaced, track_text, via_text};
use board_language::ZoneSpans;
use grid_num::{Memory, Point};
use sexpr_text::Span;
use std::alloc::Global;
use std::marker::Model;
use text_splices::spliced;

/// A piece of a board's text that an edit takes out, and the bytes that it puts there. Contracts see it as the record of
/// both places and the bytes.
#[derive(Debug, Drop)]
pub struct Splice {
    from: usize,
    to: usize,
    put: Vec<u8>,
}

impl Model for Splice {
    ghost use Rattle.edit_language.specs.Splices.{Splice};

    ghost Value = { Splice };

    ghost view = { λ s. record { from = s.from; to = s.to; put = s.put.items } };
}

impl Splice {
    /// The place of the first byte that is taken out, or where the bytes are put.
    pub fn from(&self) -> usize
        ensures { result ≡ self.now.from }
    {
        self.from
    }

    /// The place behind the last byte that is taken out.
    pub fn to(&self) -> usize
        ensures { result ≡ self.now.to }
    {
        self.to
    }

    /// The bytes that are put there.
    pub fn put(&self) -> &[u8]
        ensures { result.now ≡ self.now.put }
    {
        self.put.as_slice()
    }

    /// The text with this splice.
    ///
    /// # Errors
    ///
    /// Want of memory.
    pub fn made(&self, alloc: Global, text: &[u8]) -> Result<Vec<u8>, Memory>
        requires order { self.now.from ≤ self.now.to }
        requires within { self.now.to ≤ length text.now }
        ensures { IfOk result (λ new. IsSplice text.now self.now.from self.now.to self.now.put new.items) }
    {
        spliced(alloc, text, self.from, self.to, self.put.as_slice())
    }
}

/// Bytes in place of a list.
fn in_place(list: Span, put: Vec<u8>) -> Splice
    ensures { result ≡ put_for list put.items }
{
    Splice {
        from: list.from,
        to: list.to,
        put,
    }
}

/// Bytes at a place, and nothing taken out.
fn at_place(place: usize, put: Vec<u8>) -> Splice
    ensures { result ≡ put_at place put.items }
{
    Splice {
        from: place,
        to: place,
        put,
    }
}

/// What a new track does to the text of the board that stands here, a text of this version.
///
/// # Errors
///
/// Want of memory.
pub fn put_track(
    alloc: Global,
    board: Span,
    version: u32,
    from: Point,
    to: Point,
    width: u32,
    layer: &[u8],
    net: u32,
    stamp: &[u8],
) -> Result<Splice, Memory>
    requires board { 0 < board.to }
    requires from { IsPointInRange from }
    requires to { IsPointInRange to }
    requires width { IsSize width }
    ensures { IfOk result (λ s. s ≡ put_before_close board (track_line version from to width layer.now net stamp.now)) }
{
    let track = track_text(alloc, version, from, to, width, layer, net, stamp)?;
    Ok(at_place(board.to - 1, track))
}

/// What a new via does to the text of the board that stands here, a text of this version.
///
/// # Errors
///
/// Want of memory.
pub fn put_via(
    alloc: Global,
    board: Span,
    version: u32,
    at: Point,
    size: u32,
    drill: u32,
    top: &[u8],
    bottom: &[u8],
    net: u32,
    stamp: &[u8],
) -> Result<Splice, Memory>
    requires board { 0 < board.to }
    requires at { IsPointInRange at }
    requires size { IsSize size }
    requires drill { IsSize drill }
    ensures { IfOk result (λ s. s ≡ put_before_close board (via_line version at size drill top.now bottom.now net stamp.now)) }
{
    let via = via_text(alloc, version, at, size, drill, top, bottom, net, stamp)?;
    Ok(at_place(board.to - 1, via))
}

/// What the drop of the track or via that stands here does to the text.
pub fn drop_copper(alloc: Global, copper: Span) -> Splice
    ensures { result ≡ take_out copper }
{
    in_place(copper, Vec::new(alloc))
}

/// What a new priority does to the text of a zone whose lists stand here.
///
/// # Errors
///
/// Want of memory.
#[tactic(auto, unfolding(crate::specs::Splices::priority_splice))]
pub fn set_priority(alloc: Global, zone: &ZoneSpans, value: u32) -> Result<Splice, Memory>
    ensures { IfOk result (λ s. s ≡ priority_splice zone.now value) }
{
    let list = number_list(alloc, b"priority", value)?;
    match zone.priority {
        Some(old) => Ok(in_place(old, list)),
        None => Ok(at_place(zone.tail, spaced(alloc, list.as_slice())?)),
    }
}

/// A clearance where the zone has none: in its `connect_pads`, or with one.
#[tactic(auto, unfolding(crate::specs::Splices::clearance_splice))]
fn new_clearance(alloc: Global, zone: &ZoneSpans, value: u32) -> Result<Splice, Memory>
    requires connect { IfSome zone.now.connect (λ list. 0 < list.to) }
    requires value { IsSize value }
    ensures { IfOk result (λ s. zone.now.clearance ≡ None → s ≡ clearance_splice zone.now value) }
{
    match zone.connect {
        Some(connect) => {
            let list = size_list(alloc, b"clearance", value)?;
            Ok(at_place(connect.to - 1, spaced(alloc, list.as_slice())?))
        }
        None => {
            let list = connect_list(alloc, value)?;
            Ok(at_place(zone.tail, spaced(alloc, list.as_slice())?))
        }
    }
}

/// What a new clearance does to the text of a zone whose lists stand here.
///
/// # Errors
///
/// Want of memory.
#[tactic(auto, unfolding(crate::specs::Splices::clearance_splice))]
pub fn set_clearance(alloc: Global, zone: &ZoneSpans, value: u32) -> Result<Splice, Memory>
    requires connect { IfSome zone.now.connect (λ list. 0 < list.to) }
    requires value { IsSize value }
    ensures { IfOk result (λ s. s ≡ clearance_splice zone.now value) }
{
    match zone.clearance {
        Some(old) => Ok(in_place(old, size_list(alloc, b"clearance", value)?)),
        None => new_clearance(alloc, zone, value),
    }
}
