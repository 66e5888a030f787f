// The items of a board, one after another: each is tried after those before it and read, up to the first that offends.
ghost use Rattle.std.specs.Prelude.{◌≡◌, ◌∷◌, [], ◌++◌, map, IfOk, IfErr, None};
ghost use Rattle.std.specs.List.{flat_map};
ghost use Rattle.board_text.specs.Lists.{lists_of};
ghost use Rattle.board_text.specs.Items.{line_of};
ghost use Rattle.board_text.specs.Things as things;
ghost use Rattle.board_text.specs.Things.{on_board, of_footprint, with_own, items_of_board};
ghost use Rattle.board_items.specs.Known.{context};
ghost use Rattle.board_model.specs.State.{nothing_read_yet};
ghost use Rattle.board_model.specs.Steps.{kind_by, after_as};
ghost use Rattle.board_model.specs.Run.{IsTried, IsOf, AreRead, IsStop, the_board, on_the_board, in_the_footprint};

use crate::error::BoardError;
use crate::lines::Lines;
use crate::reading::ReadSoFar;
use board_edges::footprint_drawing_kind;
use board_items::{Known, Own, Thing, thing_in_footprint, thing_on_board};
use board_language::{Offence, OffenceKind};
use board_pads::{ReadFootprint, footprint_kind};
use board_text::Part;
use board_tracks::{board_kind, layers_kind};
use grid_num::Memory;
use std::alloc::Global;

/// Whether an item offends: its place and line are told with how.
fn stopped(item: &Part<'_>, line: u64, kind: Option<OffenceKind>) -> Result<(), BoardError>
    ensures ok { IfOk result (λ _. kind ≡ None) }
    ensures err { IfErr result (IsOf item.now.item.from line kind) }
{
    match kind {
        Some(kind) => Err(BoardError::Bad(Offence {
            at: item.span().from,
            line,
            kind,
        })),
        None => Ok(()),
    }
}

impl ReadSoFar {
    /// Tries a list of layers: of several the first counts.
    fn layers(
        &mut self,
        alloc: Global,
        known: &Known,
        item: &Part<'_>,
    ) -> Result<Option<OffenceKind>, Memory>
        ensures kind { IfOk result (λ k. k ≡ kind_by (context item.now.bytes known.now) self.old item.now.item None things.Layers) }
        ensures after { IfOk result (λ k. k ≡ None → self.new ≡ after_as (context item.now.bytes known.now) self.old item.now.item things.Layers) }
    {
        let first = !self.layers;
        self.layers = true;
        if first {
            layers_kind(alloc, known, item)
        } else {
            Ok(None)
        }
    }

    /// Tries a list of the board, and reads it where nothing offends: the answer is its first offence.
    fn try_list(
        &mut self,
        alloc: Global,
        known: &Known,
        item: &Part<'_>,
        line: u64,
    ) -> Result<Option<OffenceKind>, Memory>
        requires line { line ≡ line_of item.now.bytes item.now.item.from }
        ensures { IfOk result (IsTried (context item.now.bytes known.now) self.old item.now.item (on_board item.now.bytes item.now.item) self.new) }
    {
        match thing_on_board(item) {
            Thing::Layers => self.layers(alloc, known, item),
            Thing::Net => self.net(alloc, known, item),
            Thing::Track => self.track(alloc, known, item, line),
            Thing::CurvedTrack => Ok(Some(OffenceKind::CurvedTrack)),
            Thing::Via => self.via(alloc, known, item, line),
            Thing::Footprint => footprint_kind(alloc, known, item),
            Thing::RuleArea => self.area(alloc, known, item),
            Thing::Zone => self.zone(alloc, known, item, line),
            Thing::Drawing => self.drawing(alloc, known, item),
            Thing::Other => Ok(None),
        }
    }

    /// Tries a list of a footprint, and reads it where nothing offends: the answer is its first offence.
    fn try_own(
        &mut self,
        alloc: Global,
        known: &Known,
        footprint: &ReadFootprint<'_, '_>,
        item: &Part<'_>,
        line: u64,
    ) -> Result<Option<OffenceKind>, Memory>
        requires same { footprint.now.bytes ≡ item.now.bytes }
        requires line { line ≡ line_of item.now.bytes item.now.item.from }
        ensures { IfOk result (IsTried (context item.now.bytes known.now) self.old item.now.item (of_footprint item.now.bytes footprint.now.item item.now.item) self.new) }
    {
        match thing_in_footprint(item) {
            Own::Pad => self.pad(alloc, known, footprint, item, line),
            Own::Zone => Ok(Some(OffenceKind::FootprintZone)),
            Own::Drawing => footprint_drawing_kind(alloc, known, item),
            Own::Other => Ok(None),
        }
    }

    /// Reads a list of the board.
    fn read_list(
        &mut self,
        alloc: Global,
        known: &Known,
        lines: &mut Lines<'_>,
        item: &Part<'_>,
    ) -> Result<(), BoardError>
        requires text { lines.old ≡ item.now.bytes }
        ensures text { lines.new ≡ lines.old }
        ensures ok { IfOk result (λ _. AreRead (context item.now.bytes known.now) self.old (on_the_board item.now.item ∷ []) self.new) }
        ensures err { IfErr result (IsStop (context item.now.bytes known.now) self.old (on_the_board item.now.item ∷ [])) }
    {
        let line = lines.line_of(item.span().from);
        let kind = self.try_list(alloc, known, item, line)?;
        stopped(item, line, kind)
    }

    /// Reads a list of a footprint.
    fn read_own(
        &mut self,
        alloc: Global,
        known: &Known,
        lines: &mut Lines<'_>,
        footprint: &ReadFootprint<'_, '_>,
        item: &Part<'_>,
    ) -> Result<(), BoardError>
        requires text { lines.old ≡ item.now.bytes }
        requires same { footprint.now.bytes ≡ item.now.bytes }
        ensures text { lines.new ≡ lines.old }
        ensures ok { IfOk result (λ _. AreRead (context item.now.bytes known.now) self.old (in_the_footprint footprint.now.item item.now.item ∷ []) self.new) }
        ensures err { IfErr result (IsStop (context item.now.bytes known.now) self.old (in_the_footprint footprint.now.item item.now.item ∷ [])) }
    {
        let line = lines.line_of(item.span().from);
        let kind = self.try_own(alloc, known, footprint, item, line)?;
        stopped(item, line, kind)
    }

    /// Reads the lists of a footprint.
    fn read_all_own(
        &mut self,
        alloc: Global,
        known: &Known,
        lines: &mut Lines<'_>,
        footprint: &ReadFootprint<'_, '_>,
    ) -> Result<(), BoardError>
        requires text { lines.old ≡ footprint.now.bytes }
        ensures text { lines.new ≡ lines.old }
        ensures ok { IfOk result (λ _. AreRead (context footprint.now.bytes known.now) self.old (map (in_the_footprint footprint.now.item) (lists_of footprint.now.item)) self.new) }
        ensures err { IfErr result (IsStop (context footprint.now.bytes known.now) self.old (map (in_the_footprint footprint.now.item) (lists_of footprint.now.item))) }
    {
        let lists = footprint.lists(alloc)?;
        'each: for item in &lists {
            self.read_own(alloc, known, lines, footprint, item)?;
        }
        Ok(())
    }

    /// Reads the lists of a footprint: what it says for its pads is read first, and once.
    fn read_footprint(
        &mut self,
        alloc: Global,
        known: &Known,
        lines: &mut Lines<'_>,
        footprint: &Part<'_>,
    ) -> Result<(), BoardError>
        requires text { lines.old ≡ footprint.now.bytes }
        ensures text { lines.new ≡ lines.old }
        ensures ok { IfOk result (λ _. AreRead (context footprint.now.bytes known.now) self.old (map (in_the_footprint footprint.now.item) (lists_of footprint.now.item)) self.new) }
        ensures err { IfErr result (IsStop (context footprint.now.bytes known.now) self.old (map (in_the_footprint footprint.now.item) (lists_of footprint.now.item))) }
    {
        let read = ReadFootprint::of(alloc, footprint)?;
        self.read_all_own(alloc, known, lines, &read)
    }

    /// Reads a list of the board and, where it is a footprint, the lists in it.
    fn read_with_own(
        &mut self,
        alloc: Global,
        known: &Known,
        lines: &mut Lines<'_>,
        item: &Part<'_>,
    ) -> Result<(), BoardError>
        requires text { lines.old ≡ item.now.bytes }
        ensures text { lines.new ≡ lines.old }
        ensures ok { IfOk result (λ _. AreRead (context item.now.bytes known.now) self.old (with_own item.now.bytes item.now.item) self.new) }
        ensures err { IfErr result (IsStop (context item.now.bytes known.now) self.old (with_own item.now.bytes item.now.item)) }
    {
        self.read_list(alloc, known, lines, item)?;
        if item.is_headed(b"footprint") {
            self.read_footprint(alloc, known, lines, item)?;
        }
        Ok(())
    }

    /// Reads the lists of a board, and of its footprints.
    fn read_lists(
        &mut self,
        alloc: Global,
        known: &Known,
        lines: &mut Lines<'_>,
        board: &Part<'_>,
    ) -> Result<(), BoardError>
        requires text { lines.old ≡ board.now.bytes }
        ensures ok { IfOk result (λ _. AreRead (context board.now.bytes known.now) self.old (flat_map (with_own board.now.bytes) (lists_of board.now.item)) self.new) }
        ensures err { IfErr result (IsStop (context board.now.bytes known.now) self.old (flat_map (with_own board.now.bytes) (lists_of board.now.item))) }
    {
        let lists = board.lists(alloc)?;
        'each: for item in &lists {
            self.read_with_own(alloc, known, lines, item)?;
        }
        Ok(())
    }
}

/// Tries the board itself: nothing is read of it alone.
fn try_root(
    alloc: Global,
    known: &Known,
    lines: &mut Lines<'_>,
    root: &Part<'_>,
) -> Result<(), BoardError>
    requires text { lines.old ≡ root.now.bytes }
    ensures text { lines.new ≡ lines.old }
    ensures ok { IfOk result (λ _. AreRead (context root.now.bytes known.now) nothing_read_yet (the_board root.now.item ∷ []) nothing_read_yet) }
    ensures err { IfErr result (IsStop (context root.now.bytes known.now) nothing_read_yet (the_board root.now.item ∷ [])) }
{
    let line = lines.line_of(root.span().from);
    let kind = board_kind(alloc, known, root)?;
    stopped(root, line, kind)
}

/// Reads all items of a board, up to the first that offends.
pub fn read_all(alloc: Global, known: &Known, root: &Part<'_>) -> Result<ReadSoFar, BoardError>
    ensures ok { IfOk result (AreRead (context root.now.bytes known.now) nothing_read_yet (items_of_board root.now.bytes root.now.item)) }
    ensures err { IfErr result (IsStop (context root.now.bytes known.now) nothing_read_yet (items_of_board root.now.bytes root.now.item)) }
{
    let mut lines = Lines::of(root.bytes());
    try_root(alloc, known, &mut lines, root)?;
    let mut reading = ReadSoFar::new(alloc);
    reading.read_lists(alloc, known, &mut lines, root)?;
    Ok(reading)
}
