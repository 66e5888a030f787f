// From a board's outlines and report to what is written and said.
ghost use Rattle.std.specs.Prelude.{◌≡◌, List, Some, IfOk, IfSome};
ghost use Rattle.std.specs.Option.{option_map};
ghost use Rattle.desk.specs.Seen.{Seen, Told};
ghost use Rattle.desk.specs.Room.{HasRoomTold};
ghost use Rattle.run_rules.specs.Words.{GivenWord};
ghost use Rattle.run_rules.specs.Leaves.{Leaves, HasRoomFor};
ghost use Rattle.top_call.specs.Today.{today};
ghost use Rattle.top_call.specs.Opened.{IsOpening, IsSound};
ghost use Rattle.top_call.specs.Passed.{AreTotals, IsOutcome, IsSummary, IsSaidFor, IsPassingOf};
ghost use Rattle.top_call.specs.Passed.{IsPassedOrMemory, file_shown, file_with, file_due};

use crate::drawn::Outcome;
use crate::opened::{Opened, Purpose};
use crate::passing::{OutFile, Passing, pass_on};
use desk::Desk;
use fill_text::board_text;
use grid_num::Memory;
use output_rules::summary_text;
use rings::Traced;
use run_rules::{Ended, FileName};
use std::alloc::Global;

/// How many rings there are, and twice the area of all of them, in square nanometres.
#[derive(Clone, Copy, Drop)]
pub struct Totals {
    pub polygons: u64,
    pub area2: u128,
}

/// The totals of outlines, where their types hold them.
fn totals_of(traced: &[Traced]) -> Option<Totals>
    ensures { IfSome result (AreTotals traced.now) }
{
    let mut polygons: u64 = 0;
    let mut area2: u128 = 0;
    'each: for outlines in traced {
        polygons = polygons.checked_add(outlines.rings.len() as u64)?;
        area2 = area2.checked_add(outlines.area2)?;
    }
    Some(Totals { polygons, area2 })
}

/// The line that is said of a made board. More rings than a total holds are more than memory does.
fn summary(alloc: Global, items: u32, outcome: &Outcome) -> Result<Vec<u8>, Memory>
    ensures { IfOk result (λ v. IsSummary items outcome.now v.items) }
{
    match totals_of(&outcome.traced) {
        Some(totals) => summary_text(
            alloc,
            items,
            totals.polygons,
            totals.area2,
            outcome.report.unjoined,
        ),
        None => Err(Memory),
    }
}

/// What is to be said.
fn said(alloc: Global, purpose: &Purpose, outcome: Outcome) -> Result<Vec<u8>, Memory>
    ensures { IfOk result (λ v. IsSaidFor purpose.now outcome v.items) }
{
    match purpose {
        Purpose::Sum(_, items) => summary(alloc, *items, &outcome),
        Purpose::Write(_) | Purpose::Tell => Ok(outcome.report.bytes),
    }
}

/// The file of this name, with the board's text and its new outlines.
fn written(
    alloc: Global,
    name: &FileName,
    opened: &Opened,
    outcome: &Outcome,
) -> Result<OutFile, Memory>
    requires sound { IsSound opened.now }
    requires outcome { IsOutcome opened.now.board.board outcome.now }
    ensures { IfOk result (λ f. file_shown f ≡ file_with name.now opened.now outcome.now) }
{
    let bytes = board_text(alloc, &opened.text, &opened.board, &outcome.traced)?;
    let name = FileName::of(alloc, name.text())?;
    Ok(OutFile { name, bytes })
}

/// The file that is to be written, if there is one.
fn out_file(alloc: Global, opened: &Opened, outcome: &Outcome) -> Result<Option<OutFile>, Memory>
    requires sound { IsSound opened.now }
    requires outcome { IsOutcome opened.now.board.board outcome.now }
    ensures { IfOk result (λ f. option_map file_shown f
        ≡ file_due opened.now.purpose opened.now outcome.now) }
{
    match &opened.purpose {
        Purpose::Write(name) => Ok(Some(written(alloc, name, opened, outcome)?)),
        Purpose::Sum(name, _) => Ok(Some(written(alloc, name, opened, outcome)?)),
        Purpose::Tell => Ok(None),
    }
}

/// What is to be passed on.
fn passing_of(alloc: Global, opened: &Opened, outcome: Outcome) -> Result<Passing, Memory>
    requires sound { IsSound opened.now }
    requires outcome { IsOutcome opened.now.board.board outcome }
    ensures { IfOk result (IsPassingOf opened.now outcome) }
{
    let file = out_file(alloc, opened, &outcome)?;
    let unjoined = outcome.report.unjoined;
    let said = said(alloc, &opened.purpose, outcome)?;
    Ok(Passing {
        file,
        said,
        unjoined,
    })
}

/// Ends the run whose board is drawn: all that is due is written and said.
pub fn finished<D: Desk>(alloc: Global, opened: &Opened, outcome: Outcome, desk: &mut D) -> Ended
    requires sound { IsSound opened.now }
    requires outcome { IsOutcome opened.now.board.board outcome }
    requires room { (words : List GivenWord) × HasRoomFor today words (D.seen desk.old) (D.room desk.old)
        × Told (D.seen desk.old) (λ s. IsOpening words s opened.now) }
    ensures cause { IsPassedOrMemory result (D.counts desk.old) (D.counts desk.new) }
    ensures leaves { (words : List GivenWord) → Told (D.seen desk.old) (λ s. IsOpening words s opened.now
        → (t : Seen) × Leaves today result words s t × (D.seen desk.new ≡ Some t)) }
    ensures room { HasRoomTold (D.room desk.new) 256 }
    ensures quiet { (D.counts desk.new).complaining ≡ (D.counts desk.old).complaining }
{
    match passing_of(alloc, opened, outcome) {
        Ok(passing) => pass_on(&passing, desk),
        Err(_) => Ended::Memory,
    }
}
