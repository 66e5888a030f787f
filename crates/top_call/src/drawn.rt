// The fills of a board, their outlines and its report: by one worker, or by several.
ghost use Rattle.std.specs.Prelude.{◌≡◌, ◌+◌, ◌<◌, length, map, IfOk};
ghost use Rattle.std.specs.Arc.{arc_value};
ghost use Rattle.std.specs.List.{All};
ghost use Rattle.fill_rules.specs.Tasks.{ranked};
ghost use Rattle.fills.specs.Fills.{AreBoardFills};
ghost use Rattle.outlines.specs.Drawn.{ArePiecesDrawable};
ghost use Rattle.output_rules.specs.Traced.{AreTracedOf};
ghost use Rattle.run_rules.specs.Words.{IsWorkerCount};
ghost use Rattle.top_call.specs.Passed.{IsOutcome};
ghost use Rattle.top_call.specs.Steps.{IsTakenBy};

use board_model::Board;
use fill_pool::{Gate, fill_with};
use fill_text::{Report, report_text};
use grid_num::Memory;
use outlines::{drawable_law, outlines, outlines_single};
use rings::Traced;
use std::alloc::Global;
use std::sync::Wait;
use std::sync::ledger::Ledger;
use std::thread::Threads;
use step_count::Steps;
use zone_fill::fill_all;

/// What is made of a board's fills: their outlines, and what is said of them.
#[derive(Drop)]
pub struct Outcome {
    pub traced: Vec<Traced>,
    pub report: Report,
}

/// The outlines and the report of an accepted board, by one worker. Each task is a step.
pub fn drawn_single<L: Ledger>(
    alloc: Global,
    board: &Board,
    steps: &mut Steps<L>,
) -> Result<Outcome, Memory>
    ensures outcome { IfOk result (IsOutcome board.now.board) }
    ensures counts { IfOk result
        (λ _. steps.new ≡ steps.old + length (ranked board.now.board)) }
{
    board.sound();
    drawable_law();
    let fills = fill_all(alloc, board, steps)?;
    let traced = outlines_single(alloc, &fills)?;
    let report = report_text(alloc, board, &fills, &traced)?;
    Ok(Outcome { traced, report })
}

/// The same by several workers, side by side. They count their steps on counters of their own.
fn drawn_beside<R: Threads + Wait + Sync, G: Gate + Sync>(
    rt: &R,
    alloc: Global,
    board: &Board,
    workers: u32,
    gate: &G,
) -> Result<Outcome, Memory>
    requires { IsWorkerCount workers }
    ensures { IfOk result (IsOutcome board.now.board) }
{
    board.sound();
    drawable_law();
    let fills = fill_with(rt, alloc, board, workers, gate)?;
    let traced = outlines(rt, alloc, &fills)?;
    let report = report_text(alloc, board, &fills, &traced)?;
    Ok(Outcome { traced, report })
}

/// The outlines and the report of an accepted board, by so many workers.
pub fn drawn<R: Threads + Wait + Sync, G: Gate + Sync, L: Ledger>(
    rt: &R,
    alloc: Global,
    board: &Board,
    workers: u32,
    gate: &G,
    steps: &mut Steps<L>,
) -> Result<Outcome, Memory>
    requires { IsWorkerCount workers }
    ensures outcome { IfOk result (IsOutcome board.now.board) }
    ensures counts { IfOk result
        (λ _. IsTakenBy workers (length (ranked board.now.board)) steps.old steps.new) }
{
    if workers == 1 {
        return drawn_single(alloc, board, steps);
    }
    drawn_beside(rt, alloc, board, workers, gate)
}
