// What is said of the tasks of a board, in the order of the file.
ghost use Rattle.std.specs.Prelude.{◌≡◌, ◌<◌, length, map, get_or, IfOk};
ghost use Rattle.std.specs.Arc.{arc_value};
ghost use Rattle.rings.specs.Rings.{not_traced};
ghost use Rattle.fill_rules.specs.Tasks.{ranked, task_at};
ghost use Rattle.fills.specs.Fills.{task_of, AreBoardFills};
ghost use Rattle.output_rules.specs.Reported.{task_lines};
ghost use Rattle.output_rules.specs.Output.{layer_name};
ghost use Rattle.fill_text.specs.Inner.Lines.{line_of_fill};

use crate::numbered::{one_more_if, part_count};
use board_model::Board;
use clusters::{filed_ranks, fill_at, parts_of, task_of};
use fills::{Fill, Task};
use grid_num::Memory;
use knockouts::zone_of;
use output_rules::{Name, TaskLine};
use rings::Traced;
use std::alloc::Global;
use std::sync::Arc;

/// The lines of all tasks.
pub fn task_lines(
    alloc: Global,
    board: &Board,
    fills: &[Arc<Fill>],
    traced: &[Traced],
) -> Result<Vec<TaskLine>, Memory>
    requires { AreBoardFills board.now.board (map arc_value fills.now) }
    ensures { IfOk result (λ v. v.items ≡ task_lines board.now.board (map arc_value fills.now) traced.now) }
{
    let ranks = filed_ranks(alloc, board, fills)?;
    let mut lines = Vec::new(alloc);
    'each: for k in 0..ranks.len() {
        let rank = ranks[k];
        let line = task_line(alloc, board, fill_at(fills, rank as usize), rank, traced)?;
        lines.push(line)?;
    }
    Ok(lines)
}

// The line of the task of this rank.
fn task_line(
    alloc: Global,
    board: &Board,
    fill: &Fill,
    rank: u32,
    traced: &[Traced],
) -> Result<TaskLine, Memory>
    requires rank { rank < length (ranked board.now.board) }
    requires task { fill.now.task ≡ task_at board.now.board rank }
    ensures { IfOk result (λ l. l ≡ line_of_fill board.now.board fill.now (get_or traced.now rank not_traced)) }
{
    let task = task_of(fill);
    let zone = one_more_if(task.zone, true)?;
    let layer = name_of(alloc, board, task.layer)?;
    let parts = part_count(parts_of(fill))?;
    let polygons = u32::try_from(polygons_at(traced, rank)).map_err(|_| Memory)?;
    Ok(TaskLine {
        zone,
        line: zone_of(board, task).line,
        layer,
        parts,
        polygons,
        area2: area_at(traced, rank),
    })
}

/// The name of the layer; none past the last.
pub fn name_of(alloc: Global, board: &Board, layer: u8) -> Result<Name, Memory>
    ensures { IfOk result (λ name. name ≡ layer_name board.now.board layer) }
{
    match board.layers().get(usize::from(layer)) {
        Some(name) => Name::of(alloc, name.bytes()),
        None => Name::of(alloc, &[]),
    }
}

// How many rings the outlines at the place have; none past the last.
fn polygons_at(traced: &[Traced], rank: u32) -> usize
    ensures { result ≡ length (get_or traced.now rank not_traced).rings }
{
    match traced.get(rank as usize) {
        Some(outlines) => rings_in(outlines),
        None => 0,
    }
}

fn rings_in(outlines: &Traced) -> usize
    ensures { result ≡ length outlines.now.rings }
{
    outlines.rings.as_slice().len()
}

// Twice the area of the outlines at the place.
fn area_at(traced: &[Traced], rank: u32) -> u128
    ensures { result ≡ (get_or traced.now rank not_traced).area2 }
{
    match traced.get(rank as usize) {
        Some(outlines) => area_of(outlines),
        None => 0,
    }
}

fn area_of(outlines: &Traced) -> u128
    ensures { result ≡ outlines.now.area2 }
{
    outlines.area2
}
