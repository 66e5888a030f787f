// What the rules of the fill say of a task: what it keeps away from, its spokes and anchors, which tasks it reaches.
// An octagon is told by the least and the greatest x, y, x + y and x - y, in units of 2 nm.
ghost use Rattle.std.specs.Prelude.{◌<◌, length, map};
ghost use Rattle.std.specs.Arc.{arc_value};
ghost use Rattle.fill_rules.specs.Ranking.{IsTask};
ghost use Rattle.fills.specs.Fills.{task_of, AreBoardFills};

use crate::ranked::task_at;
use board_model::Board;
use copper_shape::Shape;
use fills::{Fill, Task};
use grid_num::Memory;
use knockouts::{Need, anchors, needs, reach, spokes, tasks};
use octagon::Oct;
use std::alloc::{AllocError, Global};
use std::sync::Arc;
use zone_fill::above;

/// Adds the bounds of an octagon.
fn add_bounds(alloc: Global, text: &mut String, oct: &Oct) -> Result<(), AllocError> {
    let bounds = format!(in alloc;
        " {} {} {} {} {} {} {} {}",
        oct.x0(),
        oct.x1(),
        oct.y0(),
        oct.y1(),
        oct.s0(),
        oct.s1(),
        oct.d0(),
        oct.d1()
    )?;
    text.push_str(bounds.as_str())
}

/// Adds an octagon that is kept away from, and how far, in units.
fn add_need(alloc: Global, text: &mut String, need: &Need) -> Result<(), AllocError> {
    text.push_str("     ")?;
    add_bounds(alloc, text, &need.oct)?;
    text.push_str(format!(in alloc; " need {}\n", need.need)?.as_str())
}

/// Adds a spoke.
fn add_spoke(alloc: Global, text: &mut String, spoke: &Oct) -> Result<(), AllocError> {
    text.push_str("     ")?;
    add_bounds(alloc, text, spoke)?;
    text.push_str("\n")
}

/// Adds copper that anchors: its radius in halves of a nanometre, and its hulls.
fn add_anchor(alloc: Global, text: &mut String, copper: &Shape) -> Result<(), Memory> {
    text.push_str(format!(in alloc; "      radius {}", copper.radius())?.as_str())?;
    for hull in &copper.hulls(alloc)? {
        text.push_str(" hull")?;
        add_bounds(alloc, text, hull)?;
    }
    text.push_str("\n")?;
    Ok(())
}

/// What the task of the rank keeps away from, over the fills of the tasks that reach it.
pub fn needs_of(
    alloc: Global,
    board: &Board,
    fills: &[Arc<Fill>],
    rank: usize,
) -> Result<String, Memory>
    requires rank { rank < length fills.now }
    requires fills { AreBoardFills board.now.board (map arc_value fills.now) }
{
    let task = task_at(board, fills, rank);
    let above = above(alloc, board, &fills[..rank], task)?;
    let needs = needs(alloc, board, task, &above)?;
    let mut text = format!(in alloc; "    needs {}\n", needs.len())?;
    for need in &needs {
        add_need(alloc, &mut text, need)?;
    }
    Ok(text)
}

/// The spokes of the task, of all pads that it joins by spokes.
pub fn spokes_of(alloc: Global, board: &Board, task: Task) -> Result<String, Memory>
    requires { IsTask board.now.board (task_of task) }
{
    let spokes = spokes(alloc, board, task)?;
    let mut text = format!(in alloc; "    spokes {}\n", spokes.len())?;
    for spoke in &spokes {
        add_spoke(alloc, &mut text, spoke)?;
    }
    Ok(text)
}

/// The copper that anchors islands of the task.
pub fn anchors_of(alloc: Global, board: &Board, task: Task) -> Result<String, Memory>
    requires { IsTask board.now.board (task_of task) }
{
    let anchors = anchors(alloc, board, task)?;
    let mut text = format!(in alloc; "    anchors {}\n", anchors.len())?;
    for copper in &anchors {
        add_anchor(alloc, &mut text, copper)?;
    }
    Ok(text)
}

/// The tasks that the task reaches, in rank order.
fn reached(alloc: Global, board: &Board, upper: Task) -> Result<Vec<Task>, Memory>
    requires { IsTask board.now.board (task_of upper) }
{
    let mut reached = Vec::new(alloc);
    'each: for lower in tasks(alloc, board)? {
        if reach(board, upper, lower) {
            reached.push(lower)?;
        }
    }
    Ok(reached)
}

/// Which tasks the task reaches: each by its zone's number, from 1, and its layer.
pub fn reached_of(alloc: Global, board: &Board, task: Task) -> Result<String, Memory>
    requires { IsTask board.now.board (task_of task) }
{
    let reached = reached(alloc, board, task)?;
    let mut text = format!(in alloc; "    reaches {}\n", reached.len())?;
    for lower in &reached {
        let zone = u64::from(lower.zone) + 1;
        let line = format!(in alloc; "      zone {zone} {}\n", layer_name(board, *lower))?;
        text.push_str(line.as_str())?;
    }
    Ok(text)
}

/// The name of the task's layer.
pub fn layer_name(board: &Board, task: Task) -> &str {
    match board.layers().get(usize::from(task.layer)) {
        Some(layer) => str::from_utf8(layer.bytes()).unwrap_or("?"),
        None => "no layer",
    }
}
