// The fills that stand in a text, read back.
use crate::boards::{RULES, Stop};
use crate::files::{behind, text_of};
use board_model::Board;
use desk::MemoryDesk;
use fill_text::{FillsError, read_fills};
use rings::Ring;
use std::alloc::{AllocError, Global};

/// The rings of a board's text, for each of its tasks in rank order, or the place of the first fill that can't be read.
fn rings_of(alloc: Global, text: &[u8]) -> Result<Result<Vec<Vec<Ring>>, usize>, Stop> {
    let tree = sexpr_text::read(alloc, text)?;
    let board = Board::read(alloc, text, &tree, RULES)?;
    match read_fills(alloc, text, &tree, &board) {
        Ok(rings) => Ok(Ok(rings)),
        Err(FillsError::Bad { at }) => Ok(Err(at)),
        Err(FillsError::Memory) => Err(Stop::Memory),
    }
}

/// Adds the corners of a ring, in nanometres.
fn add_ring(alloc: Global, out: &mut String, ring: &Ring) -> Result<(), AllocError> {
    out.push_str(" [")?;
    for corner in &ring.corners {
        let text = format!(in alloc; "({} {})", corner.x, corner.y)?;
        out.push_str(&text)?;
    }
    out.push_str("]")
}

/// Adds the rings of a task, on a line of their own.
fn add_task(alloc: Global, out: &mut String, rings: &[Ring]) -> Result<(), AllocError> {
    out.push_str("task")?;
    for ring in rings {
        add_ring(alloc, out, ring)?;
    }
    out.push_str("\n")
}

/// A line for each task.
fn task_lines(alloc: Global, tasks: &[Vec<Ring>]) -> Result<String, AllocError> {
    let mut out = String::new(alloc);
    for rings in tasks {
        add_task(alloc, &mut out, rings)?;
    }
    Ok(out)
}

/// What stands at this place of a text, up to the end of the line.
fn line_at(text: &[u8], at: usize) -> &str {
    let rest = text_of(behind(text, at));
    match rest.split_once('\n') {
        Some((line, _)) => line,
        None => rest,
    }
}

/// Prints the rings that are read of a file: of each task, in rank order, the corners in nanometres. Or the first fill
/// that can't be read, by its place.
pub fn rings_shown(alloc: Global, desk: &MemoryDesk, name: &str) -> Result<String, Stop> {
    let text = desk.contents(name).unwrap_or(b"");
    match rings_of(alloc, text)? {
        Ok(tasks) => {
            let lines = task_lines(alloc, &tasks)?;
            Ok(format!(in alloc; "rings {name}:\n{lines}")?)
        }
        Err(at) => Ok(format!(in alloc; "rings {name}: bad at {at}: {}\n", line_at(text, at))?),
    }
}
