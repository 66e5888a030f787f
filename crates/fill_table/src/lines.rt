// The lines of a filled board.
ghost use Rattle.std.specs.Prelude.{◌<◌, length, map};
ghost use Rattle.std.specs.Arc.{arc_value};
ghost use Rattle.fills.specs.Fills.{AreBoardFills};

use crate::asked::answer;
use crate::filling::FilledBoard;
use crate::surroundings::layer_name;
use fills::Task;
use grid_num::{Memory, MmText, Nm, Point, write_mm};
use outlines::Traced;
use std::alloc::{AllocError, Global};

/// Adds a length in millimetres.
fn add_mm(text: &mut String, nm: i64) -> Result<(), AllocError> {
    let Some(length) = Nm::new(nm) else {
        return text.push_str("too far");
    };
    let mut digits = MmText::new();
    write_mm(length, &mut digits);
    text.push_str(str::from_utf8(digits.bytes()).unwrap_or("?"))
}

/// Adds a ring: its corners, x first.
fn add_ring(text: &mut String, corners: &[Point]) -> Result<(), AllocError> {
    text.push_str("   ")?;
    for corner in corners {
        text.push_str(" (")?;
        add_mm(text, corner.x)?;
        text.push_str(" ")?;
        add_mm(text, corner.y)?;
        text.push_str(")")?;
    }
    text.push_str("\n")
}

/// Adds the head of a zone's fill on a layer: the zone's number, from 1, its line and the layer's name, how many rings
/// there are, and twice their area.
fn add_head(
    alloc: Global,
    text: &mut String,
    filled: &FilledBoard,
    task: Task,
    traced: &Traced,
) -> Result<(), AllocError> {
    let number = u64::from(task.zone) + 1;
    let Some(zone) = filled.board.zones().get(task.zone as usize) else {
        return text.push_str("  no zone\n");
    };
    let head = format!(in alloc;
        "  zone {number} line {} {} polygons {} area2 {}\n",
        zone.line,
        layer_name(&filled.board, task),
        traced.rings.len(),
        traced.area2
    )?;
    text.push_str(head.as_str())
}

/// Adds what is answered of the task of the rank, question by question.
fn add_answers(
    alloc: Global,
    text: &mut String,
    filled: &FilledBoard,
    rank: usize,
    questions: &[String],
) -> Result<(), Memory>
    requires rank { rank < length filled.now.fills.items }
    requires fills { AreBoardFills filled.now.board.board (map arc_value filled.now.fills.items) }
{
    for question in questions {
        let answer = answer(alloc, &filled.board, &filled.fills, rank, question.as_str())?;
        text.push_str(answer.as_str())?;
    }
    Ok(())
}

/// What is printed of a filled board: of each task, in rank order, its head, its rings, and what is answered of it.
pub fn lines_of(alloc: Global, filled: &FilledBoard, questions: &[String]) -> Result<String, Memory>
    requires { AreBoardFills filled.now.board.board (map arc_value filled.now.fills.items) }
{
    let mut text = String::new(alloc);
    for rank in 0..filled.fills.len() {
        let Some(traced) = filled.traced.get(rank) else {
            return Ok(String::from_str(alloc, "  outlines are missing\n")?);
        };
        add_head(alloc, &mut text, filled, filled.fills[rank].task, traced)?;
        for ring in &traced.rings {
            add_ring(&mut text, &ring.corners)?;
        }
        add_answers(alloc, &mut text, filled, rank, questions)?;
    }
    Ok(text)
}
