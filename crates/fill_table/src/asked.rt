// What is asked of a board's fills, and what is answered of one of them.
ghost use Rattle.std.specs.Prelude.{IfSome, ◌^◌, ◌<◌, length, map};
ghost use Rattle.std.specs.Arc.{arc_value};
ghost use Rattle.fills.specs.Fills.{AreBoardFills};
ghost use Rattle.octagon.specs.Bounded.{IsNearZero, IsInReach};

use crate::ranked::{fill_at, task_at};
use crate::surroundings::{anchors_of, needs_of, reached_of, spokes_of};
use board_model::Board;
use fills::Fill;
use grid_num::{Memory, Nm, Point, read_mm};
use octagon::Oct;
use std::alloc::{AllocError, Global};
use std::sync::Arc;

// How many units a length has, if it is a whole number of them.
fn units(length: Nm) -> Option<i64>
    ensures { IfSome result (IsNearZero (2 ^ 40)) }
{
    let nm = length.get();
    if nm % 2 != 0 {
        return None;
    }
    Some(nm / 2)
}

// The grid point of two lengths.
fn grid_point(x: Nm, y: Nm) -> Option<Point>
    ensures { IfSome result IsInReach }
{
    Some(Point {
        x: units(x)?,
        y: units(y)?,
    })
}

// The grid point that is asked for, by its place in millimetres.
fn point_of(question: &str) -> Option<Point>
    ensures { IfSome result IsInReach }
{
    let place = question.strip_prefix("at ")?;
    let (x, y) = place.split_once(' ')?;
    let x = read_mm(x.as_bytes()).ok()?;
    let y = read_mm(y.as_bytes()).ok()?;
    grid_point(x, y)
}

// Whether one of the pieces holds the point.
fn is_covered(pieces: &[Oct], point: Point) -> bool
    requires { IsInReach point }
{
    'each: for piece in pieces {
        if piece.holds(point) {
            return true;
        }
    }
    false
}

// How many parts there are: pieces that are the first of their part.
fn part_count(parts: &[u32]) -> usize {
    parts
        .iter()
        .enumerate()
        .filter(|(place, first)| **first as usize == *place)
        .count()
}

// Says whether the fill covers the point that is asked for.
fn cover(alloc: Global, fill: &Fill, question: &str) -> Result<String, AllocError> {
    let Some(point) = point_of(question) else {
        return format!(in alloc; "    {question} isn't understood\n");
    };
    let answer = if is_covered(&fill.pieces, point) {
        "covered"
    } else {
        "bare"
    };
    format!(in alloc; "    {question} {answer}\n")
}

// Says how many pieces, spokes and parts the fill has.
fn counts(alloc: Global, fill: &Fill) -> Result<String, AllocError> {
    let pieces = fill.pieces.len();
    let spokes = fill.spokes;
    let parts = part_count(&fill.parts);
    format!(in alloc; "    pieces {pieces} spokes {spokes} parts {parts}\n")
}

/// What is said of the task of the rank, or of its fill.
pub fn answer(
    alloc: Global,
    board: &Board,
    fills: &[Arc<Fill>],
    rank: usize,
    question: &str,
) -> Result<String, Memory>
    requires rank { rank < length fills.now }
    requires fills { AreBoardFills board.now.board (map arc_value fills.now) }
{
    let task = task_at(board, fills, rank);
    match question {
        "pieces" => Ok(counts(alloc, fill_at(fills, rank))?),
        "needs" => needs_of(alloc, board, fills, rank),
        "spokes" => spokes_of(alloc, board, task),
        "anchors" => anchors_of(alloc, board, task),
        "reaches" => reached_of(alloc, board, task),
        _ => Ok(cover(alloc, fill_at(fills, rank), question)?),
    }
}
