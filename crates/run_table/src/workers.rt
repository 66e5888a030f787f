// Fills made by several workers, and outlines drawn by several threads.
ghost use Rattle.std.specs.Prelude.{◌≤◌, IfSome};

use crate::boards::{RULES, Stop};
use board_model::Board;
use desk::MemoryDesk;
use fill_pool::{OpenGate, fill_with};
use fills::Fill;
use outlines::{Traced, drawable_law, outlines, outlines_single};
use std::alloc::Global;
use std::sync::{Arc, Wait};
use std::thread::Threads;

fn are_same(one: &Fill, other: &Fill) -> bool {
    one.task == other.task
        && one.pieces.as_slice() == other.pieces.as_slice()
        && one.spokes == other.spokes
        && one.parts.as_slice() == other.parts.as_slice()
}

fn are_all_same(ones: &[Arc<Fill>], others: &[Arc<Fill>]) -> bool {
    if ones.len() != others.len() {
        return false;
    }
    for i in 0..ones.len() {
        if !are_same(&ones[i], &others[i]) {
            return false;
        }
    }
    true
}

/// How many fills have copper.
fn copper_count(fills: &[Arc<Fill>]) -> usize {
    fills.iter().filter(|fill| !fill.pieces.is_empty()).count()
}

/// The board of the file `a`.
fn board_on(alloc: Global, desk: &MemoryDesk) -> Result<Board, Stop> {
    let text = desk.contents("a").unwrap_or(b"");
    let tree = sexpr_text::read(alloc, text)?;
    Ok(Board::read(alloc, text, &tree, RULES)?)
}

/// How many workers there are to be, from 1 to 64.
fn workers_of(word: &str) -> Option<u32>
    ensures { IfSome result (λ n. (1 ≤ n) × (n ≤ 64)) }
{
    match word.parse::<u32>() {
        Ok(workers) if 1 <= workers && workers <= 64 => Some(workers),
        _ => None,
    }
}

fn sameness(same: bool) -> &'static str {
    if same { "the same" } else { "others" }
}

/// Prints of the board in the file `a` how many fills so many workers make, how many of these have copper, and whether
/// one worker makes the same: their pieces, spokes and parts.
pub fn fills_shown<R: Threads + Wait + Sync>(
    rt: &R,
    alloc: Global,
    desk: &MemoryDesk,
    word: &str,
) -> Result<String, Stop> {
    let Some(workers) = workers_of(word) else {
        return Ok(format!(in alloc; "fills {word}: not understood\n")?);
    };
    let board = board_on(alloc, desk)?;
    let ones = fill_with(rt, alloc, &board, 1, &OpenGate)?;
    let fills = fill_with(rt, alloc, &board, workers, &OpenGate)?;
    Ok(format!(in alloc;
        "fills {word}: {} with copper {} {}\n",
        fills.len(),
        copper_count(&fills),
        sameness(are_all_same(&ones, &fills))
    )?)
}

fn is_drawn_alike(one: &Traced, other: &Traced) -> bool {
    one.area2 == other.area2 && one.rings.len() == other.rings.len()
}

fn are_drawn_alike(ones: &[Traced], others: &[Traced]) -> bool {
    if ones.len() != others.len() {
        return false;
    }
    for i in 0..ones.len() {
        if !is_drawn_alike(&ones[i], &others[i]) {
            return false;
        }
    }
    true
}

/// Prints of the board in the file `a` how many outlines threads draw, and whether one thread draws the same: their areas
/// and numbers of rings.
pub fn outlines_shown<R: Threads + Wait + Sync>(
    rt: &R,
    alloc: Global,
    desk: &MemoryDesk,
) -> Result<String, Stop> {
    let board = board_on(alloc, desk)?;
    board.sound();
    drawable_law();
    let fills = fill_with(rt, alloc, &board, 2, &OpenGate)?;
    let ones = outlines_single(alloc, &fills)?;
    let others = outlines(rt, alloc, &fills)?;
    Ok(format!(in alloc;
        "outlines: {} {}\n",
        others.len(),
        sameness(are_drawn_alike(&ones, &others))
    )?)
}
