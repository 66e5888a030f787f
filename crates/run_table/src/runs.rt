// Runs over a desk in memory: how each ends, and what it says and complains.
ghost use Rattle.std.specs.Prelude.{◌≡◌, ◌<◌, map};
ghost use Rattle.std.specs.String.{string_bytes};
ghost use Rattle.run_rules.specs.Leaves.{HasRoomFor};
ghost use Rattle.top_call.specs.Today.{today};

use crate::files::{are_same, behind, text_of};
use desk::{Desk, MemoryDesk};
use fill_pool::OpenGate;
use run_rules::{Ended, status};
use std::alloc::{AllocError, Global};
use std::marker::Brand;
use std::sync::Wait;
use std::sync::ledger::{Blank, Ledger};
use std::thread::Threads;
use step_count::Steps;
use top_call::{run, run_single};

/// The words of a line.
pub fn words_of(alloc: Global, line: &str) -> Result<Vec<String>, AllocError> {
    let mut words = Vec::new(alloc);
    for word in line.split_ascii_whitespace() {
        words.push(String::from_str(alloc, word)?)?;
    }
    Ok(words)
}

/// How a run ends, by a count of its own.
fn end_by_workers<R: Threads + Wait + Sync, L: Ledger>(
    rt: &R,
    alloc: Global,
    words: &[String],
    desk: &mut MemoryDesk,
    blank: Blank,
) -> Ended
    requires name { blank.name ≡ L.name }
    requires parts { blank.parts ≡ L.parts }
    requires some { 0 < blank.parts }
{
    let mut steps = Steps::<L>::new(blank);
    run(rt, alloc, words, desk, &OpenGate, &mut steps)
}

/// How a run of one worker ends, by a count of its own.
pub fn end_by_one<D: Desk, L: Ledger>(
    alloc: Global,
    words: &[String],
    desk: &mut D,
    blank: Blank,
) -> Ended
    requires name { blank.name ≡ L.name }
    requires parts { blank.parts ≡ L.parts }
    requires some { 0 < blank.parts }
    requires room { HasRoomFor today
        (map string_bytes words.now) (D.seen desk.old) (D.room desk.old) }
{
    let mut steps = Steps::<L>::new(blank);
    run_single(alloc, words, desk, &mut steps)
}

/// How the run of these words ends.
fn run_words<R: Threads + Wait + Sync>(
    rt: &R,
    alloc: Global,
    words: &str,
    desk: &mut MemoryDesk,
) -> Result<Ended, AllocError> {
    let words = words_of(alloc, words)?;
    Ok(end_by_workers::<R, Brand>(rt, alloc, &words, desk, Blank::new(1)))
}

/// How the run of these words by one worker ends.
pub fn run_words_single(
    alloc: Global,
    words: &str,
    desk: &mut MemoryDesk,
) -> Result<Ended, AllocError> {
    let words = words_of(alloc, words)?;
    Ok(end_by_one::<MemoryDesk, Brand>(alloc, &words, desk, Blank::new(1)))
}

/// What is printed of a run: its words and its status, and then what it said and complained.
pub fn run_shown<R: Threads + Wait + Sync>(
    rt: &R,
    alloc: Global,
    line: &str,
    desk: &mut MemoryDesk,
) -> Result<String, AllocError> {
    let said = desk.said().len();
    let complained = desk.complained().len();
    let ended = run_words(rt, alloc, line, desk)?;
    format!(in alloc;
        "{line}: {}\n{}{}",
        status(&ended),
        text_of(behind(desk.said(), said)),
        text_of(behind(desk.complained(), complained))
    )
}

/// What is printed of a board that is filled again: the status, and whether its bytes are the same.
pub fn again_shown<R: Threads + Wait + Sync>(
    rt: &R,
    alloc: Global,
    names: &str,
    desk: &mut MemoryDesk,
) -> Result<String, AllocError> {
    let (one, other) = names.split_once(' ').unwrap_or((names, ""));
    let ended = run_words(
        rt,
        alloc,
        format!(in alloc; "fill {one} {other}")?.as_str(),
        desk,
    )?;
    let said = if are_same(desk, one, other) {
        "the same"
    } else {
        "another"
    };
    format!(in alloc; "again {names}: {} {said}\n", status(&ended))
}

/// What is printed of two runs, one behind the other: the status of the first, and whether both end alike and say the
/// same, which isn't nothing.
pub fn alike_shown<R: Threads + Wait + Sync>(
    rt: &R,
    alloc: Global,
    pair: &str,
    desk: &mut MemoryDesk,
) -> Result<String, AllocError> {
    let (one, other) = pair.split_once(" | ").unwrap_or((pair, ""));
    let start = desk.said().len();
    let first = run_words(rt, alloc, one, desk)?;
    let middle = desk.said().len();
    let second = run_words(rt, alloc, other, desk)?;
    let said = desk.said();
    let said = if first == second
        && start < middle
        && said.get(start..middle) == said.get(middle..)
    {
        "the same"
    } else {
        "another"
    };
    format!(in alloc; "alike {pair}: {} {said}\n", status(&first))
}

/// What is printed of a run by one worker: its words, its status, how it ended, and what it complained.
pub fn end_shown(alloc: Global, words: &str, desk: &mut MemoryDesk) -> Result<String, AllocError> {
    let complained = desk.complained().len();
    let ended = run_words_single(alloc, words, desk)?;
    format!(in alloc;
        "end {words}: {} {ended:?}\n{}",
        status(&ended),
        text_of(behind(desk.complained(), complained))
    )
}
