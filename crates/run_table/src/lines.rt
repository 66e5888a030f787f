// What is printed of a line, and of a case.
use crate::asked::{breaking_shown, words_shown};
use crate::boards::Stop;
use crate::case::Case;
use crate::desks::{desk_of, pass_shown, read_shown, told_shown};
use crate::faults::faults_shown;
use crate::files::{
    copy_shown, file_shown, length_shown, literal_shown, pad_shown, put_shown, same_shown,
};
use crate::fills_read::rings_shown;
use crate::made::{make_shown, refilled_shown};
use crate::reserved::{reserved_shown, unworded_shown};
use crate::runs::{again_shown, alike_shown, end_shown, run_shown};
use crate::workers::{fills_shown, outlines_shown};
use desk::MemoryDesk;
use std::alloc::{AllocError, Global};
use std::sync::Wait;
use std::thread::Threads;

/// Puts a fresh desk in place of the one that is there.
fn put_desk(
    alloc: Global,
    case: &Case,
    words: &str,
    desk: &mut MemoryDesk,
) -> Result<String, Stop> {
    match desk_of(alloc, case, words)? {
        Some(fresh) => {
            *desk = fresh;
            Ok(format!(in alloc; "desk {words}\n")?)
        }
        None => Ok(format!(in alloc; "desk {words}: not understood\n")?),
    }
}

/// What is printed of a line about the files of a desk; None where it is about something else.
fn file_line(
    alloc: Global,
    command: &str,
    rest: &str,
    desk: &mut MemoryDesk,
) -> Result<Option<String>, Stop> {
    let said = match command {
        "show" => file_shown(alloc, desk, rest)?,
        "text" => literal_shown(alloc, desk, rest)?,
        "length" => length_shown(alloc, desk, rest)?,
        "same" => same_shown(alloc, desk, rest)?,
        "put" => put_shown(alloc, desk, rest)?,
        "copy" => copy_shown(alloc, desk, rest)?,
        "pad" => pad_shown(alloc, desk, rest)?,
        "rings" => rings_shown(alloc, desk, rest)?,
        "make" => make_shown(alloc, rest, desk)?,
        "refilled" => refilled_shown(alloc, rest)?,
        _ => return Ok(None),
    };
    Ok(Some(said))
}

/// What is printed of a line about desks or words; None where it is about something else.
fn desk_line(
    alloc: Global,
    case: &Case,
    command: &str,
    rest: &str,
    desk: &mut MemoryDesk,
) -> Result<Option<String>, Stop> {
    let said = match command {
        "desk" => put_desk(alloc, case, rest, desk)?,
        "pass" => pass_shown(alloc, desk, rest)?,
        "read" => read_shown(alloc, desk, rest)?,
        "told" => told_shown(alloc, desk)?,
        "faults" => faults_shown(alloc, case, rest)?,
        "end" => end_shown(alloc, rest, desk)?,
        "reserved" => reserved_shown(alloc, rest)?,
        "unworded" => unworded_shown(alloc)?,
        "words" => words_shown(alloc, rest)?,
        "breaking" => breaking_shown(alloc, rest)?,
        _ => return Ok(None),
    };
    Ok(Some(said))
}

/// What is printed of a line about runs and workers.
fn run_line<R: Threads + Wait + Sync>(
    rt: &R,
    alloc: Global,
    line: &str,
    desk: &mut MemoryDesk,
) -> Result<String, Stop> {
    let (command, rest) = line.split_once(' ').unwrap_or((line, ""));
    match command {
        "again" => Ok(again_shown(rt, alloc, rest, desk)?),
        "alike" => Ok(alike_shown(rt, alloc, rest, desk)?),
        "fills" => fills_shown(rt, alloc, desk, rest),
        "outlines" => outlines_shown(rt, alloc, desk),
        _ => Ok(run_shown(rt, alloc, line, desk)?),
    }
}

/// What is printed of a line.
fn line_shown<R: Threads + Wait + Sync>(
    rt: &R,
    alloc: Global,
    case: &Case,
    line: &str,
    desk: &mut MemoryDesk,
) -> Result<String, Stop> {
    let (command, rest) = line.split_once(' ').unwrap_or((line, ""));
    if let Some(said) = file_line(alloc, command, rest, desk)? {
        return Ok(said);
    }
    if let Some(said) = desk_line(alloc, case, command, rest, desk)? {
        return Ok(said);
    }
    run_line(rt, alloc, line, desk)
}

/// What is printed of a board and its lines.
fn lines_shown<R: Threads + Wait + Sync>(
    rt: &R,
    alloc: Global,
    case: &Case,
) -> Result<String, Stop> {
    let mut all = String::new(alloc);
    let mut desk = case.desk(alloc, 65_536, &[])?;
    for line in &case.lines {
        let shown = line_shown(rt, alloc, case, line.as_str(), &mut desk)?;
        all.push_str(shown.as_str())?;
    }
    Ok(all)
}

/// What is printed of a case, or why nothing is.
pub fn case_shown<R: Threads + Wait + Sync>(
    rt: &R,
    alloc: Global,
    case: &Case,
) -> Result<String, AllocError> {
    match lines_shown(rt, alloc, case) {
        Ok(text) => Ok(text),
        Err(Stop::Memory) => String::from_str(alloc, "out of memory\n"),
        Err(Stop::Refused) => String::from_str(alloc, "refused\n"),
    }
}
