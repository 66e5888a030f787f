// Runs over desks whose calls fail, one after the other.
use crate::case::Case;
use crate::desks::faults_line;
use crate::runs::run_words_single;
use desk::MemoryDesk;
use grid_num::Memory;
use std::alloc::{AllocError, Global};

/// How much of the whole file `b` a file is.
fn part_line(alloc: Global, left: Option<&[u8]>, whole: &[u8]) -> Result<String, AllocError> {
    match left {
        None => String::from_str(alloc, "none"),
        Some(bytes) if bytes == whole => String::from_str(alloc, "whole"),
        Some(bytes) if whole.starts_with(bytes) => format!(in alloc; "front {}", bytes.len()),
        Some(_) => String::from_str(alloc, "another"),
    }
}

/// How a run ended, and what it left: how much of the whole file `b` is there, and how many bytes were said and
/// complained.
fn left_line(
    alloc: Global,
    words: &str,
    whole: &[u8],
    desk: &mut MemoryDesk,
) -> Result<String, AllocError> {
    let ended = run_words_single(alloc, words, desk)?;
    let part = part_line(alloc, desk.contents("b"), whole)?;
    let said = desk.said().len();
    let complained = desk.complained().len();
    format!(in alloc; "{ended:?} b {part} said {said} complained {complained}")
}

/// What is printed of a run whose call of this number fails, and of the next run of the same words on that desk. A call
/// takes and gives at most 100 bytes.
fn fault_shown(
    alloc: Global,
    case: &Case,
    words: &str,
    whole: &[u8],
    number: u64,
) -> Result<String, Memory> {
    let mut desk = case.desk(alloc, 100, &[number])?;
    let first = left_line(alloc, words, whole, &mut desk)?;
    let faults = faults_line(alloc, &desk)?;
    let next = left_line(alloc, words, whole, &mut desk)?;
    Ok(format!(in alloc; "{number}: {first}\n  {faults}\n  next {next}\n")?)
}

/// What the run of these words leaves in the file `b`, where no call fails.
fn whole_of(alloc: Global, case: &Case, words: &str) -> Result<Vec<u8>, Memory> {
    let mut desk = case.desk(alloc, 100, &[])?;
    let _ended = run_words_single(alloc, words, &mut desk)?;
    Ok(desk.contents("b").unwrap_or(b"").to_vec(alloc)?)
}

/// What is printed of runs of the same words: in the first one the first call fails, in the second one the second call,
/// and so on.
pub fn faults_shown(alloc: Global, case: &Case, line: &str) -> Result<String, Memory> {
    let (count, words) = line.split_once(' ').unwrap_or((line, ""));
    let count = count.parse::<u64>().unwrap_or(0);
    let mut all = format!(in alloc; "faults {line}:\n")?;
    let whole = whole_of(alloc, case, words)?;
    for number in 0..count {
        let shown = fault_shown(alloc, case, words, &whole, number + 1)?;
        all.push_str(shown.as_str())?;
    }
    Ok(all)
}
