// Desks by themselves: what their calls take and give, and where they fail.
ghost use Rattle.std.specs.Prelude.{◌+◌, ◌*◌, length};
ghost use Rattle.desk.specs.Room.{cost_of, HasRoomTold};

use crate::case::Case;
use crate::files::text_of;
use desk::{Desk, Failed, MemoryDesk};
use grid_num::Memory;
use std::alloc::{AllocError, Global};

/// A fresh desk, whose calls take and give at most so many bytes, and of which at most two calls fail: the words are its
/// step and the numbers of these calls, upward. None where the step isn't a number of bytes.
pub fn desk_of(alloc: Global, case: &Case, words: &str) -> Result<Option<MemoryDesk>, Memory> {
    let mut numbers = words.split_ascii_whitespace();
    let step = number_of(numbers.next()).unwrap_or(0) as usize;
    if step == 0 {
        return Ok(None);
    }
    let desk = match (number_of(numbers.next()), number_of(numbers.next())) {
        (Some(one), Some(other)) if one < other => case.desk(alloc, step, &[one, other])?,
        (Some(one), None) => case.desk(alloc, step, &[one])?,
        _ => case.desk(alloc, step, &[])?,
    };
    Ok(Some(desk))
}

fn number_of(word: Option<&str>) -> Option<u64> {
    word?.parse::<u64>().ok()
}

/// How many calls a desk has had, how many of each kind failed, and how many wanted memory.
pub fn faults_line(alloc: Global, desk: &MemoryDesk) -> Result<String, AllocError> {
    let faults = desk.faults();
    format!(in alloc;
        "calls {} faults: reading {} writing {} saying {} complaining {} starved {}",
        desk.calls(),
        faults.reading,
        faults.writing,
        faults.saying,
        faults.complaining,
        desk.starved()
    )
}

/// Prints what a desk has said and complained, and its counts.
pub fn told_shown(alloc: Global, desk: &MemoryDesk) -> Result<String, AllocError> {
    let said = text_of(desk.said());
    let complained = text_of(desk.complained());
    let faults = faults_line(alloc, desk)?;
    format!(in alloc; "told: said {said:?} complained {complained:?} {faults}\n")
}

/// Creates a name, and passes the piece to it, to standard output and to standard error once each.
pub fn pass_on<D: Desk>(desk: &mut D, name: &str, piece: &[u8]) -> Result<usize, Failed>
    requires { HasRoomTold (D.room desk.old)
        (cost_of (D.seen desk.old) name.now + 3 * length piece.now) }
{
    desk.create(name)?;
    let taken = desk.append(name, piece)?;
    desk.say(piece)?;
    desk.complain(piece)?;
    Ok(taken)
}

/// How many bytes a call took.
pub fn taken_line(alloc: Global, taken: Result<usize, Failed>) -> Result<String, AllocError> {
    match taken {
        Ok(count) => format!(in alloc; "{count}"),
        Err(Failed) => String::from_str(alloc, "failed"),
    }
}

/// Prints how many bytes are taken of a piece that is passed on to a new file, and said, and complained.
pub fn pass_shown(alloc: Global, desk: &mut MemoryDesk, line: &str) -> Result<String, AllocError> {
    let (name, piece) = line.split_once(' ').unwrap_or((line, ""));
    let taken = taken_line(alloc, pass_on(desk, name, piece.as_bytes()))?;
    format!(in alloc; "pass {line}: {taken}\n")
}

/// What six bytes are after a read into them, from a place of a file on, and how many of them were read.
pub fn read_line<D: Desk>(
    alloc: Global,
    desk: &mut D,
    name: &str,
    from: u64,
) -> Result<String, AllocError> {
    let mut into = *b"......";
    let taken = taken_line(alloc, desk.read_at(name, from, &mut into))?;
    format!(in alloc; "{taken} {}", text_of(&into))
}

/// Prints what a read gives, of a file from a place on.
pub fn read_shown(alloc: Global, desk: &mut MemoryDesk, line: &str) -> Result<String, AllocError> {
    let (name, from) = line.split_once(' ').unwrap_or((line, "0"));
    let from = from.parse::<u64>().unwrap_or(0);
    let given = read_line(alloc, desk, name, from)?;
    format!(in alloc; "read {line}: {given}\n")
}
