// A desk that never fails.
use crate::desks::{pass_on, read_line, taken_line};
use crate::files::text_of;
use crate::runs::end_by_one;
use desk::{Failed, NeverFails};
use grid_num::Memory;
use run_rules::status;
use std::alloc::{AllocError, Global};
use std::marker::Brand;
use std::sync::ledger::Blank;

/// Passes on to a desk that never fails, where there is room.
fn pass_within(desk: &mut NeverFails, name: &str, piece: &[u8]) -> Option<Result<usize, Failed>> {
    let wanted = piece.len().checked_mul(3)?.checked_add(name.len())?;
    if wanted > desk.room() {
        return None;
    }
    Some(pass_on(desk, name, piece))
}

/// What is taken of a piece by a desk that never fails, and the room that is left.
fn reserved_line(alloc: Global, desk: &mut NeverFails, name: &str) -> Result<String, AllocError> {
    let taken = match pass_within(desk, name, b"hello") {
        Some(taken) => taken_line(alloc, taken)?,
        None => String::from_str(alloc, "no room")?,
    };
    format!(in alloc; "  pass {name:?}: {taken} room {}\n", desk.room())
}

/// What a file of a desk that never fails holds.
fn holds_line(alloc: Global, desk: &NeverFails, name: &str) -> Result<String, AllocError> {
    match desk.contents(name) {
        Some(bytes) => format!(in alloc; "  {name:?} holds {:?}\n", text_of(bytes)),
        None => format!(in alloc; "  {name:?} isn't there\n"),
    }
}

/// Adds what is passed on to a file `out` and to one whose name has no bytes, and what the files hold then.
fn add_passed(alloc: Global, all: &mut String, desk: &mut NeverFails) -> Result<(), AllocError> {
    for name in ["out", ""] {
        all.push_str(reserved_line(alloc, desk, name)?.as_str())?;
    }
    for name in ["in", "out", "", "no"] {
        all.push_str(holds_line(alloc, desk, name)?.as_str())?;
    }
    Ok(())
}

/// Prints what a desk does that never fails, has room for 100 bytes, and takes and gives at most `step` bytes a call.
/// Two files lie on it.
pub fn reserved_shown(alloc: Global, step: &str) -> Result<String, Memory> {
    let size = step.parse::<usize>().unwrap_or(1).max(1);
    let mut desk = NeverFails::new(alloc, size, 100)?;
    desk.put("in", b"hello")?;
    desk.put("", b"a name of no bytes")?;
    let mut all = format!(in alloc; "reserved {step}: room {}\n", desk.room())?;
    add_passed(alloc, &mut all, &mut desk)?;
    let one = read_line(alloc, &mut desk, "in", 1)?;
    let none = read_line(alloc, &mut desk, "no", 0)?;
    let said = text_of(desk.said());
    let complained = text_of(desk.complained());
    let heard = format!(in alloc;
        "  reads {one}, {none}\n  said {said:?} complained {complained:?}\n"
    )?;
    all.push_str(heard.as_str())?;
    Ok(all)
}

/// Prints how a run without words ends over a desk that never fails: its room is enough for the complaint, and no file
/// is due.
pub fn unworded_shown(alloc: Global) -> Result<String, Memory> {
    let words = Vec::new(alloc);
    let mut desk = NeverFails::new(alloc, 7, 256)?;
    let ended = end_by_one::<NeverFails, Brand>(alloc, &words, &mut desk, Blank::new(1));
    Ok(format!(in alloc;
        "unworded: {} {ended:?}\n{}",
        status(&ended),
        text_of(desk.complained())
    )?)
}
