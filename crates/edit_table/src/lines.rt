// What is printed of a case.
use crate::case::Case;
use crate::changes::{Outcome, Refused, Stop, outcome_of};
use board_edit::{EditFault, EditRefusal};
use std::alloc::{AllocError, Global};
use std::str;

/// The line of a script's first fault.
fn fault_line(alloc: Global, fault: EditFault) -> Result<String, AllocError> {
    let EditFault { line, kind } = fault;
    format!(in alloc; "script: line {line}: {kind:?}\n")
}

/// The line of the edit that is refused.
fn refusal_line(alloc: Global, refused: &Refused) -> Result<String, AllocError> {
    let number = refused.number;
    match refused.refusal {
        EditRefusal::Breaks(offence) => format!(in alloc;
            "edit {number}: line {}: {:?}\n",
            offence.line, offence.kind
        ),
        refusal => format!(in alloc; "edit {number}: {refusal:?}\n"),
    }
}

/// The edit that is refused, if one is, and then the text.
fn outcome_lines(alloc: Global, outcome: &Outcome) -> Result<String, AllocError> {
    let mut lines = match &outcome.refused {
        Some(refused) => refusal_line(alloc, refused)?,
        None => String::new(alloc),
    };
    lines.push_str(str::from_utf8(&outcome.text).unwrap_or("no UTF-8\n"))?;
    Ok(lines)
}

/// What is printed of a case; of an empty one, nothing.
pub fn said(alloc: Global, case: &Case) -> Result<String, AllocError> {
    if case.board().is_empty() {
        return Ok(String::new(alloc));
    }
    match outcome_of(alloc, case.script(), case.board()) {
        Ok(outcome) => outcome_lines(alloc, &outcome),
        Err(Stop::Script(fault)) => fault_line(alloc, fault),
        Err(Stop::Board) => String::from_str(alloc, "the board is refused\n"),
        Err(Stop::Memory) => String::from_str(alloc, "out of memory\n"),
    }
}
