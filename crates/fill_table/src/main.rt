//! The program `fill_table`: it reads small boards, fills them, and prints the rings of each zone.
//! Nothing stands above it: what it prints is compared with `stdout`, which was worked out from the rules of the fill.
//! A line that begins with `== ` is a title, and the board stands behind it. Lines between the two ask for more of
//! each task: `pieces` for the numbers of pieces, spokes and parts of its fill, and `at X Y` for whether that
//! covers the point; `needs` for what it keeps away from, `spokes` for those of its pads, `anchors` for the copper
//! that holds its islands, and `reaches` for the tasks that it reaches. Corners and points are in millimetres,
//! areas twice over in square nanometres, octagons and needs in units of 2 nm, radii of copper in halves of a
//! nanometre.
#![tactic(auto)]

mod asked;
mod filling;
mod lines;
mod ranked;
mod surroundings;

use filling::{Stop, filled};
use lines::lines_of;
use std::alloc::{AllocError, Global};
use std::io;
use std::marker::Brand;
use std::sync::ledger::Blank;

/// A board's text, and what is asked of its fills.
#[derive(Drop)]
struct Case {
    questions: Vec<String>,
    text: String,
}

impl Case {
    fn new(alloc: Global) -> Case {
        Case {
            questions: Vec::new(alloc),
            text: String::new(alloc),
        }
    }

    /// Takes a line in: the board begins with the first that begins with a parenthesis.
    fn add(&mut self, line: String) -> Result<(), AllocError> {
        if self.text.is_empty() && !line.as_str().starts_with('(') {
            self.questions.push(line)?;
            return Ok(());
        }
        self.text.push_str(line.as_str())?;
        self.text.push_str("\n")
    }
}

/// What is printed of a board that is filled.
fn filled_lines(alloc: Global, case: &Case) -> Result<String, Stop> {
    let board = filled::<Brand>(alloc, case.text.as_bytes(), Blank::new(1))?;
    Ok(lines_of(alloc, &board, &case.questions)?)
}

/// What is printed of a board; of none, nothing.
fn said(alloc: Global, case: &Case) -> Result<String, AllocError> {
    if case.text.is_empty() {
        return Ok(String::new(alloc));
    }
    match filled_lines(alloc, case) {
        Ok(lines) => Ok(lines),
        Err(Stop::Memory) => String::from_str(alloc, "  out of memory\n"),
        Err(Stop::Refused) => String::from_str(alloc, "  refused\n"),
    }
}

fn main(rt: HostRuntime) -> io::Result<()> {
    let alloc = rt.alloc();
    let mut case = Case::new(alloc);
    for line in rt.lines(alloc) {
        let line = line?;
        if let Some(title) = line.as_str().strip_prefix("== ") {
            print!(rt; "{}", said(alloc, &case)?)?;
            println!(rt; "{title}")?;
            case = Case::new(alloc);
        } else {
            case.add(line)?;
        }
    }
    print!(rt; "{}", said(alloc, &case)?)?;
    Ok(())
}
