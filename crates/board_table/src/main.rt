//! The program `board_table`: it reads a file of small boards, and says of each what `Board::read` gives.
//! Nothing stands above it: what it says is compared with `stdout`, which was written from the rules of the board.
//! In a board the line `3 times (net 1)` stands for three lines `(net 1)`; places are counted in the whole text.
//! Lengths are in nanometres, corners of outlines in units of 2 nm, shapes in halves of a nanometre, places in bytes.
#![tactic(auto)]

mod add;
mod cases;
mod copper;
mod outlines;
mod repeats;
mod saying;
mod table;
mod verdict;

use desk::{Desk, Failed, ReadStop, RealDesk, read_all};
use grid_num::Memory;
use saying::say_all;
use std::alloc::Global;
use std::process::ExitCode;
use std::rt::Files;
use table::table;

/// The file of the boards, in the folder that the program runs in.
const BOARDS: &str = "boards.txt";

/// Why the program ends without having said all.
enum Stop {
    Memory,
    Failed,
}

impl From<ReadStop> for Stop {
    fn from(stop: ReadStop) -> Self {
        match stop {
            ReadStop::Memory => Stop::Memory,
            ReadStop::Failed | ReadStop::TooLong => Stop::Failed,
        }
    }
}

impl From<Memory> for Stop {
    fn from(_: Memory) -> Self {
        Stop::Memory
    }
}

impl From<Failed> for Stop {
    fn from(_: Failed) -> Self {
        Stop::Failed
    }
}

fn run<R: Files + Print + Eprint>(alloc: Global, desk: &mut RealDesk<'_, R>) -> Result<(), Stop> {
    let boards = read_all(alloc, BOARDS, desk)?;
    let lines = table(alloc, &boards)?;
    say_all(&lines, desk)?;
    Ok(())
}

fn main(rt: HostRuntime) -> ExitCode {
    let mut desk = RealDesk::new(&rt);
    match run(rt.alloc(), &mut desk) {
        Ok(()) => ExitCode::SUCCESS,
        Err(Stop::Failed) => ExitCode::from(3),
        Err(Stop::Memory) => ExitCode::from(4),
    }
}
