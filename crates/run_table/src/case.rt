// A case: lines that ask for something, and a board.
ghost use Rattle.std.specs.Prelude.{◌<◌};
ghost use Rattle.std.specs.List.Sorted.{IsStrictlyIncreasing};

use desk::MemoryDesk;
use grid_num::Memory;
use std::alloc::{AllocError, Global};

/// Lines that ask for something, and the board that they ask it of.
#[derive(Drop)]
pub struct Case {
    pub lines: Vec<String>,
    board: String,
}

impl Case {
    /// No line is read yet.
    pub fn new(alloc: Global) -> Case {
        Case {
            lines: Vec::new(alloc),
            board: String::new(alloc),
        }
    }

    /// Takes a line in: the board begins with the first that begins with a parenthesis.
    pub fn add(&mut self, line: String) -> Result<(), AllocError> {
        if self.board.is_empty() && !line.as_str().starts_with('(') {
            self.lines.push(line)?;
            return Ok(());
        }
        self.board.push_str(line.as_str())?;
        self.board.push_str("\n")
    }

    /// A desk on which the board is the file `a`. Its calls take and give at most `step` bytes, and those of the listed
    /// numbers fail.
    pub fn desk(&self, alloc: Global, step: usize, failing: &[u64]) -> Result<MemoryDesk, Memory>
        requires step { 0 < step }
        requires ascend { IsStrictlyIncreasing failing.now }
    {
        let mut desk = MemoryDesk::new(alloc, step, failing)?;
        desk.put("a", self.board.as_bytes())?;
        Ok(desk)
    }
}
