// The words of the command: what a run is to do, or what is wrong with them.
ghost use Rattle.std.specs.Prelude.{◌≡◌, IfOk};
ghost use Rattle.run_rules.specs.declared.words.WordsError.TheVariants.{Memory as no_memory};

use board_language::Rules;
use grid_num::Memory;
use std::alloc::Global;
use std::marker::Model;

/// What is wrong with the words of a command. The kinds are tried in this order.
#[derive(Clone, Copy, PartialEq, Eq, Debug)]
pub enum UsageFault {
    /// They are of no command's form: another first word, an option that the command doesn't take, that stands twice or
    /// that has no value, or another number of names.
    Words,
    /// The number of workers isn't one to nine digits with a number from 1 to 64.
    Threads,
    /// A clearance isn't a length from 2 nm to 100 mm.
    Length,
    /// The seed isn't one to twenty digits with a number below 2^64.
    Seed,
    /// The size isn't one to nine digits with a number from 1 to 200.
    Size,
    /// Two of the files have one name.
    SameName,
}

/// Why there is no command.
#[derive(Clone, Copy, PartialEq, Eq, Debug)]
pub enum WordsError {
    /// Want of memory.
    Memory,
    /// The words are none, by this fault.
    Bad(UsageFault),
}

impl From<Memory> for WordsError {
    ghost from_gives = { λ _ e. e ≡ no_memory };

    fn from(_: Memory) -> Self {
        WordsError::Memory
    }
}

/// An option of a command.
#[derive(Clone, Copy, PartialEq, Eq, Debug)]
pub enum Flag {
    /// `--threads`: how many workers there are.
    Threads,
    /// `--clearance`: the clearance that holds everywhere.
    Clearance,
    /// `--edge-clearance`: the clearance to the board's edge.
    EdgeClearance,
}

/// The name of a file. Contracts see its bytes.
#[derive(Drop)]
pub struct FileName {
    name: String,
}

impl Model for FileName {
    ghost use Rattle.std.specs.Prelude.{ℕ, List};
    ghost use Rattle.std.specs.String.{string_bytes};

    ghost Value = { List ℕ };

    ghost view = { λ n. string_bytes n.name };
}

impl FileName {
    /// The file of this name.
    ///
    /// # Errors
    ///
    /// Want of memory.
    pub fn of(alloc: Global, name: &str) -> Result<FileName, Memory>
        ensures { IfOk result (λ file. file ≡ name.now) }
    {
        Ok(FileName {
            name: String::from_str(alloc, name)?,
        })
    }

    /// The name.
    pub fn text(&self) -> &str
        ensures { result.now ≡ self.now }
    {
        self.name.as_str()
    }
}

/// What a run is to do.
#[derive(Drop)]
pub enum Command {
    /// Fill the zones of a board, and write it.
    Fill {
        input: FileName,
        output: FileName,
        threads: u32,
        rules: Rules,
    },
    /// Fill a board, apply edits to it, fill again what they change, and write it.
    Refill {
        input: FileName,
        edits: FileName,
        output: FileName,
        threads: u32,
        rules: Rules,
    },
    /// Say the report of a board.
    Report {
        input: FileName,
        rules: Rules,
    },
    /// Make a board by rule, fill its zones, and write it.
    Generate {
        seed: u64,
        size: u32,
        output: FileName,
    },
}
