//! The program `text_table`: it reads a table of texts, line by line, and prints each line with what the calls answer.
//! Nothing stands above it: what it prints is compared with `stdout`, which was written from the rules of texts.
//! Places are numbers of bytes, lengths nanometres. In a text `%` and two hexadecimal digits stand for a byte.
//!
//!     times 64 (           puts its text so many times before the next text
//!     line (net 1)         puts its text and a line feed before the next text
//!     text a %C3%A9)       the text is what was put before it, and this: is it one, or what is its fault
//!     fronts               of each front of the text: is it one, or what is its fault
//!     at zone pts #1       asks the list with this head in the list with that head from here on; `#1` is the list number 1
//!     items, head, ..      what stands in that list: see nodes.rt and parts.rt
//!     stamp, net, ..       what is kept of a board while it is read: see kept.rt
#![tactic(auto)]

mod faults;
mod kept;
mod nodes;
mod parts;
mod spelling;

use board_text::{Part, first_of};
use grid_num::{Memory, NumFault};
use kept::Kept;
use sexpr_text::{TextError, Tree, read};
use spelling::bytes_of;
use std::alloc::Global;
use std::{io, mem};

/// An answer, empty where there is nothing to say; None where the line is none of the table's.
type Answer = Result<Option<String>, Memory>;

/// What the lines so far have put down.
#[derive(Drop)]
struct Table {
    /// What stands before the next text.
    front: Vec<u8>,
    text: Vec<u8>,
    /// The words that name the list which is asked.
    path: String,
    kept: Kept,
}

impl Table {
    fn new(alloc: Global) -> Table {
        Table {
            front: Vec::new(alloc),
            text: Vec::new(alloc),
            path: String::new(alloc),
            kept: Kept::new(alloc),
        }
    }

    /// Puts bytes so many times before the next text.
    fn put_times(&mut self, alloc: Global, rest: &str) -> Answer {
        let Some((count, spelled)) = rest.split_once(' ') else {
            return Ok(None);
        };
        let Ok(count) = count.parse::<u32>() else {
            return Ok(None);
        };
        let bytes = bytes_of(alloc, spelled)?;
        'times: for _ in 0..count {
            self.front.extend_from_slice(&bytes)?;
        }
        Ok(Some(String::new(alloc)))
    }

    /// Puts bytes and a line feed before the next text.
    fn put_line(&mut self, alloc: Global, rest: &str) -> Answer {
        let bytes = bytes_of(alloc, rest)?;
        self.front.extend_from_slice(&bytes)?;
        self.front.push(b'\n')?;
        Ok(Some(String::new(alloc)))
    }

    /// Puts the text down, and says whether it is one. Its root is asked from now on.
    fn put_text(&mut self, alloc: Global, rest: &str) -> Answer {
        let bytes = bytes_of(alloc, rest)?;
        self.front.extend_from_slice(&bytes)?;
        self.text = mem::replace(&mut self.front, Vec::new(alloc));
        self.path = String::new(alloc);
        Ok(Some(faults::verdict(alloc, &self.text)?))
    }

    /// Asks another list from now on, and says where it stands.
    fn put_path(&mut self, alloc: Global, rest: &str) -> Answer {
        self.path = String::from_str(alloc, rest)?;
        self.ask(alloc, "at", "")
    }

    /// What the text answers.
    fn ask(&self, alloc: Global, command: &str, rest: &str) -> Answer {
        let tree = match read(alloc, &self.text) {
            Ok(tree) => tree,
            Err(TextError::Memory) => return Err(Memory),
            Err(TextError::Bad(_)) => return Ok(None),
        };
        is_send_and_sync(&tree);
        let path = self.path.as_str();
        if let Some(answer) = nodes::answer(alloc, &tree, &self.text, path, command)? {
            return Ok(Some(answer));
        }
        match parts::part_at(alloc, Part::root(&tree, &self.text), path)? {
            Some(part) => parts::answer(alloc, &part, command, rest),
            None => Ok(Some(format!(in alloc; "no such list")?)),
        }
    }
}

/// Trees are sent to other threads and shared with them: no clause says so, and that this call compiles shows it.
fn is_send_and_sync<T: Send + Sync>(_: &T) {}

/// The fault that a word names.
fn fault_of(word: &str) -> Option<NumFault> {
    match word {
        "NotANumber" => Some(NumFault::NotANumber),
        "TooFine" => Some(NumFault::TooFine),
        "OutOfRange" => Some(NumFault::OutOfRange),
        _ => None,
    }
}

/// Says the first of some faults; a word that names none stands for none.
fn first_fault(alloc: Global, words: &str) -> Answer {
    let faults: Vec<Option<NumFault>> = words.split_whitespace().map(fault_of).collect(alloc)?;
    parts::fault_line(alloc, first_of(&faults))
}

/// What a line answers.
fn answer(alloc: Global, table: &mut Table, line: &str) -> Answer {
    let (command, rest) = line.split_once(' ').unwrap_or((line, ""));
    match command {
        "" | "#" => Ok(Some(String::new(alloc))),
        "times" => table.put_times(alloc, rest),
        "line" => table.put_line(alloc, rest),
        "text" => table.put_text(alloc, rest),
        "fronts" => Ok(Some(faults::fronts(alloc, &table.text)?)),
        "at" => table.put_path(alloc, rest),
        "first-fault" => first_fault(alloc, rest),
        _ => match table.kept.answer(alloc, command, rest)? {
            Some(answer) => Ok(Some(answer)),
            None => table.ask(alloc, command, rest),
        },
    }
}

fn main(rt: HostRuntime) -> io::Result<()> {
    let alloc = rt.alloc();
    let mut table = Table::new(alloc);
    for line in rt.lines(alloc) {
        let line = line?;
        match answer(alloc, &mut table, line.as_str()) {
            Ok(Some(text)) if text.is_empty() => println!(rt; "{line}")?,
            Ok(Some(text)) if text.as_str().starts_with('\n') => println!(rt; "{line}:{text}")?,
            Ok(Some(text)) => println!(rt; "{line}: {text}")?,
            Ok(None) => println!(rt; "{line}: not understood")?,
            Err(Memory) => println!(rt; "{line}: out of memory")?,
        }
    }
    Ok(())
}
