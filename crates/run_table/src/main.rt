//! The program `run_table`: it runs commands over small boards in memory, and prints what each run says and complains.
//! Nothing stands above it: what it prints is compared with `stdout`, which was worked out from the rules of runs.
//! A line that begins with `== ` is a title. Behind it stand lines that ask for something, and then a board: it is the
//! file `a` of a desk in memory, over which these lines go one by one. A line is one of these, or the words of a run:
//!
//!     show F             prints a file
//!     text F, length F   prints it as a literal, or how long it is
//!     put F TEXT         makes a file of a text in which `\10\` stands for the byte 10
//!     copy F G, pad N    copies a file, or adds spaces to `a` up to a length
//!     same F G           says whether two files are there and the same
//!     rings F            prints the rings of the fills that stand in a file
//!     make SEED SIZE F   puts a board made by rule into a file, before it is filled
//!     refilled N         the line before a refill's report
//!     again F G          fills F into G, and says whether they are the same
//!     alike W | W        runs words and then others: do they end alike and say the same?
//!     fills N, outlines  whether N workers make the fills that one makes, and threads the outlines
//!     end W              a run of one worker; how it ends is told in full
//!     desk N I J         a fresh desk, whose calls take and give N bytes, and whose calls I and J fail
//!     faults N W         runs over fresh desks: of the first the first call fails, and so on up to N
//!     pass F TEXT        creates a file, and passes a text to it and to both outputs
//!     read F N, told     reads a file from byte N on, or prints what the desk tells
//!     reserved N         a desk that never fails, whose calls take and give N bytes
//!     unworded           a run without words over such a desk
//!     words W            the command that words are, or their first fault
//!     breaking N AT LINE what is complained of an edit that breaks its board
#![tactic(auto)]

mod asked;
mod boards;
mod case;
mod desks;
mod faults;
mod files;
mod fills_read;
mod lines;
mod made;
mod reserved;
mod runs;
mod workers;

use case::Case;
use lines::case_shown;
use std::io;

fn main(rt: HostRuntime) -> io::Result<()> {
    let alloc = rt.alloc();
    let mut case = Case::new(alloc);
    for line in rt.lines(alloc) {
        let line = line?;
        if let Some(title) = line.as_str().strip_prefix("== ") {
            print!(rt; "{}", case_shown(&rt, alloc, &case)?)?;
            println!(rt; "== {title}")?;
            case = Case::new(alloc);
        } else {
            case.add(line)?;
        }
    }
    print!(rt; "{}", case_shown(&rt, alloc, &case)?)?;
    Ok(())
}
