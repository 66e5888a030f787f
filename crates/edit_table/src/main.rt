//! The program `edit_table`: it makes the edits of small scripts on small boards, and prints each edited text, or why it stops.
//! Nothing stands above it: what it prints is compared with `stdout`, which was written from the rules of edits.
//! A line that begins with `== ` is a title. Behind it stands a script up to a line `--`, and then the text of a board.
#![tactic(auto)]

mod case;
mod changes;
mod lines;

use case::Case;
use lines::said;
use std::io;

fn main(rt: HostRuntime) -> io::Result<()> {
    let alloc = rt.alloc();
    let mut case = Case::new(alloc);
    for line in rt.lines(alloc) {
        let line = line?;
        if let Some(title) = line.as_str().strip_prefix("== ") {
            print!(rt; "{}", said(alloc, &case)?)?;
            println!(rt; "== {title}")?;
            case = Case::new(alloc);
        } else {
            case.add(line.as_str())?;
        }
    }
    print!(rt; "{}", said(alloc, &case)?)?;
    Ok(())
}
