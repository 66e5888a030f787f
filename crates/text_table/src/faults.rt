// Whether bytes are a text, or where their fault stands and of what kind it is.
use grid_num::Memory;
use sexpr_text::{TextError, TextFault, TextKind, read};
use std::alloc::Global;

/// The fault of bytes that are no text.
fn fault_of(alloc: Global, bytes: &[u8]) -> Result<Option<TextFault>, Memory> {
    match read(alloc, bytes) {
        Ok(_) => Ok(None),
        Err(TextError::Bad(fault)) => Ok(Some(fault)),
        Err(TextError::Memory) => Err(Memory),
    }
}

/// Says whether bytes are a text, or their fault.
pub fn verdict(alloc: Global, bytes: &[u8]) -> Result<String, Memory> {
    match fault_of(alloc, bytes)? {
        None => Ok(format!(in alloc; "a text")?),
        Some(fault) => Ok(format!(in alloc; "{:?} at {}", fault.kind, fault.at)?),
    }
}

/// What is said of a front of a text: whether it is one, else the kind of its fault, and the place unless it is the end.
#[derive(Clone, Copy, PartialEq, Eq)]
enum OfFront {
    Text,
    AtEnd(TextKind),
    At(TextKind, usize),
}

/// What is said of a front.
fn of_front(alloc: Global, front: &[u8]) -> Result<OfFront, Memory> {
    match fault_of(alloc, front)? {
        None => Ok(OfFront::Text),
        Some(fault) if fault.at == front.len() => Ok(OfFront::AtEnd(fault.kind)),
        Some(fault) => Ok(OfFront::At(fault.kind, fault.at)),
    }
}

/// Fronts of which the same is said, from one length to another.
#[derive(Clone, Copy)]
struct Run {
    from: usize,
    to: usize,
    said: OfFront,
}

/// Adds the line of such fronts.
fn add_run(alloc: Global, lines: &mut String, run: Run) -> Result<(), Memory> {
    let Run { from, to, said } = run;
    let line = match said {
        OfFront::Text => format!(in alloc; "\n  {from} to {to}: a text")?,
        OfFront::AtEnd(kind) => format!(in alloc; "\n  {from} to {to}: {kind:?} at the end")?,
        OfFront::At(kind, at) => format!(in alloc; "\n  {from} to {to}: {kind:?} at {at}")?,
    };
    lines.push_str(line.as_str())?;
    Ok(())
}

/// Says of all fronts of a text, from the empty one on, what is said of each: a line for each length where it changes.
pub fn fronts(alloc: Global, bytes: &[u8]) -> Result<String, Memory> {
    let mut lines = String::new(alloc);
    let mut run = Run {
        from: 0,
        to: 0,
        said: of_front(alloc, b"")?,
    };
    'lengths: for length in 1..=bytes.len() {
        let said = of_front(alloc, &bytes[..length])?;
        if said != run.said {
            add_run(alloc, &mut lines, run)?;
            run.from = length;
            run.said = said;
        }
        run.to = length;
    }
    add_run(alloc, &mut lines, run)?;
    Ok(lines)
}
