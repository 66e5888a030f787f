// Lines of a board that stand for many: the line `3 times (net 1)` stands for three lines `(net 1)`.
use grid_num::Memory;
use std::alloc::Global;
use std::str;

/// How many lines a line stands for, and what each says.
fn repeated(line: &[u8]) -> (u32, &[u8]) {
    let Ok(text) = str::from_utf8(line) else {
        return (1, line);
    };
    let Some((count, repeated)) = text.split_once(" times ") else {
        return (1, line);
    };
    match count.parse::<u32>() {
        Ok(count) => (count, repeated.as_bytes()),
        Err(_) => (1, line),
    }
}

/// Adds what a line stands for: its lines, and a line feed behind each but the last.
fn add_lines(text: &mut Vec<u8>, line: &[u8]) -> Result<(), Memory> {
    let (count, repeated) = repeated(line);
    'times: for time in 0..count {
        if 0 < time {
            text.push(b'\n')?;
        }
        text.extend_from_slice(repeated)?;
    }
    Ok(())
}

/// The text of a board: what its lines stand for.
pub fn full_text(alloc: Global, board: &[u8]) -> Result<Vec<u8>, Memory> {
    let mut text = Vec::new(alloc);
    let mut is_first = true;
    'lines: for line in board.split(|byte| *byte == b'\n') {
        if !is_first {
            text.push(b'\n')?;
        }
        add_lines(&mut text, line)?;
        is_first = false;
    }
    Ok(text)
}
