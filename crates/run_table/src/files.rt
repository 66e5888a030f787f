// Files of a desk in memory: what they hold, and what is put in them.
use desk::MemoryDesk;
use grid_num::Memory;
use std::alloc::{AllocError, Global};
use std::str;

pub fn text_of(bytes: &[u8]) -> &str {
    str::from_utf8(bytes).unwrap_or("no text")
}

/// What stands behind so many first bytes.
pub fn behind(bytes: &[u8], count: usize) -> &[u8] {
    bytes.get(count..).unwrap_or(b"")
}

/// Whether both files are there, with the same bytes.
pub fn are_same(desk: &MemoryDesk, one: &str, other: &str) -> bool {
    desk.contents(one).is_some() && desk.contents(one) == desk.contents(other)
}

/// Prints a file, line by line.
pub fn file_shown(alloc: Global, desk: &MemoryDesk, name: &str) -> Result<String, AllocError> {
    let text = text_of(desk.contents(name).unwrap_or(b"nothing\n"));
    format!(in alloc; "show {name}:\n{text}")
}

/// Prints a file on one line, as a Rust literal.
pub fn literal_shown(alloc: Global, desk: &MemoryDesk, name: &str) -> Result<String, AllocError> {
    match desk.contents(name) {
        Some(bytes) => format!(in alloc; "text {name}: {:?}\n", text_of(bytes)),
        None => format!(in alloc; "text {name}: nothing\n"),
    }
}

/// Says how many bytes a file has.
pub fn length_shown(alloc: Global, desk: &MemoryDesk, name: &str) -> Result<String, AllocError> {
    match desk.contents(name) {
        Some(bytes) => format!(in alloc; "length {name}: {}\n", bytes.len()),
        None => format!(in alloc; "length {name}: nothing\n"),
    }
}

/// Says whether two files are there, with the same bytes.
pub fn same_shown(alloc: Global, desk: &MemoryDesk, names: &str) -> Result<String, AllocError> {
    let (one, other) = names.split_once(' ').unwrap_or((names, ""));
    let said = if are_same(desk, one, other) {
        "the same"
    } else {
        "another"
    };
    format!(in alloc; "same {names}: {said}\n")
}

/// Adds a text, or where it is a number the byte of that number.
fn add_piece(bytes: &mut Vec<u8>, piece: &str, is_number: bool) -> Result<(), AllocError> {
    match (is_number, piece.parse::<u8>()) {
        (true, Ok(byte)) => {
            bytes.push(byte)?;
            Ok(())
        }
        _ => bytes.extend_from_slice(piece.as_bytes()),
    }
}

/// The bytes of a text in which `\255\` stands for the byte 255.
fn bytes_of(alloc: Global, text: &str) -> Result<Vec<u8>, AllocError> {
    let mut bytes = Vec::new(alloc);
    let mut is_number = false;
    'each: for piece in text.split('\\') {
        add_piece(&mut bytes, piece, is_number)?;
        is_number = !is_number;
    }
    Ok(bytes)
}

/// Puts a text in place of a file, and makes the file where it isn't there.
pub fn put_shown(alloc: Global, desk: &mut MemoryDesk, line: &str) -> Result<String, Memory> {
    let (name, text) = line.split_once(' ').unwrap_or((line, ""));
    desk.put(name, &bytes_of(alloc, text)?)?;
    Ok(format!(in alloc; "put {line}\n")?)
}

/// Puts the bytes of one file in place of another.
pub fn copy_shown(alloc: Global, desk: &mut MemoryDesk, names: &str) -> Result<String, Memory> {
    let (one, other) = names.split_once(' ').unwrap_or((names, ""));
    let bytes = desk.contents(one).unwrap_or(b"").to_vec(alloc)?;
    desk.put(other, &bytes)?;
    Ok(format!(in alloc; "copy {names}\n")?)
}

/// Puts spaces behind the file `a`, up to this length.
pub fn pad_shown(alloc: Global, desk: &mut MemoryDesk, length: &str) -> Result<String, Memory> {
    let mut bytes = desk.contents("a").unwrap_or(b"").to_vec(alloc)?;
    bytes.resize(length.parse::<usize>().unwrap_or(0), b' ')?;
    desk.put("a", &bytes)?;
    Ok(format!(in alloc; "pad {length}\n")?)
}
