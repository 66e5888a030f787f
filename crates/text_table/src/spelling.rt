// Bytes as a line spells them: `%` and two hexadecimal digits stand for a byte, everything else for itself.
ghost use Rattle.std.specs.Prelude.{IfSome, ◌<◌};

use grid_num::Memory;
use std::alloc::Global;

/// What a hexadecimal digit stands for.
fn digit(byte: u8) -> Option<u8>
    ensures { IfSome result (λ n. n < 16) }
{
    match byte {
        b'0'..=b'9' => Some(byte - b'0'),
        b'A'..=b'F' => Some(byte - b'A' + 10),
        _ => None,
    }
}

/// The byte that two digits stand for.
fn byte_of(high: u8, low: u8) -> Option<u8> {
    Some(16 * digit(high)? + digit(low)?)
}

/// Adds what stands behind a `%`: the byte of two digits and the rest; without the digits all stands for itself.
fn add_piece(bytes: &mut Vec<u8>, piece: &[u8]) -> Result<(), Memory> {
    if let [high, low, rest @ ..] = piece {
        if let Some(byte) = byte_of(*high, *low) {
            bytes.push(byte)?;
            bytes.extend_from_slice(rest)?;
            return Ok(());
        }
    }
    bytes.push(b'%')?;
    bytes.extend_from_slice(piece)?;
    Ok(())
}

/// The bytes that are spelled.
pub fn bytes_of(alloc: Global, spelled: &str) -> Result<Vec<u8>, Memory> {
    let mut bytes = Vec::new(alloc);
    let mut is_first = true;
    'pieces: for piece in spelled.as_bytes().split(|byte| *byte == b'%') {
        if is_first {
            bytes.extend_from_slice(piece)?;
        } else {
            add_piece(&mut bytes, piece)?;
        }
        is_first = false;
    }
    Ok(bytes)
}

/// Adds a byte as it is spelled.
fn add_byte(alloc: Global, spelled: &mut String, byte: u8) -> Result<(), Memory> {
    if byte != b'%' && (b' '..=b'~').contains(&byte) {
        spelled.push(char::from(byte))?;
    } else {
        spelled.push_str(format!(in alloc; "%{byte:02X}")?.as_str())?;
    }
    Ok(())
}

/// How bytes are spelled.
pub fn spelled(alloc: Global, bytes: &[u8]) -> Result<String, Memory> {
    let mut spelled = String::new(alloc);
    'bytes: for byte in bytes {
        add_byte(alloc, &mut spelled, *byte)?;
    }
    Ok(spelled)
}
