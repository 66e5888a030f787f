// The lines of a script, and the words of a line.
ghost use Rattle.std.specs.Prelude.{◌≡◌, ◌<◌, ◌≤◌, ◌∷◌, length, map, option_map, IfOk, IfSome};
ghost use Rattle.std.specs.List.{position_or_len};
ghost use Rattle.edit_language.specs.Lines.{pieces, is_line_feed, is_blank, has_bytes, words_of, is_passed_over};
ghost use Rattle.board_edit.specs.Inner.Reading.{pieces_left};

use grid_num::starts_with;
use std::alloc::{AllocError, Global};

/// How many bytes stand before the first line feed of a text; all where it has none.
fn line_end(text: &[u8]) -> usize
    ensures value { result ≡ position_or_len is_line_feed text.now }
    ensures within { result ≤ length text.now }
{
    text.iter().take_while(|byte| **byte != b'\n').count()
}

/// The first line of a text, and what stands behind its line feed.
pub fn first_line(text: &[u8]) -> (&[u8], Option<&[u8]>)
    ensures lines { pieces is_line_feed text.now ≡ result.0.now ∷ pieces_left (option_map (λ t. t.now) result.1) }
    ensures shorter { IfSome result.1 (λ behind. length behind.now < length text.now) }
{
    let end = line_end(text);
    if end < text.len() {
        (&text[..end], Some(&text[end + 1..]))
    } else {
        (text, None)
    }
}

/// Whether words stand apart by this byte.
fn is_blank(byte: u8) -> bool
    ensures { result ≡ is_blank byte }
{
    byte == b' ' || byte == b'\t' || byte == b'\r'
}

/// Whether a piece of a line is a word.
fn has_bytes(piece: &[u8]) -> bool
    ensures { result ≡ has_bytes piece.now }
{
    !piece.is_empty()
}

/// The words of a line.
///
/// # Errors
///
/// Want of memory.
pub fn words_of(alloc: Global, line: &[u8]) -> Result<Vec<&[u8]>, AllocError>
    ensures { IfOk result (λ v. map (λ word. word.now) v.items ≡ words_of line.now) }
{
    line.split(|byte| is_blank(*byte))
        .filter(|piece| has_bytes(piece))
        .collect(alloc)
}

/// Whether a line of these words says nothing.
pub fn is_passed_over(words: &[&[u8]]) -> bool
    ensures { result ≡ is_passed_over (map (λ word. word.now) words.now) }
{
    match words {
        [] => true,
        [word, ..] => starts_with(word, b'#'),
    }
}
