// A file of boards is cut into its cases: a title line each, and the board behind it.
//
//     == a track without a width
//     (kicad_pcb (version 20221018) ..
//     )
//     == a pad of another type
//     ..
ghost use Rattle.std.specs.Prelude.{◌≡◌, ◌+◌, ◌-◌, ◌<◌, ◌≤◌, ◌↔◌, ℕ, length, IsTrue, IfOk, slice_index};
ghost use Rattle.std.specs.List.{flat_map};
ghost use Rattle.board_table.specs.Cases.{IsTitleAt, case_text};

use grid_num::Memory;
use std::alloc::Global;

/// One board of the file.
#[derive(Clone, Copy)]
pub struct Case<'a> {
    /// The title line, with its mark and its line feed. Of the first case, all before the second title is its board.
    pub title: &'a [u8],
    /// The text of the board.
    pub board: &'a [u8],
}

/// Whether a line begins here that is a title: a line that begins with `== `.
fn is_title_at(text: &[u8], at: usize) -> bool
    requires { at < length text.now }
    ensures { IsTrue result ↔ IsTitleAt text.now at }
{
    (at == 0 || text[at - 1] == b'\n') && text[at..].starts_with(b"== ")
}

/// The first place from here on where a title begins, or the end of the text.
fn title_from(text: &[u8], from: usize) -> usize
    requires { from ≤ length text.now }
    ensures after { from ≤ result }
    ensures within { result ≤ length text.now }
    ensures title { result < length text.now → IsTitleAt text.now result }
    ensures first { (k : ℕ) → from ≤ k → k < result → IsTitleAt text.now k → ⊥ }
{
    'places: for at in from..text.len() {
        if is_title_at(text, at) {
            return at;
        }
    }
    text.len()
}

/// The place behind the first line feed from here on, or the end of the text.
fn line_end(text: &[u8], from: usize) -> usize
    requires { from < length text.now }
    ensures after { from < result }
    ensures within { result ≤ length text.now }
    ensures ends { result < length text.now → slice_index text.now (result - 1) ≡ 10 }
    ensures first { (k : ℕ) → from ≤ k → k + 1 < result → slice_index text.now k ≡ 10 → ⊥ }
{
    'places: for at in from..text.len() {
        if text[at] == b'\n' {
            return at + 1;
        }
    }
    text.len()
}

/// The cases of a file, in its order. Refuses for want of memory alone.
pub fn cases(alloc: Global, text: &[u8]) -> Result<Vec<Case<'_>>, Memory>
    ensures joined { IfOk result (λ v. flat_map case_text v.items ≡ text.now) }
{
    let mut found = Vec::new(alloc);
    let mut at = 0;
    'cases: while at < text.len() {
        let behind = line_end(text, at);
        let next = title_from(text, behind);
        found.push(Case {
            title: &text[at..behind],
            board: &text[behind..next],
        })?;
        at = next;
    }
    Ok(found)
}
