// The edit of a line without a fault.
ghost use Rattle.std.specs.Prelude.{◌≡◌, ◌<◌, true, None, map, codes, IfOk};
ghost use Rattle.edit_language.specs.Lines.{Line};
ghost use Rattle.edit_language.specs.Forms.{is_whole_word, words_fault};
ghost use Rattle.edit_language.specs.Scripts as scripts;

use board_items::size_of;
use board_language::Name;
use board_text::{length_of, whole_number};
use edit_language::Edit;
use grid_num::{Memory, Point};
use std::alloc::Global;

/// Whether a line of these words begins with this one.
fn says_first(words: &[&[u8]], text: &[u8]) -> bool
    ensures { result ≡ scripts.says_first text.now (map (λ word. word.now) words.now) }
{
    match words {
        [] => text.is_empty(),
        [word, ..] => *word == text,
    }
}

/// The word at a place behind the first one; the empty word where none stands there.
fn word_at<'a>(words: &[&'a [u8]], place: usize) -> &'a [u8]
    requires { place < 10 }
    ensures { result.now ≡ scripts.word_at place (map (λ word. word.now) words.now) }
{
    match words.get(place + 1) {
        Some(word) => word,
        None => b"",
    }
}

/// The point of the lengths at a place and behind it.
fn point_at(words: &[&[u8]], place: usize) -> Point
    requires { place < 9 }
    ensures { result ≡ scripts.point_in_words place (map (λ word. word.now) words.now) }
{
    Point {
        x: length_of(word_at(words, place)),
        y: length_of(word_at(words, place + 1)),
    }
}

/// The length at a place.
fn size_at(words: &[&[u8]], place: usize) -> u32
    requires { place < 10 }
    ensures { result ≡ scripts.size_at place (map (λ word. word.now) words.now) }
{
    size_of(length_of(word_at(words, place)))
}

/// The whole number at a place.
fn whole_at(words: &[&[u8]], place: usize) -> u32
    requires place { place < 10 }
    requires whole { is_whole_word (scripts.word_at place (map (λ word. word.now) words.now)) ≡ true }
    ensures { result ≡ scripts.whole_at place (map (λ word. word.now) words.now) }
{
    whole_number(word_at(words, place))
}

/// The layer or stamp at a place.
fn name_at(alloc: Global, words: &[&[u8]], place: usize) -> Result<Name, Memory>
    requires { place < 10 }
    ensures { IfOk result (λ name. name ≡ scripts.word_at place (map (λ word. word.now) words.now)) }
{
    Name::of(alloc, word_at(words, place))
}

fn track_edit(alloc: Global, words: &[&[u8]]) -> Result<Edit, Memory>
    requires { is_whole_word (scripts.word_at 6 (map (λ word. word.now) words.now)) ≡ true }
    ensures { IfOk result (λ edit. edit ≡ scripts.track_edit (map (λ word. word.now) words.now)) }
{
    Ok(Edit::Track {
        from: point_at(words, 0),
        to: point_at(words, 2),
        width: size_at(words, 4),
        layer: name_at(alloc, words, 5)?,
        net: whole_at(words, 6),
        stamp: name_at(alloc, words, 7)?,
    })
}

fn via_edit(alloc: Global, words: &[&[u8]]) -> Result<Edit, Memory>
    requires { is_whole_word (scripts.word_at 6 (map (λ word. word.now) words.now)) ≡ true }
    ensures { IfOk result (λ edit. edit ≡ scripts.via_edit (map (λ word. word.now) words.now)) }
{
    Ok(Edit::Via {
        at: point_at(words, 0),
        size: size_at(words, 2),
        drill: size_at(words, 3),
        top: name_at(alloc, words, 4)?,
        bottom: name_at(alloc, words, 5)?,
        net: whole_at(words, 6),
        stamp: name_at(alloc, words, 7)?,
    })
}

/// The edit that a line of these words says, by its first word.
#[tactic(auto, unfolding(edit_language::specs::Scripts::edit_of))]
pub fn edit_of(alloc: Global, words: &[&[u8]]) -> Result<Edit, Memory>
    requires { words_fault (map (λ word. word.now) words.now) ≡ None }
    ensures { IfOk result (λ edit. (line : Line) → line.words ≡ map (λ word. word.now) words.now → edit ≡ scripts.edit_of line) }
{
    if says_first(words, b"track") {
        return track_edit(alloc, words);
    }
    if says_first(words, b"via") {
        return via_edit(alloc, words);
    }
    let stamp = name_at(alloc, words, 0)?;
    if says_first(words, b"drop") {
        Ok(Edit::Drop { stamp })
    } else if says_first(words, b"priority") {
        let value = whole_at(words, 1);
        Ok(Edit::Priority { stamp, value })
    } else {
        let value = size_at(words, 1);
        Ok(Edit::Clearance { stamp, value })
    }
}
