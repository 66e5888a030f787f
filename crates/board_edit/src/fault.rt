// What is wrong in a line.
ghost use Rattle.std.specs.Prelude.{◌≡◌, map};
ghost use Rattle.edit_language.specs.Lines.{Line};
ghost use Rattle.edit_language.specs.Forms as forms;
ghost use Rattle.board_edit.specs.Inner.Words.{meant};

use crate::form::{Form, fault_for, forms_of, has_form};
use edit_language::EditKind;

/// What is wrong with the first word that isn't of its form.
fn first_misfit(wanted: &[Form], words: &[&[u8]]) -> Option<EditKind>
    ensures { result ≡ forms.first_misfit (map meant wanted.now) (map (λ word. word.now) words.now) }
{
    'words: for place in 0..wanted.len().min(words.len()) {
        let form = wanted[place];
        if !has_form(form, words[place]) {
            return Some(fault_for(form));
        }
    }
    None
}

/// What is wrong with the words behind the first one, by their number and then by their forms.
fn fault_by(wanted: &[Form], words: &[&[u8]]) -> Option<EditKind>
    ensures { result ≡ forms.fault_by (Some (map meant wanted.now)) (map (λ word. word.now) words.now) }
{
    if words.len() < wanted.len() {
        Some(EditKind::TooFewWords)
    } else if wanted.len() < words.len() {
        Some(EditKind::TooManyWords)
    } else {
        first_misfit(wanted, words)
    }
}

/// What is wrong with the words of a line, if something is.
fn words_fault(words: &[&[u8]]) -> Option<EditKind>
    ensures { result ≡ forms.words_fault (map (λ word. word.now) words.now) }
{
    let [first, others @ ..] = words else {
        return Some(EditKind::BadWord);
    };
    match forms_of(first) {
        Some(wanted) => fault_by(wanted, others),
        None => Some(EditKind::BadWord),
    }
}

/// What is wrong in a line of these words behind so many edits.
#[tactic(auto, unfolding(edit_language::specs::Forms::fault_of))]
pub fn fault_of(before: usize, words: &[&[u8]]) -> Option<EditKind>
    ensures { (line : Line) → line.words ≡ map (λ word. word.now) words.now → result ≡ forms.fault_of before line }
{
    if before >= 10_000 {
        Some(EditKind::TooLong)
    } else {
        words_fault(words)
    }
}
