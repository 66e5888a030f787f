// The forms of words, and the words that each edit has.
ghost use Rattle.std.specs.Prelude.{◌≡◌, ◌<◌, ◌^◌, ◌==◌, ◌&&◌, not, nat_lt, nat_le, true, length, map, option_map};
ghost use Rattle.std.specs.List.{list_all};
ghost use Rattle.std.specs.Char.{is_ascii_digit};
ghost use Rattle.grid_num.specs.Spelling.{number};
ghost use Rattle.edit_language.specs.Forms as forms;
ghost use Rattle.board_edit.specs.Inner.Words.{meant};

use board_text::{are_digits, length_fault, length_of, whole_fault};
use edit_language::EditKind;

/// What stands for what in a line.
#[derive(Clone, Copy)]
pub enum Form {
    /// A length in millimetres.
    Length,
    /// One that isn't negative.
    Size,
    /// A whole number.
    Whole,
    /// A layer or a stamp.
    Name,
}

fn is_length(word: &[u8]) -> bool
    ensures { result ≡ forms.is_length word.now }
{
    length_fault(word).is_none()
}

fn is_size(word: &[u8]) -> bool
    ensures { result ≡ forms.has_form forms.Size word.now }
{
    is_length(word) && length_of(word) >= 0
}

/// Whether it has some bytes, and at most so many.
fn is_short(word: &[u8], most: usize) -> bool
    ensures { result ≡ (not (length word.now == 0) && nat_le (length word.now) most) }
{
    !word.is_empty() && word.len() <= most
}

/// Whether some digits spell a number below 2 to the 32nd.
fn is_small(digits: &[u8]) -> bool
    requires digits { list_all is_ascii_digit digits.now ≡ true }
    requires some { 0 < length digits.now }
    ensures { result ≡ nat_lt (number digits.now) (2 ^ 32) }
{
    whole_fault(digits).is_none()
}

fn is_whole_word(word: &[u8]) -> bool
    ensures { result ≡ forms.is_whole_word word.now }
{
    if !are_digits(word) {
        return false;
    }
    if !is_short(word, 10) {
        return false;
    }
    is_small(word)
}

fn is_name_byte(byte: u8) -> bool
    ensures { result ≡ forms.is_name_byte byte }
{
    byte.is_ascii_alphanumeric() || byte == b'.' || byte == b'-' || byte == b'_'
}

fn are_name_bytes(word: &[u8]) -> bool
    ensures { result ≡ list_all forms.is_name_byte word.now }
{
    word.iter().all(|byte| is_name_byte(*byte))
}

fn is_script_name(word: &[u8]) -> bool
    ensures { result ≡ forms.is_script_name word.now }
{
    are_name_bytes(word) && is_short(word, 64)
}

/// Whether a word has the form that is wanted of it.
pub fn has_form(form: Form, word: &[u8]) -> bool
    ensures { result ≡ forms.has_form (meant form) word.now }
{
    match form {
        Form::Length => is_length(word),
        Form::Size => is_size(word),
        Form::Whole => is_whole_word(word),
        Form::Name => is_script_name(word),
    }
}

/// What is wrong where a word of this form is wanted and another one stands.
pub fn fault_for(form: Form) -> EditKind
    ensures { result ≡ forms.fault_for (meant form) }
{
    match form {
        Form::Length | Form::Size | Form::Whole => EditKind::BadNumber,
        Form::Name => EditKind::BadWord,
    }
}

/// The forms of the words behind the first one; none where no edit begins with it.
#[tactic(auto, unfolding(edit_language::specs::Forms::forms_of))]
pub fn forms_of(word: &[u8]) -> Option<&'static [Form]>
    ensures { option_map (λ f. map meant f.now) result ≡ forms.forms_of word.now }
{
    use Form::{Length, Name, Size, Whole};
    if word == b"track".as_slice() {
        Some(&[Length, Length, Length, Length, Size, Name, Whole, Name])
    } else if word == b"via".as_slice() {
        Some(&[Length, Length, Size, Size, Name, Name, Whole, Name])
    } else if word == b"drop".as_slice() {
        Some(&[Name])
    } else if word == b"priority".as_slice() {
        Some(&[Name, Whole])
    } else if word == b"clearance".as_slice() {
        Some(&[Name, Size])
    } else {
        None
    }
}
