// Reads a length in millimetres.
ghost use Rattle.std.specs.Prelude.{◌≡◌, ℕ, ◌+◌, ◌-◌, ◌*◌, ◌<◌, ◌≤◌, ◌^◌, ◌↔◌, Bool, List, ℤ, min, length, true, false, IsTrue, IfOk, IfErr, OnErr, IfSome, IfNone, slice_index_or};
ghost use Rattle.std.specs.Char.{IsAsciiDigit, is_ascii_digit};
ghost use Rattle.std.specs.List.{All};
ghost use Rattle.grid_num.specs.Spelling.{IsSpelling, SpellsNone, number_after};
ghost use Rattle.grid_num.specs.Length.{IsLength, IsWholeNm, nanometres, places, with_sign};
ghost use Rattle.grid_num.specs.Faults.{HasFault};
ghost use Rattle.grid_num.specs.declared.read.NumFault.{NumFault};
ghost use Rattle.grid_num.specs.Parts.{begins_with, unsigned_of, digit_count, whole_of, after_point, fraction_of};

use crate::nm::{MOST, Nm};

/// Why a text is no length, or no area.
#[derive(Clone, Copy, PartialEq, Eq, Debug)]
pub enum NumFault {
    /// The text is no decimal number.
    NotANumber,
    /// A digit past the sixth decimal place is not 0.
    TooFine,
    /// The number is beyond the range: 500 mm to either side for a length, 0 to 1,000,000 square millimetres for an area.
    OutOfRange,
}

/// The parts of a spelling.
#[derive(Drop)]
pub(crate) struct Parts<'a> {
    pub(crate) negative: bool,
    pub(crate) whole: &'a [u8],
    pub(crate) fraction: &'a [u8],
}

/// Whether a text begins with a byte.
pub fn starts_with(text: &[u8], byte: u8) -> bool
    requires { 0 < byte }
    ensures { result ≡ begins_with text.now byte }
{
    !text.is_empty() && text[0] == byte
}

fn without_sign(text: &[u8]) -> &[u8]
    ensures { result.now ≡ unsigned_of text.now }
{
    if starts_with(text, b'-') || starts_with(text, b'+') {
        &text[1..]
    } else {
        text
    }
}

fn digits_end(text: &[u8]) -> usize
    ensures value { result ≡ digit_count text.now }
    ensures within { result ≤ length text.now }
{
    text.iter().take_while(|byte| byte.is_ascii_digit()).count()
}

fn without_point(rest: &[u8]) -> &[u8]
    ensures { result.now ≡ after_point rest.now }
{
    if starts_with(rest, b'.') {
        &rest[1..]
    } else {
        rest
    }
}

/// The digits of a text behind its sign and before its point.
pub fn whole_of(text: &[u8]) -> &[u8]
    ensures { result.now ≡ whole_of text.now }
{
    let unsigned = without_sign(text);
    &unsigned[..digits_end(unsigned)]
}

/// What stands in a text behind the point.
pub fn fraction_of(text: &[u8]) -> &[u8]
    ensures { result.now ≡ fraction_of text.now }
{
    let unsigned = without_sign(text);
    without_point(&unsigned[digits_end(unsigned)..])
}

fn are_digits(text: &[u8]) -> bool
    ensures { IsTrue result ↔ All IsAsciiDigit text.now }
{
    text.iter().all(|byte| byte.is_ascii_digit())
}

/// Whether these are the parts of a spelling.
fn is_spelt(whole: &[u8], fraction: &[u8]) -> bool
    ensures yes { IsTrue result → All IsAsciiDigit fraction.now }
    ensures some { IsTrue result → 0 < length whole.now + length fraction.now }
    ensures no { result ≡ false → All IsAsciiDigit fraction.now
        → 0 < length whole.now + length fraction.now → ⊥ }
{
    are_digits(fraction) && !(whole.is_empty() && fraction.is_empty())
}

/// The parts of a text that spells a number.
pub(crate) fn parts_of(text: &[u8]) -> Option<Parts<'_>>
    ensures found { IfSome result (λ p. IsSpelling text.now p.negative p.whole.now p.fraction.now) }
    ensures none { IfNone result (SpellsNone text.now) }
{
    let unsigned = without_sign(text);
    let (whole, rest) = unsigned.split_at(digits_end(unsigned));
    let fraction = without_point(rest);
    if !is_spelt(whole, fraction) {
        return None;
    }
    Some(Parts {
        negative: starts_with(text, b'-'),
        whole,
        fraction,
    })
}

fn are_zeros(digits: &[u8]) -> bool
    ensures { IsTrue result ↔ All (λ digit. digit ≡ 48) digits.now }
{
    digits.iter().all(|digit| *digit == b'0')
}

/// Whether no digit past the sixth place is another than 0.
pub(crate) fn is_whole_nm(fraction: &[u8]) -> bool
    ensures { IsTrue result ↔ IsWholeNm fraction.now }
{
    are_zeros(&fraction[fraction.len().min(6)..])
}

/// The number of these digits behind those of a number, where `beyond` stands for all that is greater.
fn follow(before: u64, digits: &[u8], beyond: u64) -> u64
    requires small { before ≤ beyond }
    requires room { beyond ≤ 2 ^ 40 }
    requires digits { All IsAsciiDigit digits.now }
    ensures value { result ≡ min beyond (number_after before digits.now) }
    ensures small { result ≤ beyond }
{
    let mut sum = before;
    for digit in digits {
        sum = (10 * sum + u64::from(*digit - b'0')).min(beyond);
    }
    sum
}

/// The digit at a place behind the point, from 0; the digit 0 where none is written.
pub fn place(fraction: &[u8], at: usize) -> u8
    ensures { result ≡ slice_index_or fraction.now at 48 }
{
    fraction.get(at).copied().unwrap_or(b'0')
}

fn first_places(fraction: &[u8]) -> [u8; 6]
    ensures { result ≡ places fraction.now }
{
    [
        place(fraction, 0),
        place(fraction, 1),
        place(fraction, 2),
        place(fraction, 3),
        place(fraction, 4),
        place(fraction, 5),
    ]
}

/// How many millionths the digits spell, where `beyond` stands for all that is greater.
pub(crate) fn magnitude(whole: &[u8], fraction: &[u8], beyond: u64) -> u64
    requires room { beyond ≤ 2 ^ 40 }
    requires whole { All IsAsciiDigit whole.now }
    requires fraction { All IsAsciiDigit fraction.now }
    ensures { result ≡ min beyond (nanometres whole.now fraction.now) }
{
    follow(follow(0, whole, beyond), &first_places(fraction), beyond)
}

fn signed(negative: bool, magnitude: u64) -> Nm
    requires { magnitude ≤ 500000000 }
    ensures { result ≡ with_sign negative magnitude }
{
    let nm = magnitude as i64;
    Nm::within(if negative { -nm } else { nm })
}

/// Reads a length in millimetres: an optional sign, digits, and an optional point with digits. At least one digit
/// stands somewhere.
///
/// # Errors
///
/// The text's fault. Where the text spells no number, that is its fault; else where it is too fine; else where it is
/// beyond the range.
pub fn read_mm(text: &[u8]) -> Result<Nm, NumFault>
    ensures found { IfOk result (IsLength text.now) }
    ensures fault { IfErr result (HasFault text.now) }
    ensures none { OnErr result ((nm : ℤ) → IsLength text.now nm → ⊥) }
{
    let Some(parts) = parts_of(text) else {
        return Err(NumFault::NotANumber);
    };
    if !is_whole_nm(parts.fraction) {
        return Err(NumFault::TooFine);
    }
    let magnitude = magnitude(parts.whole, parts.fraction, MOST + 1);
    if magnitude > MOST {
        return Err(NumFault::OutOfRange);
    }
    Ok(signed(parts.negative, magnitude))
}

/// A text spells one number at most, by one sign, whole digits and fraction.
pub fn one_spelling()
    ensures { (text : List ℕ) (negative other : Bool) (whole others fraction rest : List ℕ)
        → IsSpelling text negative whole fraction → IsSpelling text other others rest
        → (negative ≡ other) × (whole ≡ others) × (fraction ≡ rest) }
{}

/// A text spells one length at most.
pub fn one_length()
    ensures { (text : List ℕ) (nm other : ℤ) → IsLength text nm → IsLength text other → nm ≡ other }
{}

/// A text has one fault at most, and it spells no length where it has one.
pub fn one_fault()
    ensures one { (text : List ℕ) (fault other : NumFault) → HasFault text fault
        → HasFault text other → fault ≡ other }
    ensures no_length { (text : List ℕ) (fault : NumFault) (nm : ℤ) → HasFault text fault
        → IsLength text nm → ⊥ }
{}
