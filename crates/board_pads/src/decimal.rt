// What a decimal number is, and the number of its digits.
ghost use Rattle.std.specs.Prelude.{◌≡◌, ◌≤◌, min};
ghost use Rattle.grid_num.specs.Spelling.{number_after};
ghost use Rattle.board_text.specs.Numbers.{are_zeros, is_decimal, is_negative, is_zero};

use board_text::are_digits;
use grid_num::{fraction_of, starts_with, whole_of};

/// Whether it begins with a minus.
pub fn is_negative(text: &[u8]) -> bool
    ensures { result ≡ is_negative text.now }
{
    starts_with(text, b'-')
}

/// Whether all digits are 0.
pub fn are_zeros(digits: &[u8]) -> bool
    ensures { result ≡ are_zeros digits.now }
{
    digits.iter().all(|digit| *digit == b'0')
}

/// Whether a text spells a decimal number.
pub fn is_decimal(text: &[u8]) -> bool
    ensures { result ≡ is_decimal text.now }
{
    let whole = whole_of(text);
    let fraction = fraction_of(text);
    are_digits(fraction) && !(whole.is_empty() && fraction.is_empty())
}

/// Whether a text spells 0.
pub fn is_zero(text: &[u8]) -> bool
    ensures { result ≡ is_zero text.now }
{
    is_decimal(text) && are_zeros(whole_of(text)) && are_zeros(fraction_of(text))
}

/// The number of some digits behind those of a number, where all from a most one on count as one.
pub fn follow(before: u64, digits: &[u8], most: u64) -> u64
    requires small { before ≤ most }
    requires most { most ≤ 100000000000 }
    ensures value { result ≡ min most (number_after before digits.now) }
    ensures small { result ≤ most }
{
    let mut sum = before;
    'each: for digit in digits {
        sum = (10 * sum + u64::from(digit.saturating_sub(b'0'))).min(most);
    }
    sum
}
