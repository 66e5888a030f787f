// The values of options: numbers of workers, and clearances.
ghost use Rattle.std.specs.Prelude.{◌≡◌, ◌<◌, ◌≤◌, ◌∷◌, [], true, false, length, min, option_map, IfOk, IfSome, IsTrue, All, MatchOption, MatchResult, ◌↔◌};
ghost use Rattle.std.specs.List.{list_all};
ghost use Rattle.std.specs.Char.{is_ascii_digit, IsAsciiDigit};
ghost use Rattle.grid_num.specs.Spelling.{number};
ghost use Rattle.run_rules.specs.Words as words;
ghost use Rattle.board_text.specs.Items.{size_of};
ghost use Rattle.board_language.specs.Clearances.{IsClearance};
ghost use Rattle.board_text.specs.Numbers.{length_of};
ghost use Rattle.run_rules.specs.Read.{settings_shown, AreValues, IsValueFault};

use crate::words::{Flag, UsageFault};
use board_language::Rules;
use board_text::{length_fault, length_of};

// ---- the values of options

/// The values of the options that are there.
#[derive(Clone, Copy, Drop)]
pub struct Settings<'a> {
    pub threads: Option<&'a str>,
    pub clearance: Option<&'a str>,
    pub edge_clearance: Option<&'a str>,
}

impl<'a> Settings<'a> {
    /// The value of this option, if it is there.
    pub fn get(&self, flag: Flag) -> Option<&'a str>
        ensures { option_map (λ v. v.now) result ≡ words.setting flag (settings_shown self.now) }
    {
        match flag {
            Flag::Threads => self.threads,
            Flag::Clearance => self.clearance,
            Flag::EdgeClearance => self.edge_clearance,
        }
    }

    /// Whether the option is there.
    pub fn has(&self, flag: Flag) -> bool
        ensures { result ≡ words.has_flag flag (settings_shown self.now) }
    {
        self.get(flag).is_some()
    }

    /// Whether an option is there.
    pub fn has_any(&self) -> bool
        ensures { result ≡ words.has_any_flag (settings_shown self.now) }
    {
        self.has(Flag::Threads) || self.has(Flag::Clearance) || self.has(Flag::EdgeClearance)
    }

    /// The value of this option: where it isn't there, its default.
    fn value_of(&self, flag: Flag) -> &'a [u8]
        ensures { result.now ≡ words.value_of flag (settings_shown self.now) }
    {
        self.get(flag).unwrap_or(default_of(flag)).as_bytes()
    }
}

/// What is meant where an option isn't there.
fn default_of(flag: Flag) -> &'static str
    ensures { result.now ≡ words.default_of flag }
{
    match flag {
        Flag::Threads => "1",
        Flag::Clearance => "0.2",
        Flag::EdgeClearance => "0.5",
    }
}

// ---- numbers

fn are_digits(word: &[u8]) -> bool
    ensures value { result ≡ list_all is_ascii_digit word.now }
    ensures all { IsTrue result ↔ All IsAsciiDigit word.now }
{
    word.iter().all(|byte| byte.is_ascii_digit())
}

/// The number of some digits, where all from 2 ^ 64 on count as one.
fn capped_number(digits: &[u8]) -> u128
    requires { All IsAsciiDigit digits.now }
    ensures value { result ≡ min 18446744073709551616 (number digits.now) }
{
    let mut sum = 0;
    'digits: for digit in digits {
        sum = (10 * sum + u128::from(*digit - b'0')).min(1 << 64);
    }
    sum
}

/// The number of a word of one to so many digits, where it is one from the least to the most.
pub fn number_in(word: &[u8], digits: usize, least: u64, most: u64) -> Option<u64>
    ensures { MatchOption result
        (words.is_number digits least most word.now ≡ false)
        (λ n. (words.is_number digits least most word.now ≡ true) × (n ≡ number word.now)) }
{
    if !are_digits(word) || word.is_empty() || word.len() > digits {
        return None;
    }
    let number = capped_number(word);
    if (least as u128) <= number && number <= most as u128 {
        Some(number as u64)
    } else {
        None
    }
}

/// The clearance that a word spells, where it is one from 2 nm to 100 mm.
fn clearance_in(word: &[u8]) -> Option<u32>
    ensures sound { IfSome result IsClearance }
    ensures word { MatchOption result
        (words.is_clearance word.now ≡ false)
        (λ n. (words.is_clearance word.now ≡ true) × (n ≡ size_of (length_of word.now))) }
{
    if length_fault(word).is_some() {
        return None;
    }
    let length = length_of(word);
    if 2 <= length && length <= 100_000_000 {
        Some(length as u32)
    } else {
        None
    }
}

/// What the options of a command say.
#[derive(Clone, Copy, Drop)]
pub struct Values {
    pub threads: u32,
    pub rules: Rules,
}

/// What the options say, or the first fault of their values.
pub fn values_of(settings: &Settings<'_>) -> Result<Values, UsageFault>
    ensures { MatchResult result
        (λ v. AreValues v.threads v.rules (settings_shown settings.now))
        (λ fault. IsValueFault fault (settings_shown settings.now)) }
{
    let Some(threads) = number_in(settings.value_of(Flag::Threads), 9, 1, 64) else {
        return Err(UsageFault::Threads);
    };
    let Some(floor) = clearance_in(settings.value_of(Flag::Clearance)) else {
        return Err(UsageFault::Length);
    };
    let Some(edge) = clearance_in(settings.value_of(Flag::EdgeClearance)) else {
        return Err(UsageFault::Length);
    };
    Ok(Values {
        threads: threads as u32,
        rules: Rules { floor, edge },
    })
}

/// The clearances where no option says otherwise: 0.2 mm, and 0.5 mm to the board's edge.
pub fn default_rules() -> Rules
    ensures { result ≡ words.default_rules }
{
    Rules {
        floor: 200_000,
        edge: 500_000,
    }
}
