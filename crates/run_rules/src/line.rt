// The names and options of the words of a command, as the library of command lines parses them.
ghost use Rattle.std.specs.Prelude.{◌≡◌, ◌<◌, false, drop, length, map, option_map, is_some, IfOk, MatchResult, Some};
ghost use Rattle.std.specs.String.{string_bytes};
ghost use Rattle.clap.specs.Words.{app_of, rule_of, found_of, rows_of};
ghost use Rattle.run_rules.specs.Words as spec_words;
ghost use Rattle.run_rules.specs.Read.{settings_shown};
ghost use Rattle.run_rules.specs.Inner.Line as inner;

use crate::values::Settings;
use crate::words::{Flag, UsageFault, WordsError};
use clap::error::ErrorKind;
use clap::{Arg, ArgAction, ArgMatches, Command};
use grid_num::Memory;
use std::alloc::Global;

// ---- where the library answers otherwise

fn flag_of(word: &[u8]) -> Option<Flag>
    ensures { result ≡ spec_words.flag_of word.now }
{
    if word == b"--threads".as_slice() {
        Some(Flag::Threads)
    } else if word == b"--clearance".as_slice() {
        Some(Flag::Clearance)
    } else if word == b"--edge-clearance".as_slice() {
        Some(Flag::EdgeClearance)
    } else {
        None
    }
}

fn is_dash_first(words: &[String]) -> bool
    ensures { result ≡ inner.is_dash_first (map string_bytes words.now) }
{
    match words {
        [first, ..] => first.as_str() == "-",
        [] => false,
    }
}

/// Whether `-` stands where an option wants its value. The library would take it.
#[tactic(auto, unfolding(crate::specs::Inner::Line::has_dash_value))]
pub fn has_dash_value(words: &[String]) -> bool
    ensures { result ≡ inner.has_dash_value (map string_bytes words.now) }
{
    'words: for place in 0..words.len() {
        let word = words[place].as_str();
        if word == "--" {
            return false;
        }
        if flag_of(word.as_bytes()).is_some() && is_dash_first(&words[place + 1..]) {
            return true;
        }
    }
    false
}

// ---- the command line

fn long_name<'a>(flag: Flag) -> &'a str
    ensures { result.now ≡ inner.long_name flag }
{
    match flag {
        Flag::Threads => "threads",
        Flag::Clearance => "clearance",
        Flag::EdgeClearance => "edge-clearance",
    }
}

fn option<'a>(alloc: Global, flag: Flag) -> Arg<'a>
    ensures rule { rule_of result ≡ inner.flag_rule flag }
    ensures local { result.global ≡ false }
{
    let name = long_name(flag);
    Arg::new(alloc, name).long(name)
}

/// Any number of names, and the three options.
fn line<'a>(alloc: Global) -> Result<Command<'a>, Memory>
    ensures { IfOk result (λ line. app_of line ≡ inner.line) }
{
    let names = Arg::new(alloc, "names").action(ArgAction::Append);
    let line = Command::new(alloc, "zonefill")
        .disable_help_flag(true)
        .arg(names)?
        .arg(option(alloc, Flag::Threads))?
        .arg(option(alloc, Flag::Clearance))?
        .arg(option(alloc, Flag::EdgeClearance))?;
    Ok(line)
}

// ---- its matches

fn words_error(kind: ErrorKind) -> WordsError
    ensures { result ≡ inner.error_of kind }
{
    match kind {
        ErrorKind::OutOfMemory => WordsError::Memory,
        _ => WordsError::Bad(UsageFault::Words),
    }
}

/// Parses the words of a command, of which the first is its name.
pub fn matches_of<'a>(alloc: Global, words: &'a [String]) -> Result<ArgMatches<'a>, WordsError>
    requires named { 0 < length words.now }
    requires told { inner.has_dash_value (drop 1 (map string_bytes words.now)) ≡ false }
    ensures { MatchResult result
        (λ m. spec_words.given_by (drop 1 (map string_bytes words.now))
        ≡ Some (inner.given_in_rows (rows_of (found_of m))))
        (inner.IsRefusalOf (drop 1 (map string_bytes words.now))) }
{
    match line(alloc)?.try_get_matches_from(words) {
        Ok(matches) => Ok(matches),
        Err(error) => Err(words_error(error.kind())),
    }
}

/// The values of the options.
pub fn settings_of<'a>(matches: &ArgMatches<'a>) -> Settings<'a>
    ensures { settings_shown result
        ≡ (inner.given_in_rows (rows_of (found_of matches.now))).settings }
{
    Settings {
        threads: matches.get_str("threads"),
        clearance: matches.get_str("clearance"),
        edge_clearance: matches.get_str("edge-clearance"),
    }
}
