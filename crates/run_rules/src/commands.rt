// The command that the words of a run give, or their first fault.
ghost use Rattle.std.specs.Prelude.{◌≡◌, map, MatchResult, Some};
ghost use Rattle.std.specs.Str.{bytes_eq};
ghost use Rattle.std.specs.String.{string_bytes};
ghost use Rattle.clap.specs.Words.{found_of, rows_of};
ghost use Rattle.run_rules.specs.Words as spec_words;
ghost use Rattle.run_rules.specs.Inner.Line.{given_in_rows};
ghost use Rattle.run_rules.specs.Read.{settings_shown, IsSource, IsSourceFault, IsAnswerOf};

use crate::line::{has_dash_value, matches_of, settings_of};
use crate::values::{Settings, number_in, values_of};
use crate::words::{Command, FileName, Flag, UsageFault, WordsError};
use clap::ArgMatches;
use std::alloc::Global;

fn are_same(first: &str, second: &str) -> bool
    ensures { result ≡ bytes_eq first.now second.now }
{
    first == second
}

/// `fill IN OUT`
fn fill_of(alloc: Global, names: &[&str], settings: &Settings<'_>) -> Result<Command, WordsError>
    ensures { IsAnswerOf result
        (spec_words.fill_wanted (map (λ n. n.now) names.now) (settings_shown settings.now)) }
{
    let [input, output] = names else {
        return Err(WordsError::Bad(UsageFault::Words));
    };
    let values = match values_of(settings) {
        Ok(values) => values,
        Err(fault) => return Err(WordsError::Bad(fault)),
    };
    if are_same(input, output) {
        return Err(WordsError::Bad(UsageFault::SameName));
    }
    Ok(Command::Fill {
        input: FileName::of(alloc, input)?,
        output: FileName::of(alloc, output)?,
        threads: values.threads,
        rules: values.rules,
    })
}

fn are_distinct(first: &str, second: &str, third: &str) -> bool
    ensures { result ≡ spec_words.are_distinct first.now second.now third.now }
{
    !(are_same(first, second) || (are_same(first, third) || are_same(second, third)))
}

/// `refill IN EDITS OUT`
fn refill_of(alloc: Global, names: &[&str], settings: &Settings<'_>) -> Result<Command, WordsError>
    ensures { IsAnswerOf result
        (spec_words.refill_of (map (λ n. n.now) names.now) (settings_shown settings.now)) }
{
    let [input, edits, output] = names else {
        return Err(WordsError::Bad(UsageFault::Words));
    };
    let values = match values_of(settings) {
        Ok(values) => values,
        Err(fault) => return Err(WordsError::Bad(fault)),
    };
    if !are_distinct(input, edits, output) {
        return Err(WordsError::Bad(UsageFault::SameName));
    }
    Ok(Command::Refill {
        input: FileName::of(alloc, input)?,
        edits: FileName::of(alloc, edits)?,
        output: FileName::of(alloc, output)?,
        threads: values.threads,
        rules: values.rules,
    })
}

/// `report IN`
fn report_of(alloc: Global, names: &[&str], settings: &Settings<'_>) -> Result<Command, WordsError>
    ensures { IsAnswerOf result
        (spec_words.report_of (map (λ n. n.now) names.now) (settings_shown settings.now)) }
{
    let [input] = names else {
        return Err(WordsError::Bad(UsageFault::Words));
    };
    if settings.has(Flag::Threads) {
        return Err(WordsError::Bad(UsageFault::Words));
    }
    let values = match values_of(settings) {
        Ok(values) => values,
        Err(fault) => return Err(WordsError::Bad(fault)),
    };
    Ok(Command::Report {
        input: FileName::of(alloc, input)?,
        rules: values.rules,
    })
}

/// What a board is made of.
#[derive(Clone, Copy, Drop)]
struct Source {
    seed: u64,
    size: u32,
}

/// The seed and the size that two words spell, or the first fault of them.
fn source_of(seed: &str, size: &str) -> Result<Source, UsageFault>
    ensures { MatchResult result
        (λ s. IsSource s.seed s.size seed.now size.now)
        (λ fault. IsSourceFault fault seed.now size.now) }
{
    let Some(seed) = number_in(seed.as_bytes(), 20, 0, u64::MAX) else {
        return Err(UsageFault::Seed);
    };
    let Some(size) = number_in(size.as_bytes(), 9, 1, 200) else {
        return Err(UsageFault::Size);
    };
    Ok(Source {
        seed,
        size: size as u32,
    })
}

/// `generate SEED SIZE OUT`
fn generate_of(
    alloc: Global,
    names: &[&str],
    settings: &Settings<'_>,
) -> Result<Command, WordsError>
    ensures { IsAnswerOf result
        (spec_words.generate_of (map (λ n. n.now) names.now) (settings_shown settings.now)) }
{
    let [seed, size, output] = names else {
        return Err(WordsError::Bad(UsageFault::Words));
    };
    if settings.has_any() {
        return Err(WordsError::Bad(UsageFault::Words));
    }
    let source = match source_of(seed, size) {
        Ok(source) => source,
        Err(fault) => return Err(WordsError::Bad(fault)),
    };
    Ok(Command::Generate {
        seed: source.seed,
        size: source.size,
        output: FileName::of(alloc, output)?,
    })
}

fn command_of(
    alloc: Global,
    command: &str,
    names: &[&str],
    settings: &Settings<'_>,
) -> Result<Command, WordsError>
    ensures { IsAnswerOf result (spec_words.command_of command.now
        (map (λ n. n.now) names.now) (settings_shown settings.now)) }
{
    if are_same(command, "fill") {
        fill_of(alloc, names, settings)
    } else if are_same(command, "refill") {
        refill_of(alloc, names, settings)
    } else if are_same(command, "report") {
        report_of(alloc, names, settings)
    } else if are_same(command, "generate") {
        generate_of(alloc, names, settings)
    } else {
        Err(WordsError::Bad(UsageFault::Words))
    }
}

/// The command of this name, with the names and options that a parse has found.
fn parsed_command(
    alloc: Global,
    command: &str,
    matches: &ArgMatches<'_>,
) -> Result<Command, WordsError>
    ensures { IsAnswerOf result (spec_words.wanted_as command.now
        (Some (given_in_rows (rows_of (found_of matches.now))))) }
{
    let settings = settings_of(matches);
    match matches.get_strs("names") {
        Some(names) => command_of(alloc, command, names, &settings),
        None => command_of(alloc, command, &[], &settings),
    }
}

/// The command that the words give, or their first fault. The words are those behind the program's name.
///
/// # Errors
///
/// Want of memory, or the fault.
#[tactic(auto, unfolding(crate::specs::Words::wanted))]
pub fn read_words(alloc: Global, words: &[String]) -> Result<Command, WordsError>
    ensures { IsAnswerOf result (spec_words.wanted (map string_bytes words.now)) }
{
    let [command, rest @ ..] = words else {
        return Err(WordsError::Bad(UsageFault::Words));
    };
    if has_dash_value(rest) {
        return Err(WordsError::Bad(UsageFault::Words));
    }
    let matches = matches_of(alloc, words)?;
    parsed_command(alloc, command.as_str(), &matches)
}
