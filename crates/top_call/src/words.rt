// The words that the program takes today.
ghost use Rattle.std.specs.Prelude.{◌≡◌, map, IfOk};
ghost use Rattle.std.specs.String.{string_bytes};
ghost use Rattle.run_rules.specs.Words.{IsCommandInRange};
ghost use Rattle.run_rules.specs.Read.{IsAnswerOf};
ghost use Rattle.top_call.specs.Today.{is_missing, asked_today};

use run_rules::{Command, UsageFault, WordsError, range_law, read_words};
use std::alloc::Global;

/// Whether the program has this command not yet.
fn is_missing(command: &str) -> bool
    ensures { result ≡ is_missing command.now }
{
    command == "refill"
}

/// The command that the words give, of those that the program has, or their first fault. Its numbers are in their ranges.
///
/// # Errors
///
/// Want of memory, or the fault.
#[tactic(auto, unfolding(crate::specs::Today::asked_today))]
pub fn asked(alloc: Global, words: &[String]) -> Result<Command, WordsError>
    ensures range { IfOk result IsCommandInRange }
    ensures answer { IsAnswerOf result (asked_today (map string_bytes words.now)) }
{
    range_law();
    if let [command, ..] = words
        && is_missing(command.as_str())
    {
        return Err(WordsError::Bad(UsageFault::Words));
    }
    read_words(alloc, words)
}
