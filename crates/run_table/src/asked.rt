// Words of the command, and a complaint that no run has yet.
use crate::files::text_of;
use crate::runs::words_of;
use board_language::{OffenceKind, Rules};
use edit_language::EditRefusal;
use run_rules::{Command, Ended, Offence, WordsError, complaint, read_words, status};
use std::alloc::{AllocError, Global};

/// The clearances of a command, in nanometres.
fn rules_line(alloc: Global, rules: Rules) -> Result<String, AllocError> {
    format!(in alloc; "clearance {} edge {}", rules.floor, rules.edge)
}

/// What a command is to do, its files by name.
fn command_line(alloc: Global, command: &Command) -> Result<String, AllocError> {
    match command {
        Command::Fill {
            input,
            output,
            threads,
            rules,
        } => format!(in alloc;
            "fill {} into {} workers {threads} {}",
            input.text(),
            output.text(),
            rules_line(alloc, *rules)?
        ),
        Command::Refill {
            input,
            edits,
            output,
            threads,
            rules,
        } => format!(in alloc;
            "refill {} by {} into {} workers {threads} {}",
            input.text(),
            edits.text(),
            output.text(),
            rules_line(alloc, *rules)?
        ),
        Command::Report { input, rules } => {
            format!(in alloc; "report {} {}", input.text(), rules_line(alloc, *rules)?)
        }
        Command::Generate { seed, size, output } => {
            format!(in alloc; "generate seed {seed} size {size} into {}", output.text())
        }
    }
}

/// Prints the command that words are, or their first fault.
pub fn words_shown(alloc: Global, words: &str) -> Result<String, AllocError> {
    match read_words(alloc, &words_of(alloc, words)?) {
        Ok(command) => {
            let command = command_line(alloc, &command)?;
            format!(in alloc; "words {words}: {command}\n")
        }
        Err(WordsError::Bad(fault)) => format!(in alloc; "words {words}: {fault:?}\n"),
        Err(WordsError::Memory) => String::from_str(alloc, "out of memory\n"),
    }
}

/// The refusal of an edit that breaks its board: an item of the edited board offends, since its layer isn't one of the
/// board's. The words are the edit's number, and the byte and the line at which the item stands.
fn breaking(words: &str) -> Option<Ended> {
    let mut numbers = words.split_ascii_whitespace();
    let index = numbers.next()?.parse::<u32>().ok()?;
    let at = numbers.next()?.parse::<usize>().ok()?;
    let line = numbers.next()?.parse::<u64>().ok()?;
    let kind = OffenceKind::UnknownLayer;
    let refusal = EditRefusal::Breaks(Offence { at, line, kind });
    Some(Ended::EditRefused { index, refusal })
}

/// Prints the status and the complaint of such a refusal.
pub fn breaking_shown(alloc: Global, words: &str) -> Result<String, AllocError> {
    let Some(ended) = breaking(words) else {
        return format!(in alloc; "breaking {words}: not understood\n");
    };
    let complaint = complaint(&ended);
    format!(in alloc;
        "breaking {words}: {}\n{}",
        status(&ended),
        text_of(complaint.as_slice())
    )
}
