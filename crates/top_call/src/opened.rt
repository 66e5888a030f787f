// The board of a command: it is read or made, and what is to be done with it is kept beside it. Nothing is written here.
ghost use Rattle.std.specs.Prelude.{◌≡◌, ◌≤◌, length, map, IfOk, IfErr};
ghost use Rattle.std.specs.String.{string_bytes};
ghost use Rattle.board_language.specs.declared.board.Rules as clearances;
ghost use Rattle.desk.specs.Seen.{Seen, Told, content};
ghost use Rattle.desk.specs.Faults.{OnlyReading};
ghost use Rattle.edit_language.specs.Edited.{IsBoardOf};
ghost use Rattle.run_rules.specs.declared.words.Command.TheVariants as commands;
ghost use Rattle.run_rules.specs.declared.ended.Ended.TheVariants as ended;
ghost use Rattle.run_rules.specs.Words.{IsBoardSize, IsCommandInRange};
ghost use Rattle.run_rules.specs.Leaves.{IsCaused, Leaves};
ghost use Rattle.top_call.specs.Today.{today};
ghost use Rattle.top_call.specs.Refusals.{answer_of, answer_of_stop, answer_of_words, IsOwed, IsUnread, IsStopped};
ghost use Rattle.top_call.specs.Opened.{IsOpened, IsOpening, IsSound};
ghost use Rattle.top_call.specs.Steps.{IsNotDone};

use crate::refusal::Refusal;
use crate::words::asked;
use board_model::{Board, Rules};
use desk::{Desk, ReadStop, read_all};
use gen_facts::made_law;
use run_rules::{Command, Ended, FileName, Role, UsageFault, WordsError, default_rules, items_in};
use std::alloc::Global;

/// What is to be done with a board when it is filled.
#[derive(Drop)]
pub enum Purpose {
    /// It is written, and its report is said.
    Write(FileName),
    /// Its report is said.
    Tell,
    /// It was made, with so many items; it is written, and a summary of it is said.
    Sum(FileName, u32),
}

/// The board of a command, with its text, what is to be done with it, and how many workers may fill it.
#[derive(Drop)]
pub struct Opened {
    pub text: Vec<u8>,
    pub board: Board,
    pub purpose: Purpose,
    pub workers: u32,
}

/// The answer where the words are no command.
fn unasked(error: WordsError) -> Ended
    ensures { result ≡ answer_of_words error }
{
    match error {
        WordsError::Memory => Ended::Memory,
        WordsError::Bad(fault) => Ended::Usage(fault),
    }
}

/// The answer where a text is refused.
fn refused(refusal: Refusal) -> Ended
    ensures { result ≡ answer_of refusal }
{
    match refusal {
        Refusal::Memory => Ended::Memory,
        Refusal::BadText(fault) => Ended::BadText(fault),
        Refusal::Refused(offence) => Ended::Refused(offence),
    }
}

/// The answer where IN isn't read.
fn unread(stop: ReadStop) -> Ended
    ensures { result ≡ answer_of_stop stop }
{
    match stop {
        ReadStop::Memory => Ended::Memory,
        ReadStop::Failed => Ended::Unreadable { role: Role::In },
        ReadStop::TooLong => Ended::TooLong {
            role: Role::In,
            taken: 67_108_865,
        },
    }
}

/// All bytes of IN, or the answer where they can't be had.
fn board_bytes<D: Desk>(alloc: Global, name: &FileName, desk: &mut D) -> Result<Vec<u8>, Ended>
    ensures bytes { IfOk result (λ v. Told (D.seen desk.old) (λ s. v.items ≡ content name.now s)) }
    ensures within { IfOk result (λ v. length v.items ≤ 67108864) }
    ensures unread { IfErr result (λ answer. Told (D.seen desk.old)
        (λ s. IsUnread (content name.now s) answer)) }
    ensures cause { IfErr result (λ answer. IsCaused answer (D.counts desk.old) (D.counts desk.new)) }
    ensures seen { D.seen desk.new ≡ D.seen desk.old }
    ensures room { D.room desk.new ≡ D.room desk.old }
    ensures others { OnlyReading (D.counts desk.old) (D.counts desk.new) }
{
    match read_all(alloc, name.text(), desk) {
        Ok(text) => Ok(text),
        Err(stop) => Err(unread(stop)),
    }
}

/// The board of a text under these clearances, or why the text has none.
fn board_of(alloc: Global, text: &[u8], rules: Rules) -> Result<Board, Refusal>
    ensures board { IfOk result (λ b. IsBoardOf text.now rules b.board) }
    ensures refused { IfErr result (IsOwed text.now) }
{
    let tree = sexpr_text::read(alloc, text)?;
    Ok(Board::read(alloc, text, &tree, rules)?)
}

/// A text with its board and what is to be done with it.
fn opened_as(text: Vec<u8>, board: Board, purpose: Purpose, workers: u32) -> Opened
    ensures { result ≡ record { text = text; board = board; purpose = purpose; workers = workers } }
{
    Opened {
        text,
        board,
        purpose,
        workers,
    }
}

/// `fill IN OUT`: the board of IN, to be written and its report to be said.
fn opened_fill<D: Desk>(
    alloc: Global,
    input: FileName,
    output: FileName,
    threads: u32,
    rules: Rules,
    desk: &mut D,
) -> Result<Opened, Ended>
    ensures opened { IfOk result (λ o. Told (D.seen desk.old)
        (λ s. IsOpened (commands.Fill input output threads rules) s o)) }
    ensures board { IfOk result (λ o. IsBoardOf o.text.items rules o.board.board) }
    ensures workers { IfOk result (λ o. o.workers ≡ threads) }
    ensures stopped { IfErr result (λ answer. Told (D.seen desk.old)
        (λ s. IsStopped (commands.Fill input output threads rules) s answer)) }
    ensures cause { IfErr result (λ answer. IsCaused answer (D.counts desk.old) (D.counts desk.new)) }
    ensures seen { D.seen desk.new ≡ D.seen desk.old }
    ensures room { D.room desk.new ≡ D.room desk.old }
    ensures others { OnlyReading (D.counts desk.old) (D.counts desk.new) }
{
    let text = board_bytes(alloc, &input, desk)?;
    match board_of(alloc, &text, rules) {
        Ok(board) => Ok(opened_as(text, board, Purpose::Write(output), threads)),
        Err(refusal) => Err(refused(refusal)),
    }
}

/// `report IN`: the board of IN, whose report is to be said.
fn opened_report<D: Desk>(
    alloc: Global,
    input: FileName,
    rules: Rules,
    desk: &mut D,
) -> Result<Opened, Ended>
    ensures opened { IfOk result (λ o. Told (D.seen desk.old)
        (λ s. IsOpened (commands.Report input rules) s o)) }
    ensures board { IfOk result (λ o. IsBoardOf o.text.items rules o.board.board) }
    ensures workers { IfOk result (λ o. o.workers ≡ 1) }
    ensures stopped { IfErr result (λ answer. Told (D.seen desk.old)
        (λ s. IsStopped (commands.Report input rules) s answer)) }
    ensures cause { IfErr result (λ answer. IsCaused answer (D.counts desk.old) (D.counts desk.new)) }
    ensures seen { D.seen desk.new ≡ D.seen desk.old }
    ensures room { D.room desk.new ≡ D.room desk.old }
    ensures others { OnlyReading (D.counts desk.old) (D.counts desk.new) }
{
    let text = board_bytes(alloc, &input, desk)?;
    match board_of(alloc, &text, rules) {
        Ok(board) => Ok(opened_as(text, board, Purpose::Tell, 1)),
        Err(refusal) => Err(refused(refusal)),
    }
}

/// `generate SEED SIZE OUT`: the made board, to be written and a summary of it to be said. It has no offence, so nothing but
/// want of memory stops it.
fn opened_made(alloc: Global, seed: u64, size: u32, output: FileName) -> Result<Opened, Ended>
    requires { IsBoardSize size }
    ensures opened { IfOk result (λ o. (s : Seen)
        → IsOpened (commands.Generate seed size output) s o) }
    ensures board { IfOk result (λ o. (rules : clearances.Rules)
        × IsBoardOf o.text.items rules o.board.board) }
    ensures workers { IfOk result (λ o. o.workers ≡ 1) }
    ensures memory { IfErr result (λ answer. answer ≡ ended.Memory) }
{
    made_law();
    let Ok(text) = board_gen::generate(alloc, seed, size) else {
        return Err(Ended::Memory);
    };
    let purpose = Purpose::Sum(output, items_in(seed, size));
    match board_of(alloc, &text, default_rules()) {
        Ok(board) => Ok(opened_as(text, board, purpose, 1)),
        Err(refusal) => Err(refused(refusal)),
    }
}

/// The board of a command, whose numbers are in their ranges. A command that the program has not yet is none.
///
/// # Errors
///
/// The answer that stops it.
fn open_board<D: Desk>(alloc: Global, command: Command, desk: &mut D) -> Result<Opened, Ended>
    requires { IsCommandInRange command }
    ensures opened { IfOk result (λ o. Told (D.seen desk.old) (λ s. IsOpened command s o)) }
    ensures sound { IfOk result IsSound }
    ensures stopped { IfErr result (λ answer. Told (D.seen desk.old)
        (λ s. IsStopped command s answer)) }
    ensures cause { IfErr result (λ answer. IsCaused answer (D.counts desk.old) (D.counts desk.new)) }
    ensures seen { D.seen desk.new ≡ D.seen desk.old }
    ensures room { D.room desk.new ≡ D.room desk.old }
    ensures others { OnlyReading (D.counts desk.old) (D.counts desk.new) }
{
    match command {
        Command::Fill {
            input,
            output,
            threads,
            rules,
        } => opened_fill(alloc, input, output, threads, rules, desk),
        Command::Report { input, rules } => opened_report(alloc, input, rules, desk),
        Command::Refill { .. } => Err(Ended::Usage(UsageFault::Words)),
        Command::Generate { seed, size, output } => opened_made(alloc, seed, size, output),
    }
}

/// The board of the command that the words give.
///
/// # Errors
///
/// The answer where there is none: all is left as it was.
pub fn opening<D: Desk>(alloc: Global, words: &[String], desk: &mut D) -> Result<Opened, Ended>
    ensures opening { IfOk result (λ o. Told (D.seen desk.old)
        (λ s. IsOpening (map string_bytes words.now) s o)) }
    ensures sound { IfOk result IsSound }
    ensures leaves { IfErr result (λ answer. Told (D.seen desk.old)
        (λ s. Leaves today answer (map string_bytes words.now) s s)) }
    ensures cause { IfErr result (λ answer. IsCaused answer (D.counts desk.old) (D.counts desk.new)) }
    ensures undone { IfErr result (λ answer. Told (D.seen desk.old) (λ s. IsNotDone answer)) }
    ensures seen { D.seen desk.new ≡ D.seen desk.old }
    ensures room { D.room desk.new ≡ D.room desk.old }
    ensures others { OnlyReading (D.counts desk.old) (D.counts desk.new) }
{
    match asked(alloc, words) {
        Ok(command) => open_board(alloc, command, desk),
        Err(error) => Err(unasked(error)),
    }
}
