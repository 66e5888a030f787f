//! The program `zonefill`: it fills the copper zones of KiCad boards.
//! `run` is the top call; its contract says what a run does over any desk, and the program runs it over real files.
//! Places and lengths of texts are in bytes, lengths on a board in nanometres.
#![tactic(auto)]

ghost use Rattle.std.specs.Prelude.{◌≡◌, ◌<◌, map};
ghost use Rattle.std.specs.String.{string_bytes};
ghost use Rattle.std.specs.IoError.{error_kind};
ghost use Rattle.std.specs.declared.io.ErrorKind.TheVariants.{OutOfMemory};
ghost use Rattle.run_rules.specs.Leaves.{HasRoomFor};
ghost use Rattle.run_rules.specs.declared.ended.Ended.TheVariants.{Usage, Memory};
ghost use Rattle.run_rules.specs.declared.words.UsageFault.TheVariants.{Words};
ghost use Rattle.top_call.specs.Today.{today};

use desk::{Desk, RealDesk, complain_all};
use fill_pool::OpenGate;
use run_rules::{Ended, UsageFault, complaint, status};
use std::alloc::Global;
use std::marker::Brand;
use std::process::ExitCode;
use std::rt::Env;
use std::sync::Wait;
use std::sync::ledger::{Blank, Ledger};
use std::thread::Threads;
use std::{env, io};
use step_count::Steps;
use top_call::run;

/// The words behind the program's name.
fn words_given<R: Env + AllocGlobal>(rt: &R) -> io::Result<Vec<String>> {
    let mut words = Vec::new(rt.alloc());
    for word in env::args(rt)?.skip(1) {
        words
            .push(word)
            .map_err(|_| io::Error::from(io::ErrorKind::OutOfMemory))?;
    }
    Ok(words)
}

/// Runs over a desk, with a count of its own.
fn run_counted<R: Threads + Wait + Sync, D: Desk, L: Ledger>(
    rt: &R,
    alloc: Global,
    words: &[String],
    desk: &mut D,
    blank: Blank,
) -> Ended
    requires name { blank.name ≡ L.name }
    requires parts { blank.parts ≡ L.parts }
    requires some { 0 < blank.parts }
    requires room { HasRoomFor today
        (map string_bytes words.now) (D.seen desk.old) (D.room desk.old) }
{
    let mut steps = Steps::<L>::new(blank);
    run(rt, alloc, words, desk, &OpenGate, &mut steps)
}

/// How a run ends whose words can't be had: there is no memory for them, or one isn't UTF-8 and so is no word of a command.
fn without_words(error: &io::Error) -> Ended
    ensures memory { error_kind error.now ≡ OutOfMemory → result ≡ Memory }
    ensures usage { (error_kind error.now ≡ OutOfMemory → ⊥) → result ≡ Usage Words }
{
    if error.kind() == io::ErrorKind::OutOfMemory {
        Ended::Memory
    } else {
        Ended::Usage(UsageFault::Words)
    }
}

fn main(rt: HostRuntime) -> ExitCode {
    let mut desk = RealDesk::new(&rt);
    let words = match words_given(&rt) {
        Ok(words) => words,
        Err(error) => {
            let ended = without_words(&error);
            complain_all(complaint(&ended).as_slice(), &mut desk);
            return ExitCode::from(status(&ended));
        }
    };
    let ended = run_counted::<HostRuntime, RealDesk<HostRuntime>, Brand>(
        &rt,
        rt.alloc(),
        &words,
        &mut desk,
        Blank::new(1),
    );
    ExitCode::from(status(&ended))
}
