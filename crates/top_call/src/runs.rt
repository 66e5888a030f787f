// The top call: from the words to the answer.
ghost use Rattle.std.specs.Prelude.{◌≡◌, ℕ, List, map, Some};
ghost use Rattle.std.specs.String.{string_bytes};
ghost use Rattle.desk.specs.Seen.{Seen, Told};
ghost use Rattle.desk.specs.Faults.{no_faults};
ghost use Rattle.desk.specs.Room.{HasRoomTold};
ghost use Rattle.run_rules.specs.Due.{Due, IsDue};
ghost use Rattle.run_rules.specs.Leaves.{IsCaused, Leaves, Ends, IsQuiet, IsAnswerTo, HasRoomFor};
ghost use Rattle.top_call.specs.Today.{today};
ghost use Rattle.top_call.specs.Settled.{IsAcceptedRun, IsDoneOrMemory};
ghost use Rattle.top_call.specs.Laws.{SameEndLaw, SameWorkersLaw};
ghost use Rattle.headline.specs.Headline.{HeadlineLaw};
ghost use Rattle.top_call.specs.Steps.{CommandTakes, WorkersTake, HasCounted};

use crate::drawn::{drawn, drawn_single};
use crate::finished::finished;
use crate::opened::opening;
use desk::{Desk, complain_all};
use fill_pool::Gate;
use headline::headline_law;
use run_rules::{Ended, complaint};
use std::alloc::Global;
use std::sync::Wait;
use std::sync::ledger::Ledger;
use std::thread::Threads;
use step_count::Steps;

/// What a run of one worker does before it complains.
fn work_single<D: Desk, L: Ledger>(
    alloc: Global,
    words: &[String],
    desk: &mut D,
    steps: &mut Steps<L>,
) -> Ended
    requires { HasRoomFor today (map string_bytes words.now) (D.seen desk.old) (D.room desk.old) }
    ensures cause { IsCaused result (D.counts desk.old) (D.counts desk.new) }
    ensures leaves { Told (D.seen desk.old) (λ s. (t : Seen)
        × Leaves today result (map string_bytes words.now) s t × (D.seen desk.new ≡ Some t)) }
    ensures counts { Told (D.seen desk.old) (λ s.
        HasCounted CommandTakes result (map string_bytes words.now) s steps.old steps.new) }
    ensures room { HasRoomTold (D.room desk.new) 256 }
    ensures quiet { (D.counts desk.new).complaining ≡ (D.counts desk.old).complaining }
{
    let opened = match opening(alloc, words, desk) {
        Ok(opened) => opened,
        Err(answer) => return answer,
    };
    match drawn_single(alloc, &opened.board, steps) {
        Ok(outcome) => finished(alloc, &opened, outcome, desk),
        Err(_) => Ended::Memory,
    }
}

/// What a run does before it complains, by as many workers as its words want.
fn work<R: Threads + Wait + Sync, D: Desk, G: Gate + Sync, L: Ledger>(
    rt: &R,
    alloc: Global,
    words: &[String],
    desk: &mut D,
    gate: &G,
    steps: &mut Steps<L>,
) -> Ended
    requires { HasRoomFor today (map string_bytes words.now) (D.seen desk.old) (D.room desk.old) }
    ensures cause { IsCaused result (D.counts desk.old) (D.counts desk.new) }
    ensures leaves { Told (D.seen desk.old) (λ s. (t : Seen)
        × Leaves today result (map string_bytes words.now) s t × (D.seen desk.new ≡ Some t)) }
    ensures counts { Told (D.seen desk.old) (λ s.
        HasCounted WorkersTake result (map string_bytes words.now) s steps.old steps.new) }
    ensures room { HasRoomTold (D.room desk.new) 256 }
    ensures quiet { (D.counts desk.new).complaining ≡ (D.counts desk.old).complaining }
{
    let opened = match opening(alloc, words, desk) {
        Ok(opened) => opened,
        Err(answer) => return answer,
    };
    match drawn(rt, alloc, &opened.board, opened.workers, gate, steps) {
        Ok(outcome) => finished(alloc, &opened, outcome, desk),
        Err(_) => Ended::Memory,
    }
}

/// Runs the command that the words give, over a desk, by one worker. Each fill of a task is a step.
///
/// Whatever the words and the contents of the desk, a run that is done has written the filled board and said its report; a text
/// that is refused is refused at its first bad byte, and a board at its first offence; where the output or the report is cut,
/// its first bytes are there; and every other answer leaves the contents and what was said as they were.
pub fn run_single<D: Desk, L: Ledger>(
    alloc: Global,
    words: &[String],
    desk: &mut D,
    steps: &mut Steps<L>,
) -> Ended
    requires room { HasRoomFor today
        (map string_bytes words.now) (D.seen desk.old) (D.room desk.old) }

    // A fault is answered only where its count rose in this run.
    ensures cause { IsCaused result (D.counts desk.old) (D.counts desk.new) }

    // What each answer leaves, against what is due of the words and the contents.
    ensures ends { Told (D.seen desk.old) (λ s.
        Ends today result (map string_bytes words.now) (D.counts desk.old) (D.counts desk.new) s
        (D.seen desk.new)) }

    // What is due of a board is true of it: its rings cover exactly the fill, which keeps its clearances; its clusters are the
    // classes of touching copper, and its ratsnests least trees.
    ensures headline { HeadlineLaw }

    // Where no count of reading, writing or saying rose, the answer is to what is due, want of memory aside.
    ensures complete { Told (D.seen desk.old) (λ s.
        IsQuiet (D.counts desk.old) (D.counts desk.new) → (due : Due)
        → IsDue today (map string_bytes words.now) s due → IsAnswerTo result due) }

    // So over an accepted board it is done, want of memory aside.
    ensures settles { Told (D.seen desk.old) (λ s.
        IsQuiet (D.counts desk.old) (D.counts desk.new)
        → IsAcceptedRun (map string_bytes words.now) s → IsDoneOrMemory result) }

    // Where it is done, it took a step for each task of the board.
    ensures counts { Told (D.seen desk.old) (λ s.
        HasCounted CommandTakes result (map string_bytes words.now) s steps.old steps.new) }
{
    headline_law();
    let ended = work_single(alloc, words, desk, steps);
    complain_all(complaint(&ended).as_slice(), desk);
    ended
}

/// Runs the command that the words give, over a desk, by as many workers as `--threads` says. It may wait for them. The gate is
/// entered once for each task that one of several workers fills.
///
/// All that `run_single` promises, word for word: what a run leaves and answers doesn't depend on the number of workers, nor on
/// which of them filled what. One worker counts a step for each task; several count on counters of their own.
pub fn run<R: Threads + Wait + Sync, D: Desk, G: Gate + Sync, L: Ledger>(
    rt: &R,
    alloc: Global,
    words: &[String],
    desk: &mut D,
    gate: &G,
    steps: &mut Steps<L>,
) -> Ended
    requires room { HasRoomFor today
        (map string_bytes words.now) (D.seen desk.old) (D.room desk.old) }

    // A fault is answered only where its count rose in this run.
    ensures cause { IsCaused result (D.counts desk.old) (D.counts desk.new) }

    // What each answer leaves, against what is due of the words and the contents.
    ensures ends { Told (D.seen desk.old) (λ s.
        Ends today result (map string_bytes words.now) (D.counts desk.old) (D.counts desk.new) s
        (D.seen desk.new)) }

    // What is due of a board is true of it: its rings cover exactly the fill, which keeps its clearances; its clusters are the
    // classes of touching copper, and its ratsnests least trees.
    ensures headline { HeadlineLaw }

    // Where no count of reading, writing or saying rose, the answer is to what is due, want of memory aside.
    ensures complete { Told (D.seen desk.old) (λ s.
        IsQuiet (D.counts desk.old) (D.counts desk.new) → (due : Due)
        → IsDue today (map string_bytes words.now) s due → IsAnswerTo result due) }

    // So over an accepted board it is done, want of memory aside.
    ensures settles { Told (D.seen desk.old) (λ s.
        IsQuiet (D.counts desk.old) (D.counts desk.new)
        → IsAcceptedRun (map string_bytes words.now) s → IsDoneOrMemory result) }

    // Where it is done, one worker took a step for each task of the board, and several took none of these.
    ensures counts { Told (D.seen desk.old) (λ s.
        HasCounted WorkersTake result (map string_bytes words.now) s steps.old steps.new) }
{
    headline_law();
    let ended = work(rt, alloc, words, desk, gate, steps);
    complain_all(complaint(&ended).as_slice(), desk);
    ended
}

/// Two runs that are done, of the same words over the same contents, leave the same contents, have said the same, and count the
/// same lines; and so do two runs of `fill` whose words differ in the number of workers.
pub fn same_end_law()
    ensures words { SameEndLaw }
    ensures workers { SameWorkersLaw }
{}

/// Over a desk that never fails each run is quiet, so there it answers what is due, want of memory aside.
pub fn reserved_desks_are_quiet()
    ensures { IsQuiet no_faults no_faults }
{}
