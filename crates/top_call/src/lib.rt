//! The top call: a run over any desk, from its words to its answer.
//! The program calls `run`; its contract, and that of `run_single` without its workers, is all that is promised of a run: what each
//! answer leaves against what is due.
//! Places and lengths of texts are in bytes, lengths on a board in nanometres.
#![tactic(auto)]

ghost use Rattle.run_rules.specs.Laws.{HasOneDue};
ghost use Rattle.top_call.specs.Rows.{WordsRows};
ghost use Rattle.top_call.specs.Today.{today};

mod drawn;
mod finished;
mod opened;
mod passing;
mod refusal;
mod runs;
mod words;

pub use runs::{reserved_desks_are_quiet, run, run_single, same_end_law};

/// At most one thing is due of a run.
pub fn due_law()
    ensures { HasOneDue today }
{}

/// Words worked by hand: what they want of the program today.
pub fn rows()
    ensures { WordsRows }
{}
