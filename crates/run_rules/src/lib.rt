//! A run, seen from outside: what its words are, what is due of it, how it ends, and what each answer leaves.
//! The layer above uses the definitions of `specs/` and their laws, and the calls for statuses and complaints.
//! Places are numbers of bytes, lines and edits count from 1, lengths are nanometres.
#![tactic(auto)]

ghost use Rattle.run_rules.specs.Laws.{WantedLaw, RangeLaw, OneFillsLaw, OneOutlinesLaw, OneDueLaw, AnswersDueLaw};
ghost use Rattle.run_rules.specs.Rows.{CommandRows, FaultRows, OrderRows, ComplaintRows};

mod commands;
mod complaints;
mod ended;
mod items;
mod line;
mod values;
mod words;

pub use board_language::Offence;
pub use commands::read_words;
pub use complaints::{Line, complaint};
pub use ended::{Ended, Role, status};
pub use items::items_in;
pub use values::default_rules;
pub use words::{Command, FileName, Flag, UsageFault, WordsError};

/// Words are a command, or have a first fault: just one of the two.
pub fn wanted_law()
    ensures { WantedLaw }
{}

/// The numbers of a command are in their ranges: 1 to 64 workers, clearances from 2 nm to 100 mm, a seed below 2^64, and a board
/// that is made is 1 to 200 cells wide.
pub fn range_law()
    ensures { RangeLaw }
{}

/// A board has at most one list of fills, and fills have at most one list of outlines.
pub fn filled_law()
    ensures fills { OneFillsLaw }
    ensures outlines { OneOutlinesLaw }
{}

/// At most one thing is due of a run, and a run in which no count of faults rose answers it, want of memory aside.
pub fn due_law()
    ensures one { OneDueLaw }
    ensures answers { AnswersDueLaw }
{}

/// Words worked by hand, and what runs complain.
pub fn rows()
    ensures commands { CommandRows }
    ensures faults { FaultRows }
    ensures order { OrderRows }
    ensures complaints { ComplaintRows }
{}
