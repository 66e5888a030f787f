// How a run ends.
ghost use Rattle.std.specs.Prelude.{◌≡◌};
ghost use Rattle.run_rules.specs.Status.{status_of};

use crate::words::UsageFault;
use board_language::Offence;
use edit_language::{EditFault, EditRefusal};
use sexpr_text::TextFault;

/// Which file an answer is about.
#[derive(Clone, Copy, Debug, PartialEq, Eq)]
pub enum Role {
    /// The board that is read.
    In,
    /// The script of edits.
    Edits,
}

/// How a run ended.
#[derive(Clone, Copy, Debug, PartialEq, Eq)]
pub enum Ended {
    /// All was written and said. So many lines are wanted between the clusters of all nets together.
    Done { unjoined: u64 },
    /// The words are no command.
    Usage(UsageFault),
    /// A file has more than 67,108,864 bytes; `taken` bytes of it were read.
    TooLong { role: Role, taken: u64 },
    /// The text of the board is no text.
    BadText(TextFault),
    /// Something offends in the board.
    Refused(Offence),
    /// A line of the script is faulty.
    BadScript(EditFault),
    /// The edit of this number, from 1, is refused.
    EditRefused { index: u32, refusal: EditRefusal },
    /// A file couldn't be read.
    Unreadable { role: Role },
    /// The output was cut after its first `given` bytes.
    Unwritten { given: u64 },
    /// What is to be said was cut after its first `given` bytes.
    Unsaid { given: u64 },
    /// Want of memory.
    Memory,
}

/// The exit status of the program.
pub fn status(ended: &Ended) -> u8
    ensures { result ≡ status_of ended.now }
{
    match ended {
        Ended::Done { .. } => 0,
        Ended::TooLong { .. }
        | Ended::BadText(_)
        | Ended::Refused(_)
        | Ended::BadScript(_)
        | Ended::EditRefused { .. } => 1,
        Ended::Usage(_) => 2,
        Ended::Unreadable { .. } | Ended::Unwritten { .. } | Ended::Unsaid { .. } => 3,
        Ended::Memory => 4,
    }
}
