//! Scripts of edits, and one edit of a board: its new text, and the board of that.
//! The layer above uses `Script::read` and `edited`; contracts speak in the definitions of `edit_language`.
//! Lengths are nanometres, lines count from 1.
#![tactic(auto)]

mod change;
mod error;
mod fault;
mod form;
mod laws;
mod line;
mod script;
mod splice;
mod stamp;
mod words;

pub use change::edited;
pub use edit_language::{Edit, EditFault, EditKind, EditRefusal};
pub use error::{EditError, ScriptError};
pub use laws::board_law;
pub use script::Script;
