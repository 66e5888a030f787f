//! The language of edits: what the lines of an edit script say, and what each edit does to the text of a board.
//! The layer above uses the types of edits and refusals, the definitions of `specs/` with their laws, and the pieces of text.
//! Lengths are nanometres, places are numbers of bytes from the front of the text, lines and edits count from 1.
#![tactic(auto)]

mod edit;
mod laws;
mod splice;
mod text;

pub use board_language::{Name, Offence};
pub use edit::{Edit, EditFault, EditKind, EditRefusal};
pub use laws::{
    edited_law, line_law, offence_law, rows, script_law, spell_law, stamp_law, word_law,
    written_law,
};
pub use splice::{Splice, drop_copper, put_track, put_via, set_clearance, set_priority};
