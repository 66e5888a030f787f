//! What stands in the text of a board, as far as it speaks of words and numbers alone: lists by their heads, the words,
//! strings and numbers behind their heads, layers, nets and stamps, and what each list of a board is. The layer above uses
//! `Part`, which contracts see as an item with the bytes of its text. Places count from 0 behind the head.
#![tactic(auto)]

mod list;
mod name;
mod number;
mod part;
mod space;
mod stamped;
mod text;

pub use name::Name;
pub use number::{
    are_digits, area_fault, area_law, area_number, first_of, length_fault, length_law, length_of,
    whole_fault, whole_number,
};
pub use part::Part;
pub use space::solid_end;
pub use stamped::Stamped;
pub use text::{has_text, is_text};
