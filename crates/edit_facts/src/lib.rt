//! What holds of every edit of a board: the piece of the text that it takes out lies in the text.
//! The crates above use the laws that the functions here state; nothing here runs. A place is a number of bytes.
#![tactic(auto)]

ghost use Rattle.edit_facts.specs.Laws.{ZoneLaw, EditLaw};

/// A new priority or clearance of a zone that stands in a text replaces bytes of that text, and where the zone has
/// `connect_pads`, that list has a closing parenthesis to put the clearance before.
pub fn zone_law()
    ensures { ZoneLaw }
{}

/// So does each edit of a board's text, whichever item has the stamp that it names.
pub fn edit_law()
    ensures { EditLaw }
{}
