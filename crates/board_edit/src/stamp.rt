// The stamp of an edit, and why an edit is refused for what has it.
ghost use Rattle.std.specs.Prelude.{◌≡◌};
ghost use Rattle.edit_language.specs.Edited.{edit_stamp, stamp_refusal, if_taken, if_no_copper, if_no_zone};

use board_text::Stamped;
use edit_language::{Edit, EditRefusal};

/// The stamp that an edit gives or names.
pub fn stamp_of(edit: &Edit) -> &[u8]
    ensures { result.now ≡ edit_stamp edit.now }
{
    match edit {
        Edit::Track { stamp, .. } => stamp.bytes(),
        Edit::Via { stamp, .. } => stamp.bytes(),
        Edit::Drop { stamp } => stamp.bytes(),
        Edit::Priority { stamp, .. } => stamp.bytes(),
        Edit::Clearance { stamp, .. } => stamp.bytes(),
    }
}

/// A new thing's stamp is one that nothing has.
fn if_taken(thing: Option<Stamped>) -> Option<EditRefusal>
    ensures { result ≡ if_taken thing }
{
    match thing {
        Some(_) => Some(EditRefusal::StampTaken),
        None => None,
    }
}

/// A track or via is dropped, and nothing else.
fn if_no_copper(thing: Option<Stamped>) -> Option<EditRefusal>
    ensures { result ≡ if_no_copper thing }
{
    match thing {
        Some(Stamped::Track(_) | Stamped::Via(_)) => None,
        Some(Stamped::Zone(_) | Stamped::Other) => Some(EditRefusal::WrongKind),
        None => Some(EditRefusal::NoStamp),
    }
}

/// A copper zone that is read is set, and nothing else.
fn if_no_zone(thing: Option<Stamped>) -> Option<EditRefusal>
    ensures { result ≡ if_no_zone thing }
{
    match thing {
        Some(Stamped::Zone(_)) => None,
        Some(Stamped::Track(_) | Stamped::Via(_) | Stamped::Other) => Some(EditRefusal::WrongKind),
        None => Some(EditRefusal::NoStamp),
    }
}

/// Why an edit is refused for what has its stamp.
#[tactic(auto, unfolding(edit_language::specs::Edited::stamp_refusal))]
pub fn stamp_refusal(edit: &Edit, thing: Option<Stamped>) -> Option<EditRefusal>
    ensures { result ≡ stamp_refusal edit.now thing }
{
    match edit {
        Edit::Track { .. } | Edit::Via { .. } => if_taken(thing),
        Edit::Drop { .. } => if_no_copper(thing),
        Edit::Priority { .. } | Edit::Clearance { .. } => if_no_zone(thing),
    }
}
