//! A piece of a text is replaced by another: the one step of which all edits of a board's text are made.
//! The layer above may use that `spliced` makes the text of the definition `IsSplice`, and the laws of it.
//! Places are bytes from the front of the text.
#![tactic(auto)]

ghost use Rattle.std.specs.Prelude.{◌≤◌, length, IfOk};
ghost use Rattle.text_splices.specs.Splice.{IsSplice};
ghost use Rattle.text_splices.specs.Laws.{OneLaw, UndoLaw, SizeLaw};

use grid_num::Memory;
use std::alloc::Global;

/// The text in which the bytes from one place to another, the last one not counted in, are replaced by others. All other
/// bytes stay, each in its order. Refuses for want of memory alone.
pub fn spliced(
    alloc: Global,
    text: &[u8],
    from: usize,
    to: usize,
    put: &[u8],
) -> Result<Vec<u8>, Memory>
    requires order { from ≤ to }
    requires within { to ≤ length text.now }
    ensures { IfOk result (λ new. IsSplice text.now from to put.now new.items) }
{
    let (front, behind) = text.split_at(from);
    let (_out, tail) = behind.split_at(to - from);
    let mut new = Vec::new(alloc);
    new.extend_from_slice(front)?;
    new.extend_from_slice(put)?;
    new.extend_from_slice(tail)?;
    Ok(new)
}

/// A splice makes one text and no other, of the size that it must have; and it is undone by a splice at its place.
pub fn splice_law()
    ensures one { OneLaw }
    ensures size { SizeLaw }
    ensures undo { UndoLaw }
{}
