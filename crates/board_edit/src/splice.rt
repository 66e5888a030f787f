// What an edit does to the text of its board.
ghost use Rattle.std.specs.Prelude.{◌≡◌, ◌<◌, None, Some, IfOk};
ghost use Rattle.sexpr_text.specs.Items.{Item};
ghost use Rattle.sexpr_text.specs.Trees.{IsRoot};
ghost use Rattle.board_items.specs.Stamps.{stamped};
ghost use Rattle.edit_language.specs.Scripts.{IsFormed};
ghost use Rattle.edit_language.specs.Edited.{edit_stamp, stamp_refusal, if_no_copper, if_no_zone, splice_in, IsPut};
ghost use Rattle.board_edit.specs.Edited.{IsReadOf};
ghost use Rattle.board_edit.specs.Inner.Things.{IsNumber, copper_span, zone_in};

use board_language::Zone;
use board_model::Board;
use board_text::{Stamped, solid_end};
use edit_language::{Edit, Splice, drop_copper, put_track, put_via, set_clearance, set_priority};
use grid_num::Memory;
use sexpr_text::Span;
use std::alloc::Global;

/// All of a text up to the end of its list.
fn up_to_end(text: &[u8]) -> Span
    ensures { (root : Item) → IsRoot text.now root → result.to ≡ root.to }
{
    Span {
        from: 0,
        to: solid_end(text, text.len()),
    }
}

/// Where the track or via with this number stands.
fn copper_span(board: &Board, thing: Option<Stamped>) -> Span
    requires kind { if_no_copper thing ≡ None }
    requires number { IsNumber board.now.board thing }
    ensures { Some result ≡ copper_span board.now.board thing }
{
    match thing {
        Some(Stamped::Track(number)) => board.tracks()[number as usize].span,
        Some(Stamped::Via(number)) => board.vias()[number as usize].span,
        Some(Stamped::Zone(_) | Stamped::Other) | None => unreachable!(),
    }
}

/// The zone with this number.
fn zone_in(board: &Board, thing: Option<Stamped>) -> &Zone
    requires kind { if_no_zone thing ≡ None }
    requires number { IsNumber board.now.board thing }
    ensures { Some result.now ≡ zone_in board.now.board thing }
{
    match thing {
        Some(Stamped::Zone(number)) => &board.zones()[number as usize],
        Some(Stamped::Track(_) | Stamped::Via(_) | Stamped::Other) | None => unreachable!(),
    }
}

/// The splice of an edit whose stamp is right.
fn splice_of(
    alloc: Global,
    text: &[u8],
    board: &Board,
    edit: &Edit,
    thing: Option<Stamped>,
) -> Result<Splice, Memory>
    requires board { IsReadOf text.now board.now }
    requires formed { IsFormed edit.now }
    requires thing { thing ≡ stamped board.now.stamps (edit_stamp edit.now) }
    requires fits { stamp_refusal edit.now thing ≡ None }
    ensures { IfOk result (λ s. (root : Item) → IsRoot text.now root → s ≡ splice_in text.now root edit.now) }
{
    match edit {
        Edit::Track {
            from,
            to,
            width,
            layer,
            net,
            stamp,
        } => put_track(
            alloc,
            up_to_end(text),
            board.version(),
            *from,
            *to,
            *width,
            layer.bytes(),
            *net,
            stamp.bytes(),
        ),
        Edit::Via {
            at,
            size,
            drill,
            top,
            bottom,
            net,
            stamp,
        } => put_via(
            alloc,
            up_to_end(text),
            board.version(),
            *at,
            *size,
            *drill,
            top.bytes(),
            bottom.bytes(),
            *net,
            stamp.bytes(),
        ),
        Edit::Drop { .. } => Ok(drop_copper(alloc, copper_span(board, thing))),
        Edit::Priority { value, .. } => set_priority(alloc, &zone_in(board, thing).spans, *value),
        Edit::Clearance { value, .. } => set_clearance(alloc, &zone_in(board, thing).spans, *value),
    }
}

/// The text that an edit makes whose stamp is right.
///
/// # Errors
///
/// Want of memory.
pub fn new_text(
    alloc: Global,
    text: &[u8],
    board: &Board,
    edit: &Edit,
    thing: Option<Stamped>,
) -> Result<Vec<u8>, Memory>
    requires board { IsReadOf text.now board.now }
    requires formed { IsFormed edit.now }
    requires thing { thing ≡ stamped board.now.stamps (edit_stamp edit.now) }
    requires fits { stamp_refusal edit.now thing ≡ None }
    ensures { IfOk result (λ new. IsPut text.now edit.now new.items) }
{
    let splice = splice_of(alloc, text, board, edit, thing)?;
    splice.made(alloc, text)
}
