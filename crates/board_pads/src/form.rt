// The type and the shape of a pad.
ghost use Rattle.std.specs.Prelude.{◌≡◌, ◌∷◌, [], ◌||◌, ◌&&◌, not, map, option_map, codes, IfOk, Some};
ghost use Rattle.std.specs.List.{list_any};
ghost use Rattle.board_text.specs.Fields.{is_text, passes, list_of, list_in, text_at, texts_of};
ghost use Rattle.board_text.specs.Numbers.{is_decimal, is_zero};
ghost use Rattle.board_language.specs.Pads.{is_shape, is_type, kind_of};
ghost use Rattle.board_language.specs.Offences.{is_chamfered, is_off_hole, is_zero_text, pad_shapes, pad_types};

use crate::decimal::{is_decimal, is_zero};
use board_language::PadKind;
use board_text::{Part, is_text};
use grid_num::Memory;
use std::alloc::Global;

/// Whether a text is one of those.
fn is_one_of(found: &Option<Vec<u8>>, names: &[&[u8]]) -> bool
    ensures { result ≡ list_any (λ name. is_text name (option_map (λ v. v.items) found.now)) (map (λ name. name.now) names.now) }
{
    'each: for name in names {
        if is_text(found, *name) {
            return true;
        }
    }
    false
}

/// Whether the type of a pad is one of the four.
///
/// # Errors
///
/// Want of memory.
pub fn has_type(alloc: Global, pad: &Part<'_>) -> Result<bool, Memory>
    ensures { IfOk result (λ yes. yes ≡ list_any (λ name. is_type pad.now.bytes name pad.now.item) pad_types) }
{
    let names: [&[u8]; 4] = [b"thru_hole", b"smd", b"connect", b"np_thru_hole"];
    let found = pad.text_at(alloc, 1)?;
    Ok(is_one_of(&found, &names))
}

/// Whether the shape of a pad is one of the four.
///
/// # Errors
///
/// Want of memory.
pub fn has_shape(alloc: Global, pad: &Part<'_>) -> Result<bool, Memory>
    ensures { IfOk result (λ yes. yes ≡ list_any (λ name. is_shape pad.now.bytes name pad.now.item) pad_shapes) }
{
    let names: [&[u8]; 4] = [b"circle", b"rect", b"oval", b"roundrect"];
    let found = pad.text_at(alloc, 2)?;
    Ok(is_one_of(&found, &names))
}

fn is_zero_text(found: &Option<Vec<u8>>) -> bool
    ensures { result ≡ is_zero_text (option_map (λ v. v.items) found.now) }
{
    match found {
        Some(text) => is_zero(text.as_slice()),
        None => false,
    }
}

fn is_other_ratio(alloc: Global, list: &Part<'_>) -> Result<bool, Memory>
    ensures { IfOk result (λ yes. yes ≡ not (is_zero_text (text_at list.now.bytes 0 list.now.item))) }
{
    let found = list.text_at(alloc, 0)?;
    Ok(!is_zero_text(&found))
}

/// Whether a pad has a `chamfer_ratio` other than 0.
///
/// # Errors
///
/// Want of memory.
pub fn is_chamfered(alloc: Global, pad: &Part<'_>) -> Result<bool, Memory>
    ensures { IfOk result (λ yes. yes ≡ is_chamfered pad.now.bytes pad.now.item) }
{
    match pad.list(b"chamfer_ratio") {
        Some(list) => is_other_ratio(alloc, &list),
        None => Ok(false),
    }
}

fn is_other(text: &[u8]) -> bool
    ensures { result ≡ (is_decimal text.now && not (is_zero text.now)) }
{
    is_decimal(text) && !is_zero(text)
}

fn has_other(texts: &[Vec<u8>]) -> bool
    ensures { result ≡ list_any (λ text. is_decimal text && not (is_zero text)) (map (λ t. t.items) texts.now) }
{
    'each: for text in texts {
        if is_other(text.as_slice()) {
            return true;
        }
    }
    false
}

fn is_offset(alloc: Global, list: &Part<'_>) -> Result<bool, Memory>
    ensures { IfOk result (λ yes. yes ≡ list_any (λ text. is_decimal text && not (is_zero text)) (texts_of list.now.bytes list.now.item)) }
{
    let texts = list.texts(alloc)?;
    Ok(has_other(&texts))
}

/// Whether the shape of a pad is off its hole.
///
/// # Errors
///
/// Want of memory.
pub fn is_off_hole(alloc: Global, pad: &Part<'_>) -> Result<bool, Memory>
    ensures { IfOk result (λ yes. yes ≡ is_off_hole pad.now.bytes pad.now.item) }
{
    match pad.list_in(b"drill", b"offset") {
        Some(list) => is_offset(alloc, &list),
        None => Ok(false),
    }
}

/// What a pad is.
///
/// # Errors
///
/// Want of memory.
pub fn kind_of(alloc: Global, pad: &Part<'_>) -> Result<PadKind, Memory>
    ensures { IfOk result (λ k. k ≡ kind_of pad.now.bytes pad.now.item) }
{
    let found = pad.text_at(alloc, 1)?;
    if is_text(&found, b"np_thru_hole") {
        return Ok(PadKind::Hole);
    }
    if is_text(&found, b"thru_hole") {
        return Ok(PadKind::Plated);
    }
    Ok(PadKind::Surface)
}
