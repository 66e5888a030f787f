// What offends in a footprint: what it says for its pads.
ghost use Rattle.std.specs.Prelude.{◌≡◌, ◌∷◌, [], ◌&&◌, ◌||◌, not, nat_lt, codes, IfOk};
ghost use Rattle.board_language.specs.Pads.{footprint_fault, has_read_pad};
ghost use Rattle.board_language.specs.Offences.{footprint_kind, footprint_lacks, has_angle, is_bad_connect};
ghost use Rattle.board_text.specs.Items.{has_bad_length};
ghost use Rattle.board_text.specs.Numbers.{has_short};
ghost use Rattle.board_items.specs.Known.{context};

use crate::angle::has_angle;
use crate::read::has_read_pad;
use board_items::{Known, has_bad_length, has_short};
use board_language::{OffenceKind, first_kind, number_kind, when};
use board_text::{Part, first_of};
use grid_num::{Memory, NumFault};
use std::alloc::Global;

/// The first of a footprint's numbers that can't be read.
///
/// # Errors
///
/// Want of memory.
#[tactic(auto, unfolding(board_language::specs::Pads::footprint_fault))]
pub fn footprint_fault(alloc: Global, footprint: &Part<'_>) -> Result<Option<NumFault>, Memory>
    ensures { IfOk result (λ f. f ≡ footprint_fault footprint.now.bytes footprint.now.item) }
{
    let at = footprint.point_fault_in(alloc, b"at")?;
    let clearance = footprint.length_fault_in(alloc, b"clearance")?;
    let connect = footprint.whole_fault_in(alloc, b"zone_connect")?;
    let gap = footprint.length_fault_in(alloc, b"thermal_gap")?;
    let width = footprint.length_fault_in(alloc, b"thermal_width")?;
    Ok(first_of(&[at, clearance, connect, gap, width]))
}

fn is_short(footprint: &Part<'_>) -> bool
    ensures { result ≡ (has_short footprint.now.bytes 2 (codes "at" ∷ []) footprint.now.item || has_short footprint.now.bytes 1 (codes "clearance" ∷ codes "zone_connect" ∷ codes "thermal_gap" ∷ codes "thermal_width" ∷ []) footprint.now.item) }
{
    let points: [&[u8]; 1] = [b"at"];
    let numbers: [&[u8]; 4] = [
        b"clearance",
        b"zone_connect",
        b"thermal_gap",
        b"thermal_width",
    ];
    has_short(footprint, 2, &points) || has_short(footprint, 1, &numbers)
}

fn footprint_lacks(alloc: Global, known: &Known, footprint: &Part<'_>) -> Result<bool, Memory>
    ensures { IfOk result (λ yes. yes ≡ footprint_lacks (context footprint.now.bytes known.now) footprint.now.item) }
{
    let read = has_read_pad(alloc, known, footprint)?;
    Ok((read && !footprint.has(b"at")) || is_short(footprint))
}

/// Whether its `zone_connect` is above 3.
///
/// # Errors
///
/// Want of memory.
pub fn is_bad_connect(alloc: Global, item: &Part<'_>) -> Result<bool, Memory>
    ensures { IfOk result (λ yes. yes ≡ is_bad_connect item.now.bytes item.now.item) }
{
    let connect = item.whole_in(alloc, b"zone_connect")?;
    Ok(connect > 3)
}

fn is_bad(alloc: Global, footprint: &Part<'_>) -> Result<bool, Memory>
    ensures { IfOk result (λ yes. yes ≡ (has_bad_length footprint.now.bytes (codes "clearance" ∷ codes "thermal_gap" ∷ codes "thermal_width" ∷ []) footprint.now.item || is_bad_connect footprint.now.bytes footprint.now.item)) }
{
    let names: [&[u8]; 3] = [b"clearance", b"thermal_gap", b"thermal_width"];
    let length = has_bad_length(alloc, footprint, &names)?;
    let connect = is_bad_connect(alloc, footprint)?;
    Ok(length || connect)
}

/// The first offence of a footprint.
///
/// # Errors
///
/// Want of memory.
#[tactic(auto, unfolding(board_language::specs::Offences::footprint_kind))]
pub fn footprint_kind(
    alloc: Global,
    known: &Known,
    footprint: &Part<'_>,
) -> Result<Option<OffenceKind>, Memory>
    ensures { IfOk result (λ k. k ≡ footprint_kind (context footprint.now.bytes known.now) footprint.now.item) }
{
    let lacks = footprint_lacks(alloc, known, footprint)?;
    let fault = footprint_fault(alloc, footprint)?;
    let read = has_read_pad(alloc, known, footprint)?;
    let angle = has_angle(alloc, footprint)?;
    let bad = is_bad(alloc, footprint)?;
    Ok(first_kind(&[
        when(OffenceKind::MissingPart, lacks),
        number_kind(fault),
        when(OffenceKind::Angle, read && !angle),
        when(OffenceKind::BadSize, bad),
    ]))
}
