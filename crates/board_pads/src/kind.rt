// What offends in a pad.
ghost use Rattle.std.specs.Prelude.{◌≡◌, ◌∷◌, [], ◌||◌, not, codes, is_none, IfOk};
ghost use Rattle.std.specs.List.{list_any};
ghost use Rattle.board_text.specs.Fields.{list_of, lacks};
ghost use Rattle.board_text.specs.Numbers.{is_short, length_at, has_short};
ghost use Rattle.board_text.specs.Items.{is_bad_length, is_no_size, has_bad_length};
ghost use Rattle.board_text.specs.Layers.{has_unknown};
ghost use Rattle.board_language.specs.Pads.{bridge_list, is_shape, pad_fault, ratio_in};
ghost use Rattle.board_language.specs.Offences.{has_bad_drill, is_bad_connect, is_bad_ratio, is_chamfered, pad_is_bad, pad_kind, pad_lacks, pad_shapes};
ghost use Rattle.board_items.specs.Known.{context};

use crate::angle::has_angle;
use crate::bridge::{bridge_fault, is_bad_bridge, is_short_bridge};
use crate::drill::{drill_fault, has_bad_drill};
use crate::footprint::is_bad_connect;
use crate::form::{has_shape, has_type, is_chamfered, is_off_hole};
use crate::given::ReadFootprint;
use crate::place::place_fault;
use crate::ratio::{ratio_fault_in, ratio_in};
use crate::size::size_at;
use board_items::{
    Known, has_bad_length, has_short, has_unknown, is_no_size, is_unknown_net, lacks,
};
use board_language::{OffenceKind, first_kind, number_kind, when};
use board_text::{Part, first_of};
use grid_num::{Memory, NumFault};
use std::alloc::Global;

/// The first of a pad's numbers that can't be read.
///
/// # Errors
///
/// Want of memory.
#[tactic(auto, unfolding(board_language::specs::Pads::pad_fault))]
fn pad_fault(
    alloc: Global,
    footprint: &ReadFootprint<'_, '_>,
    pad: &Part<'_>,
) -> Result<Option<NumFault>, Memory>
    requires same { footprint.now.bytes ≡ pad.now.bytes }
    ensures { IfOk result (λ f. f ≡ pad_fault pad.now.bytes footprint.now.item pad.now.item) }
{
    let at = pad.point_fault_in(alloc, b"at")?;
    let place = place_fault(alloc, footprint, pad)?;
    let size = pad.point_fault_in(alloc, b"size")?;
    let drill = drill_fault(alloc, pad)?;
    let net = pad.whole_fault_in(alloc, b"net")?;
    let ratio = ratio_fault_in(alloc, pad)?;
    let clearance = pad.length_fault_in(alloc, b"clearance")?;
    let connect = pad.whole_fault_in(alloc, b"zone_connect")?;
    let gap = pad.length_fault_in(alloc, b"thermal_gap")?;
    let bridge = bridge_fault(alloc, pad)?;
    Ok(first_of(&[
        at, place, size, drill, net, ratio, clearance, connect, gap, bridge,
    ]))
}

fn is_short(pad: &Part<'_>) -> bool
    ensures { result ≡ (has_short pad.now.bytes 2 (codes "at" ∷ codes "size" ∷ []) pad.now.item || (has_short pad.now.bytes 1 (codes "net" ∷ codes "roundrect_rratio" ∷ codes "clearance" ∷ codes "zone_connect" ∷ codes "thermal_gap" ∷ []) pad.now.item || is_short 1 (bridge_list pad.now.bytes pad.now.item))) }
{
    let points: [&[u8]; 2] = [b"at", b"size"];
    let numbers: [&[u8]; 5] = [
        b"net",
        b"roundrect_rratio",
        b"clearance",
        b"zone_connect",
        b"thermal_gap",
    ];
    has_short(pad, 2, &points) || has_short(pad, 1, &numbers) || is_short_bridge(pad)
}

fn pad_lacks(pad: &Part<'_>) -> bool
    ensures { result ≡ pad_lacks pad.now.bytes pad.now.item }
{
    let names: [&[u8]; 2] = [b"at", b"size"];
    lacks(pad, &names) || is_short(pad)
}

fn is_bad_size(alloc: Global, pad: &Part<'_>, place: usize) -> Result<bool, Memory>
    ensures { IfOk result (λ yes. yes ≡ is_no_size (length_at pad.now.bytes place (list_of pad.now.bytes (codes "size") pad.now.item))) }
{
    let length = size_at(alloc, pad, place)?;
    Ok(is_no_size(length))
}

fn is_bad_ratio(alloc: Global, pad: &Part<'_>) -> Result<bool, Memory>
    ensures { IfOk result (λ yes. yes ≡ is_bad_ratio (ratio_in pad.now.bytes pad.now.item)) }
{
    let ratio = ratio_in(alloc, pad)?;
    Ok(ratio.is_none())
}

fn is_bad_join(alloc: Global, pad: &Part<'_>) -> Result<bool, Memory>
    ensures { IfOk result (λ yes. yes ≡ (has_bad_length pad.now.bytes (codes "clearance" ∷ codes "thermal_gap" ∷ []) pad.now.item || (is_bad_length pad.now.bytes (bridge_list pad.now.bytes pad.now.item) || is_bad_connect pad.now.bytes pad.now.item))) }
{
    let names: [&[u8]; 2] = [b"clearance", b"thermal_gap"];
    let length = has_bad_length(alloc, pad, &names)?;
    let bridge = is_bad_bridge(alloc, pad)?;
    let connect = is_bad_connect(alloc, pad)?;
    Ok(length || bridge || connect)
}

/// Whether a size, a length or the ratio of a pad is out of its range.
fn pad_is_bad(alloc: Global, pad: &Part<'_>) -> Result<bool, Memory>
    ensures { IfOk result (λ yes. yes ≡ pad_is_bad pad.now.bytes pad.now.item) }
{
    let width = is_bad_size(alloc, pad, 0)?;
    let height = is_bad_size(alloc, pad, 1)?;
    let drill = has_bad_drill(alloc, pad)?;
    let ratio = is_bad_ratio(alloc, pad)?;
    let join = is_bad_join(alloc, pad)?;
    Ok(width || height || drill || ratio || join)
}

fn has_unknown_layer(alloc: Global, known: &Known, pad: &Part<'_>) -> Result<bool, Memory>
    ensures { IfOk result (λ yes. yes ≡ has_unknown pad.now.bytes known.now.copper (list_of pad.now.bytes (codes "layers") pad.now.item)) }
{
    match pad.list(b"layers") {
        Some(list) => has_unknown(alloc, known, &list),
        None => Ok(false),
    }
}

fn is_bad_shape(alloc: Global, pad: &Part<'_>) -> Result<bool, Memory>
    ensures { IfOk result (λ yes. yes ≡ (not (list_any (λ name. is_shape pad.now.bytes name pad.now.item) pad_shapes) || is_chamfered pad.now.bytes pad.now.item)) }
{
    let shape = has_shape(alloc, pad)?;
    let chamfered = is_chamfered(alloc, pad)?;
    Ok(!shape || chamfered)
}

/// The first offence of a pad in a footprint, that is one too many or not. Both stand in one text.
///
/// # Errors
///
/// Want of memory.
#[tactic(auto, unfolding(board_language::specs::Offences::pad_kind))]
pub fn pad_kind(
    alloc: Global,
    known: &Known,
    footprint: &ReadFootprint<'_, '_>,
    pad: &Part<'_>,
    many: bool,
) -> Result<Option<OffenceKind>, Memory>
    requires same { footprint.now.bytes ≡ pad.now.bytes }
    ensures { IfOk result (λ k. k ≡ pad_kind (context pad.now.bytes known.now) footprint.now.item pad.now.item many) }
{
    let has_type = has_type(alloc, pad)?;
    let shape = is_bad_shape(alloc, pad)?;
    let off = is_off_hole(alloc, pad)?;
    let fault = pad_fault(alloc, footprint, pad)?;
    let angle = has_angle(alloc, pad)?;
    let bad = pad_is_bad(alloc, pad)?;
    let unknown = has_unknown_layer(alloc, known, pad)?;
    let net = is_unknown_net(alloc, known, pad)?;
    Ok(first_kind(&[
        when(OffenceKind::PadType, !has_type),
        when(OffenceKind::PadShape, shape),
        when(OffenceKind::PadOffset, off),
        when(OffenceKind::MissingPart, pad_lacks(pad)),
        number_kind(fault),
        when(OffenceKind::Angle, !angle),
        when(OffenceKind::BadSize, bad),
        when(OffenceKind::UnknownLayer, unknown),
        when(OffenceKind::UnknownNet, net),
        when(OffenceKind::TooMany, many),
    ]))
}
