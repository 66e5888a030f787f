// What offends in zones and rule areas.
ghost use Rattle.std.specs.Prelude.{◌≡◌, IfOk};
ghost use Rattle.board_language.specs.Offences.{area_kind, bad_outline, has_other_mode, has_teardrop, is_hatched, is_smoothed, zone_kind};
ghost use Rattle.board_items.specs.Known.{context};
ghost use Rattle.board_zones.specs.Kinds.{IsAreaKind, IsZoneKind};

use crate::faults::{zone_fault, zone_is_bad, zone_lacks};
use crate::inside::says_inside;
use crate::outline::{
    corners_fault, has_arc, has_two_outlines, is_long_outline, outline_lacks, outline_result,
};
use crate::read::has_unknown_layer;
use crate::settings::thickness_in;
use board_items::{Known, is_unknown_net, size_of};
use board_language::{OffenceKind, first_kind, number_kind, when};
use board_text::{Part, whole_fault, whole_number};
use grid_num::Memory;
use outline_slab::OutlineFault;
use std::alloc::Global;

/// Whether it is a teardrop.
fn has_teardrop(alloc: Global, zone: &Part<'_>) -> Result<bool, Memory>
    ensures { IfOk result (λ yes. yes ≡ has_teardrop zone.now.bytes zone.now.item) }
{
    match zone.list(b"attr") {
        Some(attr) => {
            let says = attr.says(alloc, b"teardrop")?;
            Ok(attr.has(b"teardrop") || says)
        }
        None => Ok(false),
    }
}

fn is_hatched(alloc: Global, zone: &Part<'_>) -> Result<bool, Memory>
    ensures { IfOk result (λ yes. yes ≡ is_hatched zone.now.bytes zone.now.item) }
{
    says_inside(alloc, zone, b"fill", b"mode", b"hatch")
}

fn is_smoothed(alloc: Global, zone: &Part<'_>) -> Result<bool, Memory>
    ensures { IfOk result (λ yes. yes ≡ is_smoothed zone.now.bytes zone.now.item) }
{
    match zone.list_in(b"fill", b"smoothing") {
        Some(list) => {
            let none = list.says_at(alloc, 0, b"none")?;
            Ok(!none)
        }
        None => Ok(false),
    }
}

/// Whether islands are removed otherwise than always, never or below an area.
fn has_other_mode(alloc: Global, zone: &Part<'_>) -> Result<bool, Memory>
    ensures { IfOk result (λ yes. yes ≡ has_other_mode zone.now.bytes zone.now.item) }
{
    match zone.list_in(b"fill", b"island_removal_mode") {
        Some(list) => match list.text_at(alloc, 0)? {
            Some(text) => Ok(whole_fault(&text).is_none() && whole_number(&text) > 2),
            None => Ok(false),
        },
        None => Ok(false),
    }
}

fn outline_kind(fault: Option<OutlineFault>) -> Option<OffenceKind>
    ensures { result ≡ bad_outline fault }
{
    match fault {
        Some(fault) => Some(OffenceKind::Outline(fault)),
        None => None,
    }
}

/// The first offence of a rule area that is read, where its outline is refused for this, with another of its stamp
/// before or not, and one too many or not.
#[tactic(auto, unfolding(board_language::specs::Offences::area_kind))]
fn kind_of_area(
    alloc: Global,
    known: &Known,
    zone: &Part<'_>,
    outline: Option<OutlineFault>,
    double: bool,
    many: bool,
) -> Result<Option<OffenceKind>, Memory>
    ensures { IfOk result (λ k. k ≡ area_kind (context zone.now.bytes known.now) zone.now.item outline double many) }
{
    let arc = has_arc(alloc, zone)?;
    let lacks = outline_lacks(alloc, zone)?;
    let fault = corners_fault(alloc, zone)?;
    let unknown = has_unknown_layer(alloc, known, zone)?;
    let long = is_long_outline(alloc, zone)?;
    Ok(first_kind(&[
        when(OffenceKind::ManyOutlines, has_two_outlines(zone)),
        when(OffenceKind::PolygonArc, arc),
        when(OffenceKind::MissingPart, lacks),
        number_kind(fault),
        when(OffenceKind::UnknownLayer, unknown),
        when(OffenceKind::DoubleStamp, double),
        outline_kind(outline),
        when(OffenceKind::TooMany, many || long),
    ]))
}

/// The first offence of a rule area that is read, with another of its stamp before or not, and one too many or not.
///
/// # Errors
///
/// Want of memory.
pub fn area_kind(
    alloc: Global,
    known: &Known,
    zone: &Part<'_>,
    double: bool,
    many: bool,
) -> Result<Option<OffenceKind>, Memory>
    ensures { IfOk result (IsAreaKind (context zone.now.bytes known.now) zone.now.item double many) }
{
    let outline = outline_result(alloc, zone)?;
    kind_of_area(alloc, known, zone, outline, double, many)
}

/// The first offence of a zone that is read, where its outline is refused for this.
#[tactic(auto, unfolding(board_language::specs::Offences::zone_kind))]
fn kind_of_zone(
    alloc: Global,
    known: &Known,
    zone: &Part<'_>,
    outline: Option<OutlineFault>,
    double: bool,
    many: bool,
) -> Result<Option<OffenceKind>, Memory>
    ensures { IfOk result (λ k. k ≡ zone_kind (context zone.now.bytes known.now) zone.now.item outline double many) }
{
    let teardrop = has_teardrop(alloc, zone)?;
    let hatched = is_hatched(alloc, zone)?;
    let smoothed = is_smoothed(alloc, zone)?;
    let mode = has_other_mode(alloc, zone)?;
    let arc = has_arc(alloc, zone)?;
    let lacks = zone_lacks(alloc, zone)?;
    let fault = zone_fault(alloc, zone)?;
    let bad = zone_is_bad(alloc, zone)?;
    let thickness = thickness_in(alloc, zone)?;
    let unknown = has_unknown_layer(alloc, known, zone)?;
    let net = is_unknown_net(alloc, known, zone)?;
    let long = is_long_outline(alloc, zone)?;
    Ok(first_kind(&[
        when(OffenceKind::Teardrop, teardrop),
        when(OffenceKind::HatchFill, hatched),
        when(OffenceKind::Smoothing, smoothed),
        when(OffenceKind::IslandArea, mode),
        when(OffenceKind::ManyOutlines, has_two_outlines(zone)),
        when(OffenceKind::PolygonArc, arc),
        when(OffenceKind::MissingPart, lacks),
        number_kind(fault),
        when(OffenceKind::BadSize, bad),
        when(OffenceKind::Thin, size_of(thickness) < 1_000),
        when(OffenceKind::UnknownLayer, unknown),
        when(OffenceKind::UnknownNet, net),
        when(OffenceKind::DoubleStamp, double),
        outline_kind(outline),
        when(OffenceKind::TooMany, many || long),
    ]))
}

/// The first offence of a zone that is read, with another of its stamp before or not, and one too many or not.
///
/// # Errors
///
/// Want of memory.
pub fn zone_kind(
    alloc: Global,
    known: &Known,
    zone: &Part<'_>,
    double: bool,
    many: bool,
) -> Result<Option<OffenceKind>, Memory>
    ensures { IfOk result (IsZoneKind (context zone.now.bytes known.now) zone.now.item double many) }
{
    let outline = outline_result(alloc, zone)?;
    kind_of_zone(alloc, known, zone, outline, double, many)
}
