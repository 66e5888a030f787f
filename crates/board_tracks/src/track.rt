// Tracks and vias.
ghost use Rattle.std.specs.Prelude.{◌≡◌, ℕ, ◌≤◌, ◌∷◌, [], ◌||◌, not, nat_lt, length, map, codes, IfOk};
ghost use Rattle.board_text.specs.Fields.{lacks};
ghost use Rattle.board_text.specs.Numbers.{has_short};
ghost use Rattle.board_text.specs.Items.{line_of};
ghost use Rattle.board_language.specs.Tracks.{track_of, track_fault, via_of, via_with, via_fault};
ghost use Rattle.board_language.specs.Offences.{track_lacks, via_lacks, track_kind, via_kind};
ghost use Rattle.board_items.specs.Known.{context};

use board_items::{
    Known, has_bad_size, has_short, is_unknown_net, lacks, layer_names, layers_between, name_at,
    size_of,
};
use board_language::{OffenceKind, Track, Via, first_kind, number_kind, when};
use board_text::{Part, first_of};
use grid_num::{Memory, NumFault};
use std::alloc::Global;

/// The first of a track's numbers that can't be read.
///
/// # Errors
///
/// Want of memory.
#[tactic(auto, unfolding(board_language::specs::Tracks::track_fault))]
pub fn track_fault(alloc: Global, item: &Part<'_>) -> Result<Option<NumFault>, Memory>
    ensures { IfOk result (λ f. f ≡ track_fault item.now.bytes item.now.item) }
{
    let start = item.point_fault_in(alloc, b"start")?;
    let end = item.point_fault_in(alloc, b"end")?;
    let width = item.length_fault_in(alloc, b"width")?;
    let net = item.whole_fault_in(alloc, b"net")?;
    Ok(first_of(&[start, end, width, net]))
}

/// The first of a via's numbers that can't be read.
///
/// # Errors
///
/// Want of memory.
#[tactic(auto, unfolding(board_language::specs::Tracks::via_fault))]
pub fn via_fault(alloc: Global, item: &Part<'_>) -> Result<Option<NumFault>, Memory>
    ensures { IfOk result (λ f. f ≡ via_fault item.now.bytes item.now.item) }
{
    let at = item.point_fault_in(alloc, b"at")?;
    let size = item.length_fault_in(alloc, b"size")?;
    let net = item.whole_fault_in(alloc, b"net")?;
    Ok(first_of(&[at, size, net]))
}

fn track_lacks_lists(item: &Part<'_>) -> bool
    ensures { result ≡ lacks item.now.bytes (codes "start" ∷ codes "end" ∷ codes "width" ∷ []) item.now.item }
{
    let names: [&[u8]; 3] = [b"start", b"end", b"width"];
    lacks(item, &names)
}

fn track_is_short(item: &Part<'_>) -> bool
    ensures { result ≡ (has_short item.now.bytes 2 (codes "start" ∷ codes "end" ∷ []) item.now.item || has_short item.now.bytes 1 (codes "width" ∷ codes "net" ∷ []) item.now.item) }
{
    let points: [&[u8]; 2] = [b"start", b"end"];
    let numbers: [&[u8]; 2] = [b"width", b"net"];
    has_short(item, 2, &points) || has_short(item, 1, &numbers)
}

/// Whether a track lacks a part.
pub fn track_lacks(alloc: Global, item: &Part<'_>) -> Result<bool, Memory>
    ensures { IfOk result (λ yes. yes ≡ track_lacks item.now.bytes item.now.item) }
{
    let names = layer_names(alloc, item, b"layer")?;
    Ok(track_lacks_lists(item) || names.len() < 1 || track_is_short(item))
}

fn via_lacks_lists(item: &Part<'_>) -> bool
    ensures { result ≡ lacks item.now.bytes (codes "at" ∷ codes "size" ∷ []) item.now.item }
{
    let names: [&[u8]; 2] = [b"at", b"size"];
    lacks(item, &names)
}

fn via_is_short(item: &Part<'_>) -> bool
    ensures { result ≡ (has_short item.now.bytes 2 (codes "at" ∷ []) item.now.item || has_short item.now.bytes 1 (codes "size" ∷ codes "net" ∷ []) item.now.item) }
{
    let points: [&[u8]; 1] = [b"at"];
    let numbers: [&[u8]; 2] = [b"size", b"net"];
    has_short(item, 2, &points) || has_short(item, 1, &numbers)
}

/// Whether a via lacks a part.
pub fn via_lacks(alloc: Global, item: &Part<'_>) -> Result<bool, Memory>
    ensures { IfOk result (λ yes. yes ≡ via_lacks item.now.bytes item.now.item) }
{
    let names = layer_names(alloc, item, b"layers")?;
    Ok(via_lacks_lists(item) || names.len() < 2 || via_is_short(item))
}

/// The first offence of a track, with another of its stamp before or not, and one too many or not.
///
/// # Errors
///
/// Want of memory.
#[tactic(auto, unfolding(board_language::specs::Offences::track_kind))]
pub fn track_kind(
    alloc: Global,
    known: &Known,
    item: &Part<'_>,
    double: bool,
    many: bool,
) -> Result<Option<OffenceKind>, Memory>
    ensures { IfOk result (λ k. k ≡ track_kind (context item.now.bytes known.now) item.now.item double many) }
{
    let lacks = track_lacks(alloc, item)?;
    let fault = track_fault(alloc, item)?;
    let bad = has_bad_size(alloc, item, b"width")?;
    let names = layer_names(alloc, item, b"layer")?;
    let layer = known.copper.has(name_at(&names, 0));
    let net = is_unknown_net(alloc, known, item)?;
    Ok(first_kind(&[
        when(OffenceKind::MissingPart, lacks),
        number_kind(fault),
        when(OffenceKind::BadSize, bad),
        when(OffenceKind::UnknownLayer, !layer),
        when(OffenceKind::UnknownNet, net),
        when(OffenceKind::DoubleStamp, double),
        when(OffenceKind::TooMany, many),
    ]))
}

/// The first offence of a via, with another of its stamp before or not, and one too many or not.
///
/// # Errors
///
/// Want of memory.
#[tactic(auto, unfolding(board_language::specs::Offences::via_kind))]
pub fn via_kind(
    alloc: Global,
    known: &Known,
    item: &Part<'_>,
    double: bool,
    many: bool,
) -> Result<Option<OffenceKind>, Memory>
    ensures { IfOk result (λ k. k ≡ via_kind (context item.now.bytes known.now) item.now.item double many) }
{
    let lacks = via_lacks(alloc, item)?;
    let fault = via_fault(alloc, item)?;
    let bad = has_bad_size(alloc, item, b"size")?;
    let names = layer_names(alloc, item, b"layers")?;
    let layers = known.copper.has(name_at(&names, 0)) && known.copper.has(name_at(&names, 1));
    let net = is_unknown_net(alloc, known, item)?;
    Ok(first_kind(&[
        when(OffenceKind::MissingPart, lacks),
        number_kind(fault),
        when(OffenceKind::BadSize, bad),
        when(OffenceKind::UnknownLayer, !layers),
        when(OffenceKind::UnknownNet, net),
        when(OffenceKind::DoubleStamp, double),
        when(OffenceKind::TooMany, many),
    ]))
}

/// The track that is read of an item on this line, of a board with at most 32 copper layers.
///
/// # Errors
///
/// Want of memory.
#[tactic(auto, unfolding(board_language::specs::Tracks::track_of))]
pub fn track_of(alloc: Global, known: &Known, item: &Part<'_>, line: u64) -> Result<Track, Memory>
    requires few { length known.now.copper ≤ 32 }
    requires line { line ≡ line_of item.now.bytes item.now.item.from }
    ensures { IfOk result (λ t. t ≡ track_of (context item.now.bytes known.now) item.now.item) }
{
    let names = layer_names(alloc, item, b"layer")?;
    let width = item.length_in(alloc, b"width")?;
    Ok(Track {
        from: item.point_in(alloc, b"start")?,
        to: item.point_in(alloc, b"end")?,
        width: size_of(width),
        layer: known.copper.number(name_at(&names, 0)),
        net: item.whole_in(alloc, b"net")?,
        span: item.span(),
        line,
    })
}

/// The via that is read of an item on this line, but for its layers.
///
/// # Errors
///
/// Want of memory.
fn via_in(alloc: Global, item: &Part<'_>, layers: u32, line: u64) -> Result<Via, Memory>
    requires line { line ≡ line_of item.now.bytes item.now.item.from }
    ensures { IfOk result (λ v. v ≡ via_with item.now.bytes layers item.now.item) }
{
    let size = item.length_in(alloc, b"size")?;
    Ok(Via {
        at: item.point_in(alloc, b"at")?,
        size: size_of(size),
        layers,
        net: item.whole_in(alloc, b"net")?,
        span: item.span(),
        line,
    })
}

/// The via that is read of an item on this line, of a board with at most 32 copper layers.
///
/// # Errors
///
/// Want of memory.
#[tactic(auto, unfolding(board_language::specs::Tracks::via_of))]
pub fn via_of(alloc: Global, known: &Known, item: &Part<'_>, line: u64) -> Result<Via, Memory>
    requires few { length known.now.copper ≤ 32 }
    requires line { line ≡ line_of item.now.bytes item.now.item.from }
    ensures { IfOk result (λ v. v ≡ via_of (context item.now.bytes known.now) item.now.item) }
{
    let names = layer_names(alloc, item, b"layers")?;
    let layers = layers_between(&known.copper, name_at(&names, 0), name_at(&names, 1));
    via_in(alloc, item, layers, line)
}
