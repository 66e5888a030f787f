// What offends in the board itself, and in its nets.
ghost use Rattle.std.specs.Prelude.{◌≡◌, IfOk};
ghost use Rattle.board_language.specs.Offences.{is_version, board_kind, net_kind};
ghost use Rattle.board_items.specs.Known.{context};

use board_items::{Known, version_of};
use board_language::{OffenceKind, first_kind, number_kind, when};
use board_text::Part;
use grid_num::Memory;
use std::alloc::Global;

/// Whether texts of this version are read.
fn is_version(number: u32) -> bool
    ensures { result ≡ is_version number }
{
    20211013 < number && number < 20241232
}

/// The first offence of the board itself.
///
/// # Errors
///
/// Want of memory.
#[tactic(auto, unfolding(board_language::specs::Offences::board_kind))]
pub fn board_kind(
    alloc: Global,
    known: &Known,
    board: &Part<'_>,
) -> Result<Option<OffenceKind>, Memory>
    ensures { IfOk result (λ k. k ≡ board_kind (context board.now.bytes known.now) board.now.item) }
{
    let version = version_of(alloc, board)?;
    Ok(first_kind(&[
        when(OffenceKind::NotBoard, !board.is_headed(b"kicad_pcb")),
        when(OffenceKind::Version, !is_version(version)),
        when(OffenceKind::MissingPart, !board.has(b"layers")),
    ]))
}

/// The first offence of a net, that is declared before or not, and one too many or not.
///
/// # Errors
///
/// Want of memory.
#[tactic(auto, unfolding(board_language::specs::Offences::net_kind))]
pub fn net_kind(
    alloc: Global,
    known: &Known,
    net: &Part<'_>,
    double: bool,
    many: bool,
) -> Result<Option<OffenceKind>, Memory>
    ensures { IfOk result (λ k. k ≡ net_kind (context net.now.bytes known.now) net.now.item double many) }
{
    let fault = net.whole_fault_at(alloc, 0)?;
    Ok(first_kind(&[
        when(OffenceKind::MissingPart, net.is_short(1)),
        number_kind(fault),
        when(OffenceKind::DoubleNet, double),
        when(OffenceKind::TooMany, many),
    ]))
}
