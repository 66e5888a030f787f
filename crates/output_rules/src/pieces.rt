// Pieces of a text that are replaced, and which of them a zone's fill replaces.
ghost use Rattle.std.specs.Prelude.{◌≡◌, ◌↔◌, length, map, slice_index, IfOk, IsTrue};
ghost use Rattle.sexpr_text.specs.Grammar.{is_space};
ghost use Rattle.board_text.specs.Items.{solid_end};
ghost use Rattle.output_rules.specs.Pieces.{ArePiecesInOrder};
ghost use Rattle.output_rules.specs.Pieces as text_pieces;
ghost use Rattle.output_rules.specs.Output as output;
ghost use Rattle.output_rules.specs.Shown.{piece_shown};

use board_language::ZoneSpans;
use board_text::solid_end;
use grid_num::Memory;
use std::alloc::Global;

/// The bytes of a text from one place to another, and what stands for them.
#[derive(PartialEq, Eq, Debug, Drop)]
pub struct Piece {
    pub from: usize,
    pub to: usize,
    pub put: Vec<u8>,
}

/// Whether the pieces lie in order within a text of this length, none inside another.
pub fn are_in_order(pieces: &[Piece], length: usize) -> bool
    ensures { IsTrue result ↔ (ArePiecesInOrder 0 length (map piece_shown pieces.now)) }
{
    let mut at = 0;
    'pieces: for piece in pieces {
        if piece.from < at || piece.to < piece.from {
            return false;
        }
        at = piece.to;
    }
    at <= length
}

/// The text with these pieces replaced. All other bytes stay, each in its order. Refuses for want of memory alone.
pub fn replaced(alloc: Global, text: &[u8], pieces: &[Piece]) -> Result<Vec<u8>, Memory>
    requires { ArePiecesInOrder 0 (length text.now) (map piece_shown pieces.now) }
    ensures { IfOk result (λ v. v.items ≡ text_pieces.replaced 0 (map piece_shown pieces.now) text.now) }
{
    let mut out = Vec::new(alloc);
    let mut at = 0;
    'pieces: for piece in pieces {
        out.extend_from_slice(&text[at..piece.from])?;
        out.extend_from_slice(&piece.put)?;
        at = piece.to;
    }
    out.extend_from_slice(&text[at..])?;
    Ok(out)
}

/// What a zone's fill replaces: its old fills go, each with the white space directly before it, and what is written of the
/// new one stands at the zone's tail. Refuses for want of memory alone.
pub fn zone_pieces(
    alloc: Global,
    text: &[u8],
    spans: &ZoneSpans,
    rings: Vec<u8>,
) -> Result<Vec<Piece>, Memory>
    ensures { IfOk result (λ v. map piece_shown v.items ≡ output.zone_pieces text.now spans.now rings.items) }
{
    let mut pieces = Vec::new(alloc);
    'fills: for fill in spans.fills.spans() {
        pieces.push(Piece {
            from: solid_end(text, fill.from),
            to: fill.to,
            put: Vec::new(alloc),
        })?;
    }
    pieces.push(Piece {
        from: spans.tail,
        to: spans.tail,
        put: rings,
    })?;
    Ok(pieces)
}
