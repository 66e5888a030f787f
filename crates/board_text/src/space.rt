// The white space at the end of a text.
ghost use Rattle.std.specs.Prelude.{◌≡◌, slice_index};
ghost use Rattle.sexpr_text.specs.Grammar.{is_space};
ghost use Rattle.board_text.specs.Items.{solid_end};

use sexpr_text::is_space_byte;

/// Whether white space stands at a place.
fn is_space_at(bytes: &[u8], place: usize) -> bool
    ensures { result ≡ is_space (slice_index bytes.now place) }
{
    match bytes.get(place) {
        Some(byte) => is_space_byte(*byte),
        None => false,
    }
}

/// Of the first bytes, how many are left without the white space at their end.
pub fn solid_end(bytes: &[u8], end: usize) -> usize
    ensures { result ≡ solid_end bytes.now end }
{
    let mut solid = end;
    'back: while solid > 0 && is_space_at(bytes, solid - 1) {
        solid -= 1;
    }
    solid
}
