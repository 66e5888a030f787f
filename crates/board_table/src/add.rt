// Pieces of lines.
ghost use Rattle.std.specs.Prelude.{◌≡◌, ◌++◌, OnOk};
ghost use Rattle.board_table.specs.Lines.{place_text, set_text};

use grid_num::{Memory, Point};
use std::alloc::Global;

/// Adds bytes.
pub fn add(out: &mut Vec<u8>, bytes: &[u8]) -> Result<(), Memory>
    ensures { OnOk result (out.new.items ≡ out.old.items ++ bytes.now) }
{
    out.extend_from_slice(bytes)?;
    Ok(())
}

/// Adds a place, x first.
pub fn add_point(alloc: Global, out: &mut Vec<u8>, at: Point) -> Result<(), Memory>
    ensures { OnOk result (out.new.items ≡ out.old.items ++ place_text at) }
{
    let x = at.x;
    let y = at.y;
    let text = format!(in alloc; " {x} {y}")?;
    add(out, text.as_bytes())
}

/// Adds a set of layers: a digit for each layer up to the last one that is in it, the first layer's at the right.
pub fn add_set(alloc: Global, out: &mut Vec<u8>, layers: u32) -> Result<(), Memory>
    ensures { OnOk result (out.new.items ≡ out.old.items ++ set_text layers) }
{
    let text = format!(in alloc; " layers {layers:b}")?;
    add(out, text.as_bytes())
}
