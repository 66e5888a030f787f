// Bytes, lengths and numbers are added to a text.
ghost use Rattle.std.specs.Prelude.{◌≡◌, ◌≤◌, ◌++◌, pos, OnOk};
ghost use Rattle.std.specs.Fmt.{decimal};
ghost use Rattle.grid_num.specs.Written.{mm_of};
ghost use Rattle.board_gen.specs.Generated.{corner_in_mm, item_stamp_text};

use grid_num::{Memory, MmText, Nm, write_mm};
use itoa::Buffer;

/// Adds bytes.
pub fn add(out: &mut Vec<u8>, bytes: &[u8]) -> Result<(), Memory>
    ensures { OnOk result (out.new.items ≡ out.old.items ++ bytes.now) }
{
    out.extend_from_slice(bytes)?;
    Ok(())
}

/// Adds a length in nanometres as millimetres.
pub fn add_length(out: &mut Vec<u8>, nm: u64) -> Result<(), Memory>
    requires { nm ≤ 500000000 }
    ensures { OnOk result (out.new.items ≡ out.old.items ++ mm_of (pos nm)) }
{
    let length = Nm::new(nm as i64).unwrap();
    let mut text = MmText::new();
    write_mm(length, &mut text);
    add(out, text.bytes())
}

/// Adds both places of a point.
pub fn add_point(out: &mut Vec<u8>, x: u64, y: u64) -> Result<(), Memory>
    requires x { x ≤ 500000000 }
    requires y { y ≤ 500000000 }
    ensures { OnOk result (out.new.items ≡ out.old.items ++ corner_in_mm x y) }
{
    add_length(out, x)?;
    add(out, b" ")?;
    add_length(out, y)?;
    Ok(())
}

/// Adds an item's stamp, and its end.
pub fn add_stamp(out: &mut Vec<u8>, number: u64) -> Result<(), Memory>
    ensures { OnOk result (out.new.items ≡ out.old.items ++ item_stamp_text number) }
{
    let mut buffer = Buffer::new();
    add(out, b" (tstamp g")?;
    add(out, buffer.format(number).as_bytes())?;
    add(out, b"))\n")?;
    Ok(())
}
