// Bytes, lengths and numbers are added to a text.
ghost use Rattle.std.specs.Prelude.{◌≡◌, ◌++◌, OnOk};
ghost use Rattle.std.specs.Fmt.{decimal};
ghost use Rattle.grid_num.specs.Length.{IsInRange};
ghost use Rattle.grid_num.specs.Written.{mm_of};

use grid_num::{Memory, MmText, Nm, write_mm};
use itoa::Buffer;

/// Adds bytes.
pub fn add(out: &mut Vec<u8>, bytes: &[u8]) -> Result<(), Memory>
    ensures { OnOk result (out.new.items ≡ out.old.items ++ bytes.now) }
{
    out.extend_from_slice(bytes)?;
    Ok(())
}

/// Adds a length in nanometres as millimetres.
pub fn add_length(out: &mut Vec<u8>, nm: i64) -> Result<(), Memory>
    requires { IsInRange nm }
    ensures { OnOk result (out.new.items ≡ out.old.items ++ mm_of nm) }
{
    let length = Nm::new(nm).unwrap();
    let mut text = MmText::new();
    write_mm(length, &mut text);
    add(out, text.bytes())
}

/// Adds a number.
pub fn add_number(out: &mut Vec<u8>, number: u128) -> Result<(), Memory>
    ensures { OnOk result (out.new.items ≡ out.old.items ++ decimal number) }
{
    let mut buffer = Buffer::new();
    add(out, buffer.format(number).as_bytes())
}
