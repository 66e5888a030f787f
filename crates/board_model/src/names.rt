// The names of several texts.
ghost use Rattle.std.specs.Prelude.{◌≡◌, map, IfOk};

use board_language::Name;
use grid_num::Memory;
use std::alloc::Global;

/// The names of these texts, in their order.
///
/// # Errors
///
/// Want of memory.
pub fn names_of(alloc: Global, texts: &[Vec<u8>]) -> Result<Vec<Name>, Memory>
    ensures { IfOk result (λ names. names.items ≡ map (λ t. t.items) texts.now) }
{
    let mut names = Vec::new(alloc);
    'each: for text in texts {
        let name = Name::of(alloc, text.as_slice())?;
        names.push(name)?;
    }
    Ok(names)
}
