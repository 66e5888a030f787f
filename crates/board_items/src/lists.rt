// Several lists of an item, by their heads.
ghost use Rattle.std.specs.Prelude.{◌≡◌, ℕ, map, IfOk};
ghost use Rattle.board_text.specs.Items.{is_bad_length, has_bad_length, has_bad_size};
ghost use Rattle.board_text.specs.Fields.{lacks, list_of};
ghost use Rattle.board_text.specs.Numbers.{has_short};

use crate::sizes::{is_no_length, is_no_size};
use board_text::Part;
use grid_num::Memory;
use std::alloc::Global;

/// Whether one of the lists with these heads isn't there.
pub fn lacks(item: &Part<'_>, names: &[&[u8]]) -> bool
    ensures { result ≡ lacks item.now.bytes (map (λ name. name.now) names.now) item.now.item }
{
    'each: for name in names {
        if !item.has(*name) {
            return true;
        }
    }
    false
}

/// Whether a list with one of these heads is there, with fewer than n items behind its head.
pub fn has_short(item: &Part<'_>, n: usize, names: &[&[u8]]) -> bool
    ensures { result ≡ has_short item.now.bytes n (map (λ name. name.now) names.now) item.now.item }
{
    'each: for name in names {
        if item.is_short_in(*name, n) {
            return true;
        }
    }
    false
}

/// Whether the length in the list with this head is negative, or above 100 mm.
///
/// # Errors
///
/// Want of memory.
pub fn is_bad_length(alloc: Global, item: &Part<'_>, name: &[u8]) -> Result<bool, Memory>
    ensures { IfOk result (λ yes. yes ≡ is_bad_length item.now.bytes (list_of item.now.bytes name.now item.now.item)) }
{
    let length = item.length_in(alloc, name)?;
    Ok(is_no_length(length))
}

/// Whether the length in one of the lists with these heads is negative, or above 100 mm.
///
/// # Errors
///
/// Want of memory.
pub fn has_bad_length(alloc: Global, item: &Part<'_>, names: &[&[u8]]) -> Result<bool, Memory>
    ensures { IfOk result (λ yes. yes ≡ has_bad_length item.now.bytes (map (λ name. name.now) names.now) item.now.item) }
{
    'each: for name in names {
        if is_bad_length(alloc, item, *name)? {
            return Ok(true);
        }
    }
    Ok(false)
}

/// Whether a width or size is out of its range.
///
/// # Errors
///
/// Want of memory.
pub fn has_bad_size(alloc: Global, item: &Part<'_>, name: &[u8]) -> Result<bool, Memory>
    ensures { IfOk result (λ yes. yes ≡ has_bad_size item.now.bytes name.now item.now.item) }
{
    let size = item.length_in(alloc, name)?;
    Ok(is_no_size(size))
}
