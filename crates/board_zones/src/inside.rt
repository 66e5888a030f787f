// What stands in the first list with one head inside the first list with another, as the `clearance` in a `connect_pads`.
ghost use Rattle.std.specs.Prelude.{◌≡◌, Some, IfOk};
ghost use Rattle.grid_num.specs.Length.{IsInRange};
ghost use Rattle.board_text.specs.Fields.{list_in, says_at, passes};
ghost use Rattle.board_text.specs.Numbers.{length_fault_at, whole_fault_at, is_short};
ghost use Rattle.board_language.specs.Zones.{length_or};

use board_text::{Part, length_of};
use grid_num::{Memory, NumFault};
use std::alloc::Global;

/// What is wrong with the length there.
///
/// # Errors
///
/// Want of memory.
pub fn length_fault_inside(
    alloc: Global,
    zone: &Part<'_>,
    outer: &[u8],
    name: &[u8],
) -> Result<Option<NumFault>, Memory>
    ensures { IfOk result (λ f. f ≡ length_fault_at zone.now.bytes 0 (list_in zone.now.bytes outer.now name.now zone.now.item)) }
{
    match zone.list_in(outer, name) {
        Some(list) => list.length_fault_at(alloc, 0),
        None => Ok(None),
    }
}

/// What is wrong with the whole number there.
///
/// # Errors
///
/// Want of memory.
pub fn whole_fault_inside(
    alloc: Global,
    zone: &Part<'_>,
    outer: &[u8],
    name: &[u8],
) -> Result<Option<NumFault>, Memory>
    ensures { IfOk result (λ f. f ≡ whole_fault_at zone.now.bytes 0 (list_in zone.now.bytes outer.now name.now zone.now.item)) }
{
    match zone.list_in(outer, name) {
        Some(list) => list.whole_fault_at(alloc, 0),
        None => Ok(None),
    }
}

/// Whether the list is there, with nothing behind its head.
pub fn is_bare_inside(zone: &Part<'_>, outer: &[u8], name: &[u8]) -> bool
    ensures { result ≡ is_short 1 (list_in zone.now.bytes outer.now name.now zone.now.item) }
{
    match zone.list_in(outer, name) {
        Some(list) => list.is_short(1),
        None => false,
    }
}

/// Whether the list is there, with this text first behind its head.
///
/// # Errors
///
/// Want of memory.
pub fn says_inside(
    alloc: Global,
    zone: &Part<'_>,
    outer: &[u8],
    name: &[u8],
    text: &[u8],
) -> Result<bool, Memory>
    ensures { IfOk result (λ yes. yes ≡ passes (says_at zone.now.bytes 0 text.now) (list_in zone.now.bytes outer.now name.now zone.now.item)) }
{
    match zone.list_in(outer, name) {
        Some(list) => list.says_at(alloc, 0, text),
        None => Ok(false),
    }
}

/// The length that is first behind the head of a list, in nanometres; where no text stands there, what stands for it.
///
/// # Errors
///
/// Want of memory.
pub fn length_first(alloc: Global, list: &Part<'_>, absent: i64) -> Result<i64, Memory>
    requires { IsInRange absent }
    ensures value { IfOk result (λ nm. nm ≡ length_or absent list.now.bytes (Some list.now.item)) }
    ensures range { IfOk result IsInRange }
{
    match list.text_at(alloc, 0)? {
        Some(text) => Ok(length_of(&text)),
        None => Ok(absent),
    }
}

/// The length there, in nanometres; where there is none, what stands for it.
///
/// # Errors
///
/// Want of memory.
pub fn length_inside(
    alloc: Global,
    zone: &Part<'_>,
    outer: &[u8],
    name: &[u8],
    absent: i64,
) -> Result<i64, Memory>
    requires { IsInRange absent }
    ensures value { IfOk result (λ nm. nm ≡ length_or absent zone.now.bytes (list_in zone.now.bytes outer.now name.now zone.now.item)) }
    ensures range { IfOk result IsInRange }
{
    match zone.list_in(outer, name) {
        Some(list) => length_first(alloc, &list, absent),
        None => Ok(absent),
    }
}
