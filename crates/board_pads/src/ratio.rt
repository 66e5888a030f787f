// The ratio of a rounded rectangle, in ten-thousand-millionths.
ghost use Rattle.std.specs.Prelude.{◌≡◌, ℕ, ◌≤◌, ◌++◌, min, ℤ, pos, codes, Some, IfOk};
ghost use Rattle.grid_num.specs.Spelling.{number};
ghost use Rattle.grid_num.specs.Length.{with_sign};
ghost use Rattle.grid_num.specs.Parts.{fraction_of, whole_of};
ghost use Rattle.board_text.specs.Fields.{list_of};
ghost use Rattle.board_text.specs.Numbers.{item_fault, ratio_fault, ratio_fault_at, ratio_of, ten_places, value_at};
ghost use Rattle.board_language.specs.Pads.{ratio_in};
ghost use Rattle.board_pads.specs.Ratios.{kept_ratio};

use crate::decimal::{follow, is_decimal, is_negative};
use board_text::Part;
use grid_num::{Memory, NumFault, fraction_of, place, whole_of};
use std::alloc::Global;

/// The ratio of a pad that gives none.
const A_QUARTER: u64 = 2_500_000_000;

/// What is wrong with a text from which a ratio is wanted.
#[tactic(auto, unfolding(board_text::specs::Numbers::ratio_fault))]
pub fn ratio_fault(text: &[u8]) -> Option<NumFault>
    ensures { result ≡ ratio_fault text.now }
{
    if is_decimal(text) {
        None
    } else {
        Some(NumFault::NotANumber)
    }
}

/// The first ten places behind the point.
fn ten_places(fraction: &[u8]) -> [u8; 10]
    ensures { result ≡ ten_places fraction.now }
{
    [
        place(fraction, 0),
        place(fraction, 1),
        place(fraction, 2),
        place(fraction, 3),
        place(fraction, 4),
        place(fraction, 5),
        place(fraction, 6),
        place(fraction, 7),
        place(fraction, 8),
        place(fraction, 9),
    ]
}

/// The number of the digits without a sign, where all beyond one half count as one.
fn ratio_size(text: &[u8]) -> u64
    ensures { result ≡ min 5000000001 (number (whole_of text.now ++ ten_places (fraction_of text.now))) }
{
    let whole = follow(0, whole_of(text), 5_000_000_001);
    follow(whole, &ten_places(fraction_of(text)), 5_000_000_001)
}

/// What is kept of a ratio of this size, that is capped.
fn kept(negative: bool, size: u64) -> Option<u64>
    ensures { (n : ℕ) → size ≡ min 5000000001 n → result ≡ kept_ratio (with_sign negative n) }
{
    if size > 5_000_000_000 {
        return None;
    }
    if negative && size != 0 {
        return None;
    }
    Some(size)
}

/// The ratio that a text spells, 0 where it spells none; none where it is below 0 or above one half.
fn ratio_of(text: &[u8]) -> Option<u64>
    ensures { result ≡ kept_ratio (ratio_of text.now) }
{
    if !is_decimal(text) {
        return Some(0);
    }
    kept(is_negative(text), ratio_size(text))
}

fn ratio_at(alloc: Global, list: &Part<'_>) -> Result<Option<u64>, Memory>
    ensures { IfOk result (λ q. q ≡ kept_ratio (value_at ratio_of list.now.bytes 0 (pos 2500000000) (Some list.now.item))) }
{
    match list.text_at(alloc, 0)? {
        Some(text) => Ok(ratio_of(&text)),
        None => Ok(Some(A_QUARTER)),
    }
}

/// The ratio of a pad, a quarter where it has none; none where it is below 0 or above one half.
///
/// # Errors
///
/// Want of memory.
pub fn ratio_in(alloc: Global, pad: &Part<'_>) -> Result<Option<u64>, Memory>
    ensures { IfOk result (λ q. q ≡ kept_ratio (ratio_in pad.now.bytes pad.now.item)) }
{
    match pad.list(b"roundrect_rratio") {
        Some(list) => ratio_at(alloc, &list),
        None => Ok(Some(A_QUARTER)),
    }
}

fn item_fault(alloc: Global, item: &Part<'_>) -> Result<Option<NumFault>, Memory>
    ensures { IfOk result (λ f. f ≡ item_fault ratio_fault item.now.bytes item.now.item) }
{
    match item.text(alloc)? {
        Some(text) => Ok(ratio_fault(&text)),
        None => Ok(Some(NumFault::NotANumber)),
    }
}

fn list_fault(alloc: Global, list: &Part<'_>) -> Result<Option<NumFault>, Memory>
    ensures { IfOk result (λ f. f ≡ ratio_fault_at list.now.bytes 0 (Some list.now.item)) }
{
    match list.behind(0) {
        Some(item) => item_fault(alloc, &item),
        None => Ok(None),
    }
}

/// What is wrong with the ratio of a pad.
///
/// # Errors
///
/// Want of memory.
pub fn ratio_fault_in(alloc: Global, pad: &Part<'_>) -> Result<Option<NumFault>, Memory>
    ensures { IfOk result (λ f. f ≡ ratio_fault_at pad.now.bytes 0 (list_of pad.now.bytes (codes "roundrect_rratio") pad.now.item)) }
{
    match pad.list(b"roundrect_rratio") {
        Some(list) => list_fault(alloc, &list),
        None => Ok(None),
    }
}
