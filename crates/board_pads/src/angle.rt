// Angles, as quarter turns to the left on the screen.
ghost use Rattle.std.specs.Prelude.{◌≡◌, ℕ, ◌≤◌, ◌<◌, ℤ, neg_ℤ, ◌≤ℤ◌, pos, not, is_none, codes, Some, IfOk};
ghost use Rattle.grid_num.specs.Length.{IsInRange};
ghost use Rattle.board_text.specs.Fields.{list_of};
ghost use Rattle.board_text.specs.Numbers.{quarter_turns, turned};
ghost use Rattle.board_language.specs.Offences.{has_angle};
ghost use Rattle.board_language.specs.Pads.{turned_by, turns_at, turns_in, turns_of};

use crate::decimal::{are_zeros, follow, is_decimal, is_negative};
use board_text::Part;
use grid_num::{Memory, Point, fraction_of, whole_of};
use std::alloc::Global;

/// A number of quarter turns to the left, or to the right, as one of the four to the left.
fn turned(negative: bool, quarters: u64) -> u64
    ensures value { result ≡ turned negative quarters }
    ensures below { result < 4 }
{
    if negative {
        (4 - quarters % 4) % 4
    } else {
        quarters % 4
    }
}

/// How many quarter turns a text spells; none where it spells no multiple of 90 degrees from -360 to 360.
#[tactic(auto, unfolding(board_text::specs::Numbers::quarter_turns))]
fn quarter_turns(text: &[u8]) -> Option<u64>
    ensures { result ≡ quarter_turns text.now }
{
    let fraction = fraction_of(text);
    if !is_decimal(text) || fraction.len() > 6 || !are_zeros(fraction) {
        return None;
    }
    let degrees = follow(0, whole_of(text), 361);
    if degrees > 360 || degrees % 90 != 0 {
        return None;
    }
    Some(turned(is_negative(text), degrees / 90))
}

fn turns_of(alloc: Global, item: &Part<'_>) -> Result<Option<u64>, Memory>
    ensures { IfOk result (λ turns. turns ≡ turns_of item.now.bytes (Some item.now.item)) }
{
    match item.text(alloc)? {
        Some(text) => Ok(quarter_turns(&text)),
        None => Ok(None),
    }
}

fn turns_behind(alloc: Global, at: &Part<'_>) -> Result<Option<u64>, Memory>
    ensures { IfOk result (λ turns. turns ≡ turns_at at.now.bytes (Some at.now.item)) }
{
    match at.behind(2) {
        Some(item) => turns_of(alloc, &item),
        None => Ok(Some(0)),
    }
}

/// How often the `at` of a footprint or a pad turns it by a quarter; none where its angle is no multiple of 90 degrees.
///
/// # Errors
///
/// Want of memory.
pub fn turns_at(alloc: Global, item: &Part<'_>) -> Result<Option<u64>, Memory>
    ensures { IfOk result (λ turns. turns ≡ turns_at item.now.bytes (list_of item.now.bytes (codes "at") item.now.item)) }
{
    match item.list(b"at") {
        Some(at) => turns_behind(alloc, &at),
        None => Ok(Some(0)),
    }
}

/// The same, where an angle that is none counts as 0.
///
/// # Errors
///
/// Want of memory.
pub fn turns_in(alloc: Global, item: &Part<'_>) -> Result<u64, Memory>
    ensures { IfOk result (λ turns. turns ≡ turns_in item.now.bytes item.now.item) }
{
    let turns = turns_at(alloc, item)?;
    Ok(turns.unwrap_or(0))
}

/// Whether the angle is a multiple of 90 degrees.
///
/// # Errors
///
/// Want of memory.
pub fn has_angle(alloc: Global, item: &Part<'_>) -> Result<bool, Memory>
    ensures { IfOk result (λ yes. yes ≡ has_angle item.now.bytes item.now.item) }
{
    let turns = turns_at(alloc, item)?;
    Ok(!turns.is_none())
}

/// A point turned by so many quarters round 0: each takes (x, y) to (y, -x).
#[tactic(auto, unfolding(board_language::specs::Pads::turned_by))]
pub fn turned_by(turns: u64, p: Point) -> Point
    requires x { IsInRange p.x }
    requires y { IsInRange p.y }
    ensures value { result ≡ turned_by turns p }
    ensures x { IsInRange result.x }
    ensures y { IsInRange result.y }
{
    match turns {
        1 => Point { x: p.y, y: -p.x },
        2 => Point { x: -p.x, y: -p.y },
        3 => Point { x: -p.y, y: p.x },
        _ => p,
    }
}
