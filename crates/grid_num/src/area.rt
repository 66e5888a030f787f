// Reads an area in square millimetres.
ghost use Rattle.std.specs.Prelude.{◌≡◌, ℕ, ◌<◌, ◌≤◌, List, true, false, IsTrue, IfOk, IfErr, OnErr};
ghost use Rattle.grid_num.specs.Area.{IsArea, HasAreaFault};
ghost use Rattle.grid_num.specs.declared.read.NumFault.{NumFault};

use crate::read::{NumFault, is_whole_nm, magnitude, parts_of};

/// The greatest area that is read: 1,000,000 square millimetres, in millionths of one.
const MOST_AREA: u64 = 1_000_000_000_000;

/// Whether so many millionths, with a minus before them or not, are an area.
fn is_in_range(negative: bool, area: u64) -> bool
    ensures most { IsTrue result → area ≤ 1000000000000 }
    ensures sign { IsTrue result → negative ≡ true → area ≡ 0 }
    ensures no { result ≡ false → area ≤ 1000000000000 → (negative ≡ true) × (0 < area) }
{
    if negative {
        area == 0
    } else {
        area <= MOST_AREA
    }
}

/// Reads an area in square millimetres, as a whole number of millionths: it is spelt as a length is, and isn't negative.
///
/// # Errors
///
/// The text's fault. Where the text spells no number, that is its fault; else where it is too fine; else where it is
/// negative or above 1,000,000 square millimetres.
pub fn read_area(text: &[u8]) -> Result<u64, NumFault>
    ensures found { IfOk result (IsArea text.now) }
    ensures fault { IfErr result (HasAreaFault text.now) }
    ensures none { OnErr result ((area : ℕ) → IsArea text.now area → ⊥) }
{
    let Some(parts) = parts_of(text) else {
        return Err(NumFault::NotANumber);
    };
    if !is_whole_nm(parts.fraction) {
        return Err(NumFault::TooFine);
    }
    let area = magnitude(parts.whole, parts.fraction, MOST_AREA + 1);
    if !is_in_range(parts.negative, area) {
        return Err(NumFault::OutOfRange);
    }
    Ok(area)
}

/// A text spells one area at most.
pub fn one_area()
    ensures { (text : List ℕ) (area other : ℕ) → IsArea text area → IsArea text other → area ≡ other }
{}

/// A text has one fault at most as an area, and it spells no area where it has one.
pub fn one_area_fault()
    ensures one { (text : List ℕ) (fault other : NumFault) → HasAreaFault text fault
        → HasAreaFault text other → fault ≡ other }
    ensures no_area { (text : List ℕ) (fault : NumFault) (area : ℕ) → HasAreaFault text fault
        → IsArea text area → ⊥ }
{}
