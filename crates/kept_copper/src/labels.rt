// Octagons chosen by flags and by labels.
ghost use Rattle.std.specs.Prelude.{◌≡◌, ◌++◌, ◌∷◌, [], cond, length, IfOk};
ghost use Rattle.grid_sets.specs.Points.{AreApart};
ghost use Rattle.components.specs.Kept.{flagged, with_label};

use grid_num::Memory;
use octagon::Oct;
use std::alloc::Global;

/// The octagons at the places whose flag is set, in their order. Where no two of all have a common grid point, no two of these have.
///
/// # Errors
///
/// Want of memory.
pub fn kept_cells(alloc: Global, cells: &[Oct], flags: &[bool]) -> Result<Vec<Oct>, Memory>
    requires { length flags.now ≡ length cells.now }
    ensures value { IfOk result (λ v. v.items ≡ flagged flags.now cells.now) }
    ensures apart { IfOk result (λ v. AreApart cells.now → AreApart v.items) }
{
    let kept = chosen(alloc, cells, flags)?;
    Ok(kept)
}

// The octagons at the places whose flag is set.
fn chosen(alloc: Global, cells: &[Oct], flags: &[bool]) -> Result<Vec<Oct>, Memory>
    requires { length flags.now ≡ length cells.now }
    ensures { IfOk result (λ v. v.items ≡ flagged flags.now cells.now) }
{
    let mut kept = Vec::new(alloc);
    'each: for k in 0..cells.len() {
        kept = with_oct(kept, cells[k], flags[k])?;
    }
    Ok(kept)
}

/// The octagons at the places that have the label, in their order.
///
/// # Errors
///
/// Want of memory.
pub fn of_label(alloc: Global, octs: &[Oct], labels: &[u32], label: u32) -> Result<Vec<Oct>, Memory>
    requires { length labels.now ≡ length octs.now }
    ensures { IfOk result (λ v. v.items ≡ with_label labels.now label octs.now) }
{
    let mut part = Vec::new(alloc);
    'each: for k in 0..octs.len() {
        part = with_oct(part, octs[k], labels[k] == label)?;
    }
    Ok(part)
}

// The list with the octagon behind it, where it is wanted.
fn with_oct(octs: Vec<Oct>, oct: Oct, wanted: bool) -> Result<Vec<Oct>, Memory>
    ensures { IfOk result (λ v. v.items ≡ octs.items ++ cond wanted (oct ∷ []) []) }
{
    let mut octs = octs;
    if wanted {
        octs.push(oct)?;
    }
    Ok(octs)
}
