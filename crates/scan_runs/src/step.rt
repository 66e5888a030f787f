// The steps from the last row of a band to the row below it: each end of a run moves by -1, 0 or 1.
ghost use Rattle.std.specs.Prelude.{◌≡◌, ℕ, ◌^◌, ◌≤◌, IsTrue, IsNone, IfSome, IfOk, false};
ghost use Rattle.plane.specs.Narrow.{IsNearZero};
ghost use Rattle.grid_sets.specs.Bands.{reach, IsMovedAlike, AreMovedAlike};
ghost use Rattle.scan_runs.specs.Inner.Parts.{IsSmallSlant, AreSmall};
ghost use Rattle.scan_runs.specs.Inner.Grouping.{IsGoodEnd, IsGoodSlant, AreGoodRuns, IsEndStep, HasNoEndStep, IsStepTo, HasNoStep, AreSteps, HaveNoSteps};

use crate::ends::place_at;
use grid_num::Memory;
use grid_sets::{End, Move, Slant};
use std::alloc::Global;

// The end that is at the one place and, a row below, at the other; None where they are too far apart.
fn end_step(from: i64, to: i64) -> Option<End>
    requires from { IsNearZero (2 ^ 45) from }
    requires to { IsNearZero (2 ^ 43) to }
    ensures some { IfSome result (IsEndStep from to) }
    ensures none { IsNone result → HasNoEndStep from to }
{
    if to == from {
        return Some(End {
            place: from,
            go: Move::Still,
        });
    }
    if to == from - 1 {
        return Some(End {
            place: from,
            go: Move::Left,
        });
    }
    if to == from + 1 {
        return Some(End {
            place: from,
            go: Move::Right,
        });
    }
    None
}

// The run that is the upper one's place `more` rows below its first, and then the lower one's first place.
fn step_to(upper: Slant, more: u64, lower: Slant) -> Option<Slant>
    requires upper { IsGoodSlant upper }
    requires more { more ≤ 2 ^ 41 }
    requires lower { IsSmallSlant lower }
    ensures some { IfSome result (IsStepTo more upper lower) }
    ensures none { IsNone result → HasNoStep more upper lower }
{
    let from = end_step(place_at(upper.from, more), place_at(lower.from, 0))?;
    let to = end_step(place_at(upper.to, more), place_at(lower.to, 0))?;
    Some(Slant { from, to })
}

// The steps of all runs, from `more` rows below the upper ones' first row to the lower ones' first; None where there are
// fewer or more runs, or an end is too far away.
pub(crate) fn steps_to(
    alloc: Global,
    upper: &[Slant],
    more: u64,
    lower: &[Slant],
) -> Result<Option<Vec<Slant>>, Memory>
    requires upper { AreGoodRuns upper.now }
    requires more { more ≤ 2 ^ 41 }
    requires lower { AreSmall lower.now }
    ensures some { IfOk result (λ r. IfSome r (λ steps. AreSteps more upper.now lower.now steps.items)) }
    ensures none { IfOk result (λ r. IsNone r → HaveNoSteps more upper.now lower.now) }
{
    if upper.len() != lower.len() {
        return Ok(None);
    }
    let mut steps = Vec::new(alloc);
    'runs: for i in 0..lower.len() {
        match step_to(upper[i], more, lower[i]) {
            None => return Ok(None),
            Some(step) => steps.push(step)?,
        }
    }
    Ok(Some(steps))
}

// Whether they are as many runs with the same moves.
pub(crate) fn alike(runs: &[Slant], others: &[Slant]) -> bool
    ensures yes { IsTrue result → AreMovedAlike runs.now others.now }
    ensures no { result ≡ false → ¬ (AreMovedAlike runs.now others.now) }
{
    if runs.len() != others.len() {
        return false;
    }
    'runs: for i in 0..runs.len() {
        if !moves_alike(runs[i], others[i]) {
            return false;
        }
    }
    true
}

fn moves_alike(run: Slant, other: Slant) -> bool
    ensures yes { IsTrue result → IsMovedAlike run other }
    ensures no { result ≡ false → ¬ (IsMovedAlike run other) }
{
    run.from.go == other.from.go && run.to.go == other.to.go
}
