// One step of the walk.
ghost use Rattle.std.specs.Prelude.{◌≡◌, ◌↔◌, ◌+◌, ◌<◌, ◌≤◌, ◌++◌, ◌∷◌, [], length, map, IfOk, IsTrue};
ghost use Rattle.std.specs.Arc.{arc_value};
ghost use Rattle.refill_walk.specs.Inner.Edited.{IsEdited};
ghost use Rattle.refill_walk.specs.Inner.Walk.{IsWalkOf, IsNextAgain, AreStepsOfNext};

use crate::anew::is_filled_again;
use crate::edited::{Edited, Walk};
use crate::made::fill_anew;
use crate::old::old_fill;
use crate::same::are_same_pieces;
use fills::Fill;
use grid_num::Memory;
use std::alloc::Global;
use std::sync::Arc;
use std::sync::ledger::Ledger;
use step_count::Steps;

/// The walk with one task more. It takes a step where the task is filled again.
pub fn with_next<L: Ledger>(
    alloc: Global,
    it: &Edited<'_>,
    walk: Walk,
    steps: &mut Steps<L>,
) -> Result<Walk, Memory>
    requires edited { IsEdited it.now }
    requires walked { IsWalkOf it.now walk }
    requires more { length walk.fills.items < length it.now.tasks.now }
    ensures walked { IfOk result (λ w. IsWalkOf it.now w) }
    ensures longer { IfOk result (λ w. length w.fills.items ≡ length walk.fills.items + 1) }
    ensures counts { IfOk result (λ w. steps.new + walk.count ≡ steps.old + w.count) }
    ensures most { AreStepsOfNext it.now walk steps.old steps.new }
{
    if is_next_again(it, &walk) {
        return with_made(alloc, it, walk, steps);
    }
    with_kept(it, walk)
}

// Whether the next task is filled again.
fn is_next_again(it: &Edited<'_>, walk: &Walk) -> bool
    requires edited { IsEdited it.now }
    requires walked { IsWalkOf it.now walk.now }
    requires more { length walk.now.fills.items < length it.now.tasks.now }
    ensures { IsTrue result ↔ IsNextAgain it.now walk.now }
{
    let rank = walk.fills.len();
    is_filled_again(it.board, it.tasks, it.flags, &walk.changed, rank)
}

// The walk with the next task's old fill.
fn with_kept(it: &Edited<'_>, walk: Walk) -> Result<Walk, Memory>
    requires edited { IsEdited it.now }
    requires walked { IsWalkOf it.now walk }
    requires more { length walk.fills.items < length it.now.tasks.now }
    requires stays { IsNextAgain it.now walk → ⊥ }
    ensures walked { IfOk result (λ w. IsWalkOf it.now w) }
    ensures longer { IfOk result (λ w. length w.fills.items ≡ length walk.fills.items + 1) }
    ensures count { IfOk result (λ w. w.count ≡ walk.count) }
{
    let rank = walk.fills.len();
    let fill = Arc::try_clone(old_fill(it, rank))?;
    with_fill(walk, fill, false)
}

// The walk with a fill of the next task that is made now, which is a step.
fn with_made<L: Ledger>(
    alloc: Global,
    it: &Edited<'_>,
    walk: Walk,
    steps: &mut Steps<L>,
) -> Result<Walk, Memory>
    requires edited { IsEdited it.now }
    requires walked { IsWalkOf it.now walk }
    requires more { length walk.fills.items < length it.now.tasks.now }
    requires anew { IsNextAgain it.now walk }
    ensures walked { IfOk result (λ w. IsWalkOf it.now w) }
    ensures longer { IfOk result (λ w. length w.fills.items ≡ length walk.fills.items + 1) }
    ensures count { IfOk result (λ w. w.count ≡ walk.count + 1) }
    ensures counts { IfOk result (λ _. steps.new ≡ steps.old + 1) }
    ensures most { (steps.old ≤ steps.new) × (steps.new ≤ steps.old + 1) }
{
    let rank = walk.fills.len();
    let old = old_fill(it, rank);
    let fill = fill_anew(alloc, it.board, it.tasks[rank], &walk.fills, steps)?;
    let differs = !are_same_pieces(old, &fill);
    let mut walk = with_fill(walk, fill, differs)?;
    walk.count += 1;
    Ok(walk)
}

// The walk with one fill more, and whether its pieces are others than before.
fn with_fill(walk: Walk, fill: Arc<Fill>, differs: bool) -> Result<Walk, Memory>
    ensures fills { IfOk result (λ w. map arc_value w.fills.items ≡ map arc_value walk.fills.items ++ arc_value fill ∷ []) }
    ensures changed { IfOk result (λ w. w.changed.items ≡ walk.changed.items ++ differs ∷ []) }
    ensures count { IfOk result (λ w. w.count ≡ walk.count) }
{
    let mut walk = walk;
    walk.fills.push(fill)?;
    walk.changed.push(differs)?;
    Ok(walk)
}
