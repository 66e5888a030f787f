// The walk over the tasks of an edited board, in rank order.
ghost use Rattle.std.specs.Prelude.{◌≡◌, ◌+◌, length, map, IfOk};
ghost use Rattle.std.specs.Arc.{arc_value};
ghost use Rattle.fill_rules.specs.Tasks.{ranked};
ghost use Rattle.fills.specs.Fills.{AreBoardFills};
ghost use Rattle.refill_laws.specs.OneEdit.{old_rank};
ghost use Rattle.refill_laws.specs.Flags.{AreFlags};
ghost use Rattle.refill_laws.specs.Walked.{is_set};
ghost use Rattle.refill_walk.specs.Refill.{IsDirtyCount, AreStepsWithin};
ghost use Rattle.refill_walk.specs.Inner.Edited.{IsEdited};
ghost use Rattle.refill_walk.specs.Inner.Walk.{IsWalkOf};

use crate::edited::{Edited, Walk};
use crate::next::with_next;
use board_model::Board;
use fills::Fill;
use grid_num::Memory;
use knockouts::tasks;
use std::alloc::Global;
use std::sync::Arc;
use std::sync::ledger::Ledger;
use step_count::Steps;

/// What a refill gives: the fills of the edited board in rank order, and how many of them were made anew.
#[derive(Drop)]
pub struct Refill {
    pub fills: Vec<Arc<Fill>>,
    pub count: u32,
}

/// The fills of the edited board, by those of the board as it was when it was filled. For each task now, in rank order, there is a
/// flag, set where edits dirtied the task directly. A task that isn't flagged, and that no task with other pieces than before
/// reaches, keeps its fill. Each other one is filled again, which is a step. Where memory is wanting, no more steps were
/// counted than there are tasks to fill again.
///
/// # Errors
///
/// Want of memory.
pub fn refilled<L: Ledger>(
    alloc: Global,
    filled: &Board,
    board: &Board,
    olds: &[Arc<Fill>],
    flags: &[bool],
    steps: &mut Steps<L>,
) -> Result<Refill, Memory>
    requires zones { length filled.now.board.zones ≡ length board.now.board.zones }
    requires flags { AreFlags filled.now.board board.now.board (old_rank filled.now.board board.now.board) (is_set flags.now) }
    requires all { length flags.now ≡ length (ranked board.now.board) }
    requires olds { AreBoardFills filled.now.board (map arc_value olds.now) }
    ensures fills { IfOk result (λ r. AreBoardFills board.now.board (map arc_value r.fills.items)) }
    ensures count { IfOk result (λ r. IsDirtyCount filled.now.board (map arc_value olds.now) board.now.board
        (map arc_value r.fills.items) (is_set flags.now) r.count) }
    ensures counts { IfOk result (λ r. steps.new ≡ steps.old + r.count) }
    ensures most { AreStepsWithin filled.now.board board.now.board (is_set flags.now) steps.old steps.new }
{
    filled.sound();
    board.sound();
    let old_tasks = tasks(alloc, filled)?;
    let tasks = tasks(alloc, board)?;
    let edited = Edited {
        filled,
        board,
        old_tasks: &old_tasks,
        tasks: &tasks,
        olds,
        flags,
    };
    let walk = whole_walk(alloc, &edited, steps)?;
    Ok(Refill {
        fills: walk.fills,
        count: walk.count,
    })
}

// The walk over all tasks. Each task that is filled again is a step.
fn whole_walk<L: Ledger>(
    alloc: Global,
    it: &Edited<'_>,
    steps: &mut Steps<L>,
) -> Result<Walk, Memory>
    requires edited { IsEdited it.now }
    ensures walked { IfOk result (λ w. IsWalkOf it.now w) }
    ensures all { IfOk result (λ w. length w.fills.items ≡ length it.now.tasks.now) }
    ensures counts { IfOk result (λ w. steps.new ≡ steps.old + w.count) }
    ensures most { AreStepsWithin it.now.filled.now.board it.now.board.now.board (is_set it.now.flags.now) steps.old steps.new }
{
    let mut walk = Walk {
        fills: Vec::new(alloc),
        changed: Vec::new(alloc),
        count: 0,
    };
    'each: for _rank in 0..it.tasks.len() {
        walk = with_next(alloc, it, walk, steps)?;
    }
    Ok(walk)
}
