// The fills of a whole board, rank by rank.
ghost use Rattle.std.specs.Prelude.{◌≡◌, ◌+◌, ◌≤◌, ◌∷◌, [], ◌++◌, cond, length, map, IfOk};
ghost use Rattle.std.specs.Arc.{arc_value};
ghost use Rattle.fill_rules.specs.Tasks.{ranked};
ghost use Rattle.fill_rules.specs.Ranking.{IsTask};
ghost use Rattle.fills.specs.Fills.{task_of, AreBoardFills};
ghost use Rattle.fills.specs.Above.{AreFillsAboveTask};
ghost use Rattle.zone_fill.specs.First.{IsNextTask};

use crate::fill::fill_task;
use board_model::Board;
use fills::Fill;
use grid_num::Memory;
use knockouts::{Task, reach, tasks};
use std::alloc::Global;
use std::sync::Arc;
use std::sync::ledger::Ledger;
use step_count::Steps;

/// The fills of all tasks of the board, in rank order. Each fill is a step; where memory is wanting, no more were counted than
/// the board has tasks.
///
/// # Errors
///
/// Want of memory.
pub fn fill_all<L: Ledger>(
    alloc: Global,
    board: &Board,
    steps: &mut Steps<L>,
) -> Result<Vec<Arc<Fill>>, Memory>
    ensures fills { IfOk result (λ v. AreBoardFills board.now.board (map arc_value v.items)) }
    ensures counts { IfOk result (λ _. steps.new ≡ steps.old + length (ranked board.now.board)) }
    ensures most { (steps.old ≤ steps.new) × (steps.new ≤ steps.old + length (ranked board.now.board)) }
{
    let tasks = tasks(alloc, board)?;
    let mut fills = Vec::new(alloc);
    'each: for task in &tasks {
        let above = above(alloc, board, &fills, *task)?;
        let fill = fill_task(alloc, board, *task, &above, steps)?;
        fills.push(Arc::new(alloc, fill)?)?;
    }
    Ok(fills)
}

/// Those of the fills whose task reaches the next one, in rank order: what the next task is filled over. The fills are those of
/// all tasks that rank above it.
///
/// # Errors
///
/// Want of memory.
pub fn above(
    alloc: Global,
    board: &Board,
    fills: &[Arc<Fill>],
    task: Task,
) -> Result<Vec<Arc<Fill>>, Memory>
    requires next { IsNextTask board.now.board (task_of task) (map arc_value fills.now) }
    requires task { IsTask board.now.board (task_of task) }
    ensures { IfOk result (λ v. AreFillsAboveTask board.now.board (task_of task) (map arc_value v.items)) }
{
    knockouts::laws::ranks_law();
    let mut above = Vec::new(alloc);
    'each: for fill in fills {
        let wanted = reach(board, fill.task, task);
        push_if(&mut above, fill, wanted)?;
    }
    Ok(above)
}

// Adds the fill where it is wanted.
fn push_if(fills: &mut Vec<Arc<Fill>>, fill: &Arc<Fill>, wanted: bool) -> Result<(), Memory>
    ensures { IfOk result (λ _. map arc_value fills.new.items
        ≡ cond wanted (map arc_value fills.old.items ++ arc_value fill.now ∷ []) (map arc_value fills.old.items)) }
{
    if wanted {
        fills.push(Arc::try_clone(fill)?)?;
    }
    Ok(())
}
