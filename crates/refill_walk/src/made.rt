// A fill that is made on the edited board.
ghost use Rattle.std.specs.Prelude.{◌≡◌, ◌+◌, ◌≤◌, length, map, IfOk};
ghost use Rattle.std.specs.Arc.{arc_value};
ghost use Rattle.fill_rules.specs.Ranking.{IsTask};
ghost use Rattle.fills.specs.Fills.{task_of, IsFillOf};
ghost use Rattle.zone_fill.specs.First.{IsNextTask};

use board_model::Board;
use fills::{Fill, Task};
use grid_num::Memory;
use std::alloc::Global;
use std::sync::Arc;
use std::sync::ledger::Ledger;
use step_count::Steps;
use zone_fill::{above, fill_task};

/// The fill of the next task on the board, over the fills of all tasks above it. It takes a step.
pub fn fill_anew<L: Ledger>(
    alloc: Global,
    board: &Board,
    task: Task,
    fills: &[Arc<Fill>],
    steps: &mut Steps<L>,
) -> Result<Arc<Fill>, Memory>
    requires next { IsNextTask board.now.board (task_of task) (map arc_value fills.now) }
    requires task { IsTask board.now.board (task_of task) }
    ensures fill { IfOk result (λ f. IsFillOf board.now.board (length fills.now) (arc_value f)) }
    ensures counts { IfOk result (λ _. steps.new ≡ steps.old + 1) }
    ensures most { (steps.old ≤ steps.new) × (steps.new ≤ steps.old + 1) }
{
    let above = above(alloc, board, fills, task)?;
    let fill = fill_task(alloc, board, task, &above, steps)?;
    Ok(Arc::new(alloc, fill)?)
}
