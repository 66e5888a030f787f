// The fills of the board before, by their tasks.
ghost use Rattle.std.specs.Prelude.{◌≡◌, ◌<◌, length, map, get_or};
ghost use Rattle.std.specs.Arc.{arc_value};
ghost use Rattle.fill_rules.specs.Nodes.{rank_in};
ghost use Rattle.fill_rules.specs.Made.{no_fill};
ghost use Rattle.fills.specs.Fills.{task_of};
ghost use Rattle.refill_laws.specs.OneEdit.{old_rank};
ghost use Rattle.refill_walk.specs.Inner.Edited.{IsEdited};

use crate::edited::Edited;
use fills::{Fill, Task};
use std::sync::Arc;

// The task's place among the tasks; their number where it is none of them.
fn rank_of(tasks: &[Task], task: Task) -> usize
    ensures { result ≡ rank_in (task_of task) (map task_of tasks.now) }
{
    'each: for i in 0..tasks.len() {
        if tasks[i].zone == task.zone && tasks[i].layer == task.layer {
            return i;
        }
    }
    tasks.len()
}

// The fill of the rank.
fn fill_at(fills: &[Arc<Fill>], rank: usize) -> &Arc<Fill>
    requires { rank < length fills.now }
    ensures { arc_value result.now ≡ get_or (map arc_value fills.now) rank no_fill }
{
    &fills[rank]
}

/// The fill that the task of this rank had before.
pub fn old_fill<'a>(it: &Edited<'a>, rank: usize) -> &'a Arc<Fill>
    requires edited { IsEdited it.now }
    requires rank { rank < length it.now.tasks.now }
    ensures { arc_value result.now ≡ get_or (map arc_value it.now.olds.now)
        (old_rank it.now.filled.now.board it.now.board.now.board rank) no_fill }
{
    fill_at(it.olds, rank_of(it.old_tasks, it.tasks[rank]))
}
