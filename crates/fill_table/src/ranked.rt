// The fills of a board and their tasks, by rank.
ghost use Rattle.std.specs.Prelude.{◌≡◌, ◌<◌, length, map, get_or, take};
ghost use Rattle.std.specs.Arc.{arc_value};
ghost use Rattle.fill_rules.specs.Made.{Made};
ghost use Rattle.fill_rules.specs.Ranking.{IsTask};
ghost use Rattle.fills.specs.Fills.{task_of, AreBoardFills};
ghost use Rattle.zone_fill.specs.First.{IsNextTask};

use board_model::Board;
use fills::{Fill, Task};
use std::sync::Arc;

/// The fill of the rank.
pub fn fill_at(fills: &[Arc<Fill>], rank: usize) -> &Fill
    requires { rank < length fills.now }
    ensures { (d : Made) → result.now ≡ get_or (map arc_value fills.now) rank d }
{
    &fills[rank]
}

// The task of a fill.
fn task_of(fill: &Fill) -> Task
    ensures { task_of result ≡ fill.now.task }
{
    fill.task
}

/// The task of the rank: one of the board's, and the next one after the fills of lesser ranks.
pub fn task_at(board: &Board, fills: &[Arc<Fill>], rank: usize) -> Task
    requires rank { rank < length fills.now }
    requires fills { AreBoardFills board.now.board (map arc_value fills.now) }
    ensures task { IsTask board.now.board (task_of result) }
    ensures next { IsNextTask board.now.board (task_of result) (map arc_value (take rank fills.now)) }
{
    task_of(fill_at(fills, rank))
}
