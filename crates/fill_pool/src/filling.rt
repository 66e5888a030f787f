// How tasks are filled, over counters that nobody reads.
ghost use Rattle.std.specs.Prelude.{◌≡◌, ◌<◌, map, IfOk};
ghost use Rattle.std.specs.Arc.{arc_value};
ghost use Rattle.fills.specs.Fills.{task_of, IsFillOf, AreBoardFills};
ghost use Rattle.fills.specs.Above.{AreFillsAbove, AreFillsAboveTask};
ghost use Rattle.zone_fill.specs.Task.{IsFillOfTask};

use crate::laws::ticket_law;
use crate::{Named, Ticket};
use board_model::Board;
use fills::{Fill, Task};
use grid_num::Memory;
use std::alloc::Global;
use std::marker::Brand;
use std::sync::Arc;
use std::sync::ledger::{Blank, Ledger};
use step_count::Steps;
use zone_fill::{fill_all, fill_task};

/// The fill of the ticket's task, on the fills of exactly the tasks that reach it, in rank order.
pub fn filled<N: Named>(
    alloc: Global,
    board: &Board,
    ticket: &Ticket<N>,
    above: &[Arc<Fill>],
) -> Result<Arc<Fill>, Memory>
    requires named { board.now.board ≡ N.board }
    requires above { AreFillsAbove N.board ticket.now.number (map arc_value above.now) }
    ensures { IfOk result (λ fill. IsFillOf N.board ticket.now.number (arc_value fill)) }
{
    ticket_law();
    let _number = ticket.number();
    let fill = made::<Brand>(alloc, board, ticket.task(), above, Blank::new(1))?;
    Ok(Arc::new(alloc, fill)?)
}

/// The fills of all tasks of the board, in rank order, made one after another.
pub fn filled_alone(alloc: Global, board: &Board) -> Result<Vec<Arc<Fill>>, Memory>
    ensures { IfOk result (λ fills. AreBoardFills board.now.board (map arc_value fills.items)) }
{
    all_made::<Brand>(alloc, board, Blank::new(1))
}

// The fill of the task, with the count that the blank begins.
fn made<L: Ledger>(
    alloc: Global,
    board: &Board,
    task: Task,
    above: &[Arc<Fill>],
    blank: Blank,
) -> Result<Fill, Memory>
    requires above { AreFillsAboveTask board.now.board (task_of task) (map arc_value above.now) }
    requires name { blank.name ≡ L.name }
    requires parts { blank.parts ≡ L.parts }
    requires some { 0 < blank.parts }
    ensures { IfOk result (λ fill. IsFillOfTask board.now.board (task_of task) fill) }
{
    let mut steps = Steps::<L>::new(blank);
    fill_task(alloc, board, task, above, &mut steps)
}

// The fills of all tasks, with the count that the blank begins.
fn all_made<L: Ledger>(alloc: Global, board: &Board, blank: Blank) -> Result<Vec<Arc<Fill>>, Memory>
    requires name { blank.name ≡ L.name }
    requires parts { blank.parts ≡ L.parts }
    requires some { 0 < blank.parts }
    ensures { IfOk result (λ fills. AreBoardFills board.now.board (map arc_value fills.items)) }
{
    let mut steps = Steps::<L>::new(blank);
    fill_all(alloc, board, &mut steps)
}
