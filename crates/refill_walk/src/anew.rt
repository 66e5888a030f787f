// Which tasks of the edited board are filled again.
ghost use Rattle.std.specs.Prelude.{◌≡◌, ◌↔◌, ◌<◌, ◌≤◌, length, map, true, IsTrue};
ghost use Rattle.fill_rules.specs.Tasks.{ranked};
ghost use Rattle.fill_rules.specs.Reach.{IsReaching};
ghost use Rattle.fills.specs.Fills.{task_of};
ghost use Rattle.refill_laws.specs.Walked.{is_set};
ghost use Rattle.refill_walk.specs.Inner.Walk.{IsReachedByChanged, IsFilledAgain};

use board_model::Board;
use fills::Task;
use knockouts::reach;

// Whether the task of the one rank reaches that of the other.
fn is_reaching(board: &Board, tasks: &[Task], upper: usize, lower: usize) -> bool
    requires order { map task_of tasks.now ≡ ranked board.now.board }
    requires upper { upper < length tasks.now }
    requires lower { lower < length tasks.now }
    ensures { IsTrue result ↔ IsReaching board.now.board upper lower }
{
    reach(board, tasks[upper], tasks[lower])
}

// Whether the fill of the one rank changed, and its task reaches that of the other rank.
fn is_spreading(board: &Board, tasks: &[Task], changed: &[bool], upper: usize, lower: usize) -> bool
    requires order { map task_of tasks.now ≡ ranked board.now.board }
    requires upper { upper < length changed.now }
    requires few { length changed.now ≤ length tasks.now }
    requires lower { lower < length tasks.now }
    ensures { IsTrue result ↔ (IsReaching board.now.board upper lower × (is_set changed.now upper ≡ true)) }
{
    changed[upper] && is_reaching(board, tasks, upper, lower)
}

// Whether a task whose fill changed reaches that of the rank.
fn is_reached(board: &Board, tasks: &[Task], changed: &[bool], rank: usize) -> bool
    requires order { map task_of tasks.now ≡ ranked board.now.board }
    requires few { length changed.now ≤ length tasks.now }
    requires rank { rank < length tasks.now }
    ensures { IsTrue result ↔ IsReachedByChanged board.now.board changed.now rank }
{
    'each: for upper in 0..changed.len() {
        if is_spreading(board, tasks, changed, upper, rank) {
            return true;
        }
    }
    false
}

/// Whether the task of this rank is filled again: it is flagged, or a task whose fill changed reaches it.
pub fn is_filled_again(
    board: &Board,
    tasks: &[Task],
    flags: &[bool],
    changed: &[bool],
    rank: usize,
) -> bool
    requires order { map task_of tasks.now ≡ ranked board.now.board }
    requires flags { length flags.now ≡ length tasks.now }
    requires few { length changed.now ≤ length tasks.now }
    requires rank { rank < length tasks.now }
    ensures { IsTrue result ↔ IsFilledAgain board.now.board (is_set flags.now) changed.now rank }
{
    flags[rank] || is_reached(board, tasks, changed, rank)
}
