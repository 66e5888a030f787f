// A flag for each task of a board, by its rank: whether edits dirtied it directly.
ghost use Rattle.std.specs.Prelude.{◌≡◌, ◌↔◌, ℕ, ◌<◌, ◌∷◌, [], ◌++◌, cond, length, IfOk, IsTrue, false};
ghost use Rattle.fill_rules.specs.Tasks.{ranked};
ghost use Rattle.fills.specs.Fills.{task_of};
ghost use Rattle.refill_laws.specs.Walked.{is_set};
ghost use Rattle.dirtied.specs.Dirtied.{AreTaskFlags};
ghost use Rattle.dirtied.specs.Inner.Ranked.{AreTasks};
ghost use Rattle.refill.specs.Inner.Flags.{HasTask, AreFlagged, IsKeptOn, AreRead, AreNextOf};

use board_edit::Edit;
use board_model::Board;
use dirtied::dirtied;
use fills::Task;
use grid_num::Memory;
use knockouts::tasks;
use std::alloc::Global;

/// So many flags, none of them set.
pub fn none_set(alloc: Global, count: usize) -> Result<Vec<bool>, Memory>
    ensures count { IfOk result (λ flags. length flags.items ≡ count) }
    ensures none { IfOk result (λ flags. (k : ℕ) → is_set flags.items k ≡ false) }
{
    Ok(vec![in alloc; false; count]?)
}

/// The tasks of the board whose flags are set.
fn flagged_tasks(
    alloc: Global,
    board: &Board,
    tasks: &[Task],
    flags: &[bool],
) -> Result<Vec<Task>, Memory>
    requires tasks { AreTasks board.now.board tasks.now }
    requires flags { length flags.now ≡ length (ranked board.now.board) }
    ensures { IfOk result (λ flagged. AreFlagged board.now.board flags.now flagged.items) }
{
    let mut flagged = Vec::new(alloc);
    'each: for rank in 0..tasks.len() {
        push_if(&mut flagged, tasks[rank], flags[rank])?;
    }
    Ok(flagged)
}

/// Puts the task behind the others where it is wanted.
fn push_if(tasks: &mut Vec<Task>, task: Task, wanted: bool) -> Result<(), Memory>
    ensures { IfOk result (λ _. tasks.new.items ≡ cond wanted (tasks.old.items ++ task ∷ []) tasks.old.items) }
{
    if wanted {
        tasks.push(task)?;
    }
    Ok(())
}

/// Whether the task is one of these.
fn is_one_of(tasks: &[Task], task: Task) -> bool
    ensures { IsTrue result ↔ HasTask tasks.now (task_of task) }
{
    tasks.contains(&task)
}

/// Whether the task of a rank is one of those that were flagged, or its flag is set.
fn is_kept_on(board: &Board, tasks: &[Task], rank: usize, flagged: &[Task], direct: &[bool]) -> bool
    requires tasks { AreTasks board.now.board tasks.now }
    requires rank { rank < length tasks.now }
    requires direct { length direct.now ≡ length (ranked board.now.board) }
    ensures { IsTrue result ↔ IsKeptOn board.now.board flagged.now direct.now rank }
{
    direct[rank] || is_one_of(flagged, tasks[rank])
}

/// For each of the board's tasks whether it is one of those that were flagged, or its flag is set.
fn kept_on(
    alloc: Global,
    board: &Board,
    tasks: &[Task],
    flagged: &[Task],
    direct: &[bool],
) -> Result<Vec<bool>, Memory>
    requires tasks { AreTasks board.now.board tasks.now }
    requires direct { length direct.now ≡ length (ranked board.now.board) }
    ensures { IfOk result (λ flags. AreTaskFlags board.now.board
        (IsKeptOn board.now.board flagged.now direct.now) flags.items) }
{
    let mut flags = Vec::new(alloc);
    'each: for rank in 0..tasks.len() {
        flags.push(is_kept_on(board, tasks, rank, flagged, direct))?;
    }
    Ok(flags)
}

/// The flags of the new board, which the edit makes of the old one: a task that was flagged stays flagged, whatever its rank is
/// now, and so is what the edit dirties directly.
///
/// # Errors
///
/// Want of memory.
pub fn next_flags(
    alloc: Global,
    old: &Board,
    new: &Board,
    edit: &Edit,
    flags: &[bool],
) -> Result<Vec<bool>, Memory>
    requires read { AreRead old.now new.now }
    requires flags { length flags.now ≡ length (ranked old.now.board) }
    ensures { IfOk result (λ next. AreNextOf old.now new.now edit.now flags.now next.items) }
{
    let direct = dirtied(alloc, old, new, edit)?;
    let before = tasks(alloc, old)?;
    let flagged = flagged_tasks(alloc, old, &before, flags)?;
    let now = tasks(alloc, new)?;
    kept_on(alloc, new, &now, &flagged, &direct)
}
