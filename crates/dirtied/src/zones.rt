// Which tasks a zone's new priority or clearance dirties.
ghost use Rattle.std.specs.Prelude.{◌≡◌, ◌↔◌, ◌<◌, ◌≤◌, length, true, IfOk, IsTrue};
ghost use Rattle.board_language.specs.Copper.{has_layer};
ghost use Rattle.fill_rules.specs.Tasks.{task_zone, task_at};
ghost use Rattle.fill_rules.specs.Ranking.{IsTask};
ghost use Rattle.fills.specs.Fills.{task_of};
ghost use Rattle.dirty_rules.specs.Dirty.{IsReachingTask, AreTasksInReach, IsZoneDirtying};
ghost use Rattle.dirtied.specs.Dirtied.{AreTaskFlags};
ghost use Rattle.dirtied.specs.Inner.Ranked.{AreTasks};

use board_language::Zone;
use board_model::Board;
use fills::Task;
use grid_num::Memory;
use knockouts::{has_layer, reach};
use std::alloc::Global;

/// Whether a board with so many layers has this one, and the set too.
fn is_layer_of(layers: u32, count: usize, layer: u8) -> bool
    requires { count ≤ 32 }
    ensures { IsTrue result ↔ ((layer < count) × (has_layer layers layer ≡ true)) }
{
    if (layer as usize) < count {
        return has_layer(layers, layer);
    }
    false
}

/// The zone of a task.
#[tactic(auto, unfolding(fill_rules::specs::Tasks::task_zone))]
fn zone_of(board: &Board, task: Task) -> &Zone
    requires { task.zone < length board.now.board.zones }
    ensures { result.now ≡ task_zone board.now.board (task_of task) }
{
    let zones = board.zones();
    &zones[task.zone as usize]
}

/// Whether the task is one of the board's.
fn is_task(board: &Board, task: Task) -> bool
    ensures { IsTrue result ↔ IsTask board.now.board (task_of task) }
{
    board.sound();
    let place = task.zone as usize;
    if place < board.zones().len() {
        let zone = zone_of(board, task);
        return is_layer_of(zone.layers, board.layers().len(), task.layer);
    }
    false
}

/// Whether both are tasks of the board and the upper one reaches the lower one.
fn is_reaching(board: &Board, upper: Task, lower: Task) -> bool
    ensures { IsTrue result ↔ IsReachingTask board.now.board (task_of upper) (task_of lower) }
{
    if !is_task(board, upper) {
        return false;
    }
    if !is_task(board, lower) {
        return false;
    }
    reach(board, upper, lower)
}

/// Whether the two are tasks of the board of which one reaches the other.
fn are_in_reach(board: &Board, one: Task, other: Task) -> bool
    ensures { IsTrue result ↔ AreTasksInReach board.now.board (task_of one) (task_of other) }
{
    is_reaching(board, one, other) || is_reaching(board, other, one)
}

/// Whether a new priority or clearance of the zone of this number dirties the task, on the boards before and after it. Tasks
/// reach each other on one layer, so the zone's task on the layer of this one tells it.
fn zone_dirties(old: &Board, new: &Board, zone: u32, task: Task) -> bool
    ensures { IsTrue result ↔ IsZoneDirtying old.now.board new.now.board zone (task_of task) }
{
    let layer = task.layer;
    let of_zone = Task { zone, layer };
    if task.zone == zone {
        return true;
    }
    if are_in_reach(old, of_zone, task) {
        return true;
    }
    are_in_reach(new, of_zone, task)
}

/// The same of the task of a rank on the new board.
fn zone_dirties_at(old: &Board, new: &Board, tasks: &[Task], rank: usize, zone: u32) -> bool
    requires tasks { AreTasks new.now.board tasks.now }
    requires rank { rank < length tasks.now }
    ensures { IsTrue result ↔ IsZoneDirtying old.now.board new.now.board zone (task_at new.now.board rank) }
{
    zone_dirties(old, new, zone, tasks[rank])
}

/// Which of the new board's tasks, in rank order, a new priority or clearance of a zone dirties.
///
/// # Errors
///
/// Want of memory.
pub fn by_zone(
    alloc: Global,
    old: &Board,
    new: &Board,
    tasks: &[Task],
    zone: u32,
) -> Result<Vec<bool>, Memory>
    requires { AreTasks new.now.board tasks.now }
    ensures { IfOk result (λ v. AreTaskFlags new.now.board (λ k. IsZoneDirtying old.now.board new.now.board zone (task_at new.now.board k)) v.items) }
{
    let mut flags = Vec::new(alloc);
    'each: for rank in 0..tasks.len() {
        flags.push(zone_dirties_at(old, new, tasks, rank, zone))?;
    }
    Ok(flags)
}
