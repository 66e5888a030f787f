// The tasks of a board in rank order.
ghost use Rattle.std.specs.Prelude.{◌≡◌, ◌++◌, ◌∷◌, [], ◌<◌, ◌≤◌, cond, length, map, IfOk};
ghost use Rattle.std.specs.List.{All};
ghost use Rattle.board_language.specs.Copper.{has_layer};
ghost use Rattle.fill_rules.specs.Tasks.{ranked, tasks_from, layers_below, task_zone};
ghost use Rattle.fill_rules.specs.Ranking.{IsTask};
ghost use Rattle.fills.specs.Fills.{task_of};

use board_language::Zone;
use board_model::Board;
use fills::Task;
use grid_num::Memory;
use std::alloc::Global;
use std::cmp::Reverse;

/// All tasks of the board in rank order: by priority downward, then as the zones stand in the file, then by layer. Each is one of
/// the board's.
///
/// # Errors
///
/// Want of memory.
pub fn tasks(alloc: Global, board: &Board) -> Result<Vec<Task>, Memory>
    ensures order { IfOk result (λ tasks. map task_of tasks.items ≡ ranked board.now.board) }
    ensures each { IfOk result (λ tasks. All (λ task. IsTask board.now.board (task_of task)) tasks.items) }
{
    board.sound();
    let count = board.layers().len() as u8;
    let mut ranked = filed_tasks(alloc, board.zones(), count)?;
    ranked.sort_by_key(|task| Reverse(priority_of(board, *task)))?;
    Ok(ranked)
}

// The priority of the task's zone.
#[tactic(auto, unfolding(fill_rules::specs::Tasks::task_zone))]
fn priority_of(board: &Board, task: Task) -> u32
    ensures { result ≡ (task_zone board.now.board (task_of task)).priority }
{
    let place = task.zone as usize;
    if place < board.zones().len() {
        board.zones()[place].priority
    } else {
        0
    }
}

// The tasks of all zones in file order, each zone's by layer.
fn filed_tasks(alloc: Global, zones: &[Zone], count: u8) -> Result<Vec<Task>, Memory>
    requires zones { length zones.now ≤ 2000 }
    requires layers { count ≤ 32 }
    ensures { IfOk result (λ tasks. map task_of tasks.items ≡ tasks_from count 0 zones.now) }
{
    let mut tasks = Vec::new(alloc);
    'each: for (i, zone) in zones.iter().enumerate() {
        tasks = with_layers(tasks, i as u32, zone.layers, count)?;
    }
    Ok(tasks)
}

// Adds the tasks of one zone.
fn with_layers(tasks: Vec<Task>, zone: u32, layers: u32, count: u8) -> Result<Vec<Task>, Memory>
    requires { count ≤ 32 }
    ensures { IfOk result (λ all. map task_of all.items ≡ map task_of tasks.items ++ map (λ l. record { zone = zone; layer = l }) (layers_below layers count)) }
{
    let mut all = tasks;
    'each: for layer in 0..count {
        all = with_task(all, Task { zone, layer }, has_layer(layers, layer))?;
    }
    Ok(all)
}

// Adds the task where it is wanted.
fn with_task(tasks: Vec<Task>, task: Task, wanted: bool) -> Result<Vec<Task>, Memory>
    ensures { IfOk result (λ all. map task_of all.items ≡ map task_of tasks.items ++ cond wanted (task_of task ∷ []) []) }
{
    let mut all = tasks;
    if wanted {
        all.push(task)?;
    }
    Ok(all)
}

/// Whether the layer is in the set.
pub fn has_layer(layers: u32, layer: u8) -> bool
    requires { layer < 32 }
    ensures { result ≡ has_layer layers layer }
{
    layers & (1 << layer) != 0
}

/// The task's zone.
#[tactic(auto, unfolding(fill_rules::specs::Tasks::task_zone))]
pub fn zone_of(board: &Board, task: Task) -> &Zone
    requires { IsTask board.now.board (task_of task) }
    ensures { result.now ≡ task_zone board.now.board (task_of task) }
{
    let zones = board.zones();
    &zones[task.zone as usize]
}
