// Which tasks of a board reach which.
ghost use Rattle.std.specs.Prelude.{◌≡◌, ◌↔◌, ◌++◌, ◌∷◌, [], ◌<◌, ◌^◌, ◌≤◌, cond, length, map, IfOk, IsTrue};
ghost use Rattle.std.specs.List.{All};
ghost use Rattle.fill_rules.specs.Tasks.{ranked, layer_at};
ghost use Rattle.fill_rules.specs.Ranking.{IsTask};
ghost use Rattle.fill_rules.specs.Reach.{IsReaching};
ghost use Rattle.fills.specs.Fills.{task_of};
ghost use Rattle.fills.specs.Above.{AreReaching};
ghost use Rattle.fill_pool.specs.Inner.Tables.{IsTableOf, ArePlacesOn, AreByLayer};

use board_model::Board;
use fills::Task;
use grid_num::Memory;
use knockouts::laws::ranks_law;
use knockouts::reach;
use std::alloc::Global;

/// For each task of the board the ranks of the tasks that reach it. Only tasks of one layer are tried on each other.
pub fn table_of(alloc: Global, board: &Board, tasks: &[Task]) -> Result<Vec<Vec<u32>>, Memory>
    requires order { map task_of tasks.now ≡ ranked board.now.board }
    requires each { All (λ task. IsTask board.now.board (task_of task)) tasks.now }
    requires few { length tasks.now < 2 ^ 32 }
    ensures { IfOk result (λ table.
        IsTableOf board.now.board (map (λ row. row.items) table.items)) }
{
    board.sound();
    let count = board.layers().len() as u8;
    let layers = by_layer(alloc, tasks, count)?;
    let mut table = Vec::new(alloc);
    'each: for i in 0..tasks.len() {
        table.push(row_of(alloc, board, tasks, &layers, i as u32)?)?;
    }
    Ok(table)
}

// The ranks of the tasks that reach the task, out of those of each layer.
fn row_of(
    alloc: Global,
    board: &Board,
    tasks: &[Task],
    layers: &[Vec<u32>],
    rank: u32,
) -> Result<Vec<u32>, Memory>
    requires order { map task_of tasks.now ≡ ranked board.now.board }
    requires each { All (λ task. IsTask board.now.board (task_of task)) tasks.now }
    requires layers { AreByLayer (map task_of tasks.now) (length board.now.board.layers)
        (map (λ list. list.items) layers.now) }
    requires rank { rank < length tasks.now }
    ensures { IfOk result (λ row. AreReaching board.now.board rank row.items) }
{
    let ranks = layers[tasks[rank as usize].layer as usize].as_slice();
    chosen(alloc, board, tasks, ranks, rank)
}

// Those of the ranks on the task's layer that reach the task. They go upward, and none from the task's own on reaches it.
fn chosen(
    alloc: Global,
    board: &Board,
    tasks: &[Task],
    ranks: &[u32],
    rank: u32,
) -> Result<Vec<u32>, Memory>
    requires order { map task_of tasks.now ≡ ranked board.now.board }
    requires each { All (λ task. IsTask board.now.board (task_of task)) tasks.now }
    requires ranks { ArePlacesOn (ranked board.now.board) (layer_at board.now.board rank)
        (length tasks.now) ranks.now }
    requires rank { rank < length tasks.now }
    ensures { IfOk result (λ row. AreReaching board.now.board rank row.items) }
{
    let mut row = Vec::new(alloc);
    'each: for upper in ranks {
        if *upper >= rank {
            return Ok(row);
        }
        let wanted = is_reaching(board, tasks, *upper, rank);
        push_if(&mut row, *upper, wanted)?;
    }
    Ok(row)
}

// Whether the task of the one rank reaches that of the other.
fn is_reaching(board: &Board, tasks: &[Task], upper: u32, lower: u32) -> bool
    requires order { map task_of tasks.now ≡ ranked board.now.board }
    requires each { All (λ task. IsTask board.now.board (task_of task)) tasks.now }
    requires upper { upper < length tasks.now }
    requires lower { lower < length tasks.now }
    ensures { IsTrue result ↔ IsReaching board.now.board upper lower }
{
    ranks_law();
    reach(board, tasks[upper as usize], tasks[lower as usize])
}

// For each layer the places of the tasks on it.
fn by_layer(alloc: Global, tasks: &[Task], count: u8) -> Result<Vec<Vec<u32>>, Memory>
    requires few { length tasks.now < 2 ^ 32 }
    ensures { IfOk result (λ lists.
        AreByLayer (map task_of tasks.now) count (map (λ list. list.items) lists.items)) }
{
    let mut lists = Vec::new(alloc);
    'each: for layer in 0..count {
        lists.push(places_on(alloc, tasks, layer)?)?;
    }
    Ok(lists)
}

// The places of the tasks on the layer.
fn places_on(alloc: Global, tasks: &[Task], layer: u8) -> Result<Vec<u32>, Memory>
    requires few { length tasks.now < 2 ^ 32 }
    ensures { IfOk result (λ places.
        ArePlacesOn (map task_of tasks.now) layer (length tasks.now) places.items) }
{
    let mut places = Vec::new(alloc);
    'each: for i in 0..tasks.len() {
        let task = tasks[i];
        push_if(&mut places, i as u32, task.layer == layer)?;
    }
    Ok(places)
}

// Adds the number where it is wanted.
fn push_if(numbers: &mut Vec<u32>, number: u32, wanted: bool) -> Result<(), Memory>
    ensures { IfOk result (λ _. numbers.new.items
        ≡ cond wanted (numbers.old.items ++ number ∷ []) numbers.old.items) }
{
    if wanted {
        numbers.push(number)?;
    }
    Ok(())
}
