// The tasks of a board in the order of the file, by their ranks.
ghost use Rattle.std.specs.Prelude.{◌≡◌, ◌+◌, ◌*◌, ◌++◌, ◌<◌, cond, [], ◌∷◌, length, map, get_or, slice_set, IfOk};
ghost use Rattle.std.specs.Arc.{arc_value};
ghost use Rattle.fill_rules.specs.Tasks.{task_at};
ghost use Rattle.fill_rules.specs.Made.{Made};
ghost use Rattle.fills.specs.Fills.{task_of, AreBoardFills};
ghost use Rattle.clusters.specs.Filed.{AreFiled, AreRanks, tasks_of};
ghost use Rattle.clusters.specs.Inner.Ranks.{IsRankTable};

use board_model::Board;
use fills::{Fill, Task};
use grid_num::Memory;
use knockouts::has_layer;
use octagon::Oct;
use std::alloc::Global;
use std::sync::Arc;

/// The fill of that rank.
pub fn fill_at(fills: &[Arc<Fill>], rank: usize) -> &Fill
    requires { rank < length fills.now }
    ensures { (d : Made) → result.now ≡ get_or (map arc_value fills.now) rank d }
{
    &fills[rank]
}

/// The task of a fill.
pub fn task_of(fill: &Fill) -> Task
    ensures { task_of result ≡ fill.now.task }
{
    fill.task
}

/// The pieces of a fill.
pub fn pieces_of(fill: &Fill) -> &[Oct]
    ensures { result.now ≡ fill.now.pieces }
{
    fill.pieces.as_slice()
}

/// For each piece of a fill the first of its part.
pub fn parts_of(fill: &Fill) -> &[u32]
    ensures { result.now ≡ fill.now.parts }
{
    fill.parts.as_slice()
}

/// The tasks of the board in the order of the file, by zone and then by layer, each told by its rank.
///
/// # Errors
///
/// Want of memory.
pub fn filed_ranks(alloc: Global, board: &Board, fills: &[Arc<Fill>]) -> Result<Vec<u32>, Memory>
    requires { AreBoardFills board.now.board (map arc_value fills.now) }
    ensures { IfOk result (λ v. AreFiled board.now.board v.items) }
{
    board.sound();
    let zones = board.zones().len();
    let table = rank_table(alloc, board, fills)?;
    let mut ranks = Vec::new(alloc);
    'each: for zone in 0..zones {
        ranks = with_zone(ranks, board, &table, zone)?;
    }
    Ok(ranks)
}

// Adds the ranks of the tasks of one zone.
fn with_zone(ranks: Vec<u32>, board: &Board, table: &[u32], zone: usize) -> Result<Vec<u32>, Memory>
    requires zone { zone < length board.now.board.zones }
    requires table { IsRankTable board.now.board table.now }
    requires before { AreRanks board.now.board ranks.items }
    ensures order { IfOk result (λ all. map (task_at board.now.board) all.items ≡ map (task_at board.now.board) ranks.items
        ++ tasks_of board.now.board zone) }
    ensures each { IfOk result (λ all. AreRanks board.now.board all.items) }
{
    board.sound();
    let layers = board.zones()[zone].layers;
    let count = board.layers().len() as u8;
    let mut all = ranks;
    'each: for layer in 0..count {
        let rank = table[zone * 32 + usize::from(layer)];
        all = with_rank(all, rank, has_layer(layers, layer))?;
    }
    Ok(all)
}

// Adds the rank where it is wanted.
fn with_rank(ranks: Vec<u32>, rank: u32, wanted: bool) -> Result<Vec<u32>, Memory>
    ensures { IfOk result (λ all. all.items ≡ ranks.items ++ cond wanted (rank ∷ []) []) }
{
    let mut all = ranks;
    if wanted {
        all.push(rank)?;
    }
    Ok(all)
}

// For each zone, with room for 32 layers, the rank of its task on the layer; the number of tasks where it has none.
fn rank_table(alloc: Global, board: &Board, fills: &[Arc<Fill>]) -> Result<Vec<u32>, Memory>
    requires { AreBoardFills board.now.board (map arc_value fills.now) }
    ensures { IfOk result (λ table. IsRankTable board.now.board table.items) }
{
    board.sound();
    let count = u32::try_from(fills.len()).map_err(|_| Memory)?;
    let mut table = vec![in alloc; count; board.zones().len() * 32]?;
    let mut rank = count;
    'each: while rank > 0 {
        rank -= 1;
        put(&mut table, task_of(fill_at(fills, rank as usize)), rank);
    }
    Ok(table)
}

// Puts the rank at the place of its task.
fn put(table: &mut Vec<u32>, task: Task, rank: u32)
    requires { task.zone * 32 + task.layer < length table.old.items }
    ensures { table.new.items ≡ slice_set table.old.items (task.zone * 32 + task.layer) rank }
{
    table[task.zone as usize * 32 + usize::from(task.layer)] = rank;
}
