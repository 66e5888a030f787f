// The stacks of fills, each of a part: fewer octagons than pieces, with the same points part by part.
ghost use Rattle.std.specs.Prelude.{◌≡◌, ◌<◌, length, map, IfOk};
ghost use Rattle.std.specs.List.{All};
ghost use Rattle.std.specs.Arc.{arc_value};
ghost use Rattle.octagon.specs.Room.{IsAround};
ghost use Rattle.islands.specs.Parts.{AreParts};
ghost use Rattle.fills.specs.Fills.{AreBoardFills};
ghost use Rattle.clusters.specs.Inner.Stacks.{AreOfOnePart, AreStackParts, HavePartPoints};
ghost use Rattle.clusters.specs.Inner.Stacks.{AreNearStacks, AreFillStacks};

use crate::filed::{fill_at, parts_of, pieces_of};
use board_model::Board;
use fills::Fill;
use grid_num::Memory;
use octagon::Oct;
use stacks::stacked;
use std::alloc::Global;
use std::sync::Arc;

/// The stacks of a fill, and of each the first piece of its part.
#[derive(Drop)]
pub struct FillStacks {
    pub stacks: Vec<Oct>,
    pub parts: Vec<u32>,
}

/// The stacks of all fills, in rank order.
pub fn stacks_of(
    alloc: Global,
    board: &Board,
    fills: &[Arc<Fill>],
) -> Result<Vec<FillStacks>, Memory>
    requires { AreBoardFills board.now.board (map arc_value fills.now) }
    ensures stacks { IfOk result (λ v. AreFillStacks (map arc_value fills.now) (length fills.now) v.items) }
    ensures near { IfOk result (λ v. All AreNearStacks v.items) }
{
    board.sound();
    let mut all = Vec::new(alloc);
    'each: for rank in 0..fills.len() {
        let fill = fill_at(fills, rank);
        let stacks = stacks_of_fill(alloc, pieces_of(fill), parts_of(fill))?;
        all.push(stacks)?;
    }
    Ok(all)
}

// The stacks of the pieces, each with the part of its pieces: they hang together, and so are of one.
fn stacks_of_fill(alloc: Global, pieces: &[Oct], parts: &[u32]) -> Result<FillStacks, Memory>
    requires parts { AreParts pieces.now parts.now }
    requires near { All (IsAround 250000000) pieces.now }
    ensures points { IfOk result (λ s. HavePartPoints pieces.now parts.now s.stacks.items s.parts.items) }
    ensures near { IfOk result (λ s. AreNearStacks s) }
{
    let stacking = stacked(alloc, pieces)?;
    let parts = parts_of_stacks(alloc, &stacking.places, parts, stacking.stacks.len())?;
    Ok(FillStacks {
        stacks: stacking.stacks,
        parts,
    })
}

// For each of so many stacks the part of its pieces, given the stack and the part of each piece.
fn parts_of_stacks(
    alloc: Global,
    places: &[u32],
    parts: &[u32],
    count: usize,
) -> Result<Vec<u32>, Memory>
    requires each { length parts.now ≡ length places.now }
    requires within { All (λ n. n < count) places.now }
    requires one { AreOfOnePart places.now parts.now }
    ensures { IfOk result (λ firsts. AreStackParts places.now parts.now count (length places.now) firsts.items) }
{
    let mut firsts = vec![in alloc; 0; count]?;
    'each: for j in 0..places.len() {
        firsts[places[j] as usize] = parts[j];
    }
    Ok(firsts)
}
