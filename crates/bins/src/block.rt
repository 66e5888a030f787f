// Runs of octagons with the rectangles round them, in the order of a walk down the halves of the list.
ghost use Rattle.std.specs.Prelude.{◌≡◌, ◌<◌, ◌≤◌, ◌^◌, length, IfOk};
ghost use Rattle.bins.specs.Inner.Blocks.{AreInFrame, AreBlocks, AreBlocksMore};

use crate::frame::{Frame, frame_of, grown};
use grid_num::Memory;
use octagon::Oct;
use std::alloc::Global;

// The octagons from one place to before another, the rectangle round them, and the place of the block where a walk goes on behind them.
// Behind a block that is no leaf stand those of its two halves.
#[derive(Clone, Copy, Drop)]
pub struct Block {
    pub frame: Frame,
    pub first: u32,
    pub end: u32,
    pub skip: usize,
    pub is_leaf: bool,
}

// A run of so few octagons isn't halved.
const FEW: u32 = 8;

// The blocks of all octagons; none where there is no octagon.
pub fn blocks_of(alloc: Global, octs: &[Oct]) -> Result<Vec<Block>, Memory>
    ensures { IfOk result (λ blocks. AreBlocks octs.now blocks.items) }
{
    let count = count_of(octs)?;
    let mut blocks = Vec::new(alloc);
    if count > 0 {
        add_blocks(octs, 0, count, &mut blocks)?;
    }
    Ok(blocks)
}

// How many octagons there are, where a number of 32 bits can tell their places.
fn count_of(octs: &[Oct]) -> Result<u32, Memory>
    ensures { IfOk result (λ count. count ≡ length octs.now) }
{
    u32::try_from(octs.len()).map_err(|_| Memory)
}

// Adds the blocks of the octagons from one place to before another.
fn add_blocks(octs: &[Oct], first: u32, end: u32, blocks: &mut Vec<Block>) -> Result<(), Memory>
    requires some { first < end }
    requires within { end ≤ length octs.now }
    ensures { IfOk result (λ _. AreBlocksMore octs.now first end blocks.old.items blocks.new.items) }
{
    let at = blocks.len();
    let block = Block {
        frame: frame_round(octs, first, end),
        first,
        end,
        skip: at + 1,
        is_leaf: end - first <= FEW,
    };
    blocks.push(block)?;
    if block.is_leaf {
        return Ok(());
    }
    let middle = first + (end - first) / 2;
    add_blocks(octs, first, middle, blocks)?;
    add_blocks(octs, middle, end, blocks)?;
    let skip = blocks.len();
    blocks[at] = Block { skip, ..block };
    Ok(())
}

// The rectangle round the octagons from one place to before another.
fn frame_round(octs: &[Oct], first: u32, end: u32) -> Frame
    requires some { first < end }
    requires within { end ≤ length octs.now }
    ensures { AreInFrame result octs.now first end }
{
    let mut frame = frame_of(&octs[first as usize]);
    'each: for j in first + 1..end {
        frame = grown(frame, &octs[j as usize]);
    }
    frame
}
