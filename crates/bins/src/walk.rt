// A walk over the blocks, from one to the next or past what it misses.
ghost use Rattle.std.specs.Prelude.{◌≡◌, ◌<◌, ◌≤◌, ◌^◌, [], length, IfOk, OnOk};
ghost use Rattle.bins.specs.Meeting.{AreThoseMeeting, AreThoseMeetingAmong};
ghost use Rattle.bins.specs.Inner.Blocks.{AreBlocks, IsWalked, block_at};

use crate::block::Block;
use crate::frame::misses;
use grid_num::Memory;
use octagon::Oct;

// Adds the places of all octagons that meet this one.
pub fn walk(octs: &[Oct], blocks: &[Block], oct: &Oct, into: &mut Vec<u32>) -> Result<(), Memory>
    requires blocks { AreBlocks octs.now blocks.now }
    requires empty { into.old.items ≡ [] }
    ensures { OnOk result (AreThoseMeeting octs.now oct.now into.new.items) }
{
    let mut at = 0;
    'walk: while at < blocks.len() {
        at = step(octs, blocks, at, oct, into)?;
    }
    Ok(())
}

// Where the walk goes on behind the block, once the octagons of a leaf that isn't missed are tried.
fn step(
    octs: &[Oct],
    blocks: &[Block],
    at: usize,
    oct: &Oct,
    into: &mut Vec<u32>,
) -> Result<usize, Memory>
    requires blocks { AreBlocks octs.now blocks.now }
    requires at { at < length blocks.now }
    requires walked { IsWalked octs.now blocks.now oct.now at into.old.items }
    ensures onward { IfOk result (λ next. (at < next) × (next ≤ length blocks.now)) }
    ensures walked { IfOk result (λ next. IsWalked octs.now blocks.now oct.now next into.new.items) }
{
    let block = blocks[at];
    if misses(block.frame, oct) {
        return Ok(block.skip);
    }
    if block.is_leaf {
        add_meeting(octs, block.first, block.end, oct, into)?;
    }
    Ok(at + 1)
}

// Adds the places of those octagons, from one place to before another, that meet this one.
fn add_meeting(
    octs: &[Oct],
    first: u32,
    end: u32,
    oct: &Oct,
    into: &mut Vec<u32>,
) -> Result<(), Memory>
    requires within { (first ≤ end) × (end ≤ length octs.now) }
    requires before { AreThoseMeetingAmong octs.now oct.now first into.old.items }
    ensures { OnOk result (AreThoseMeetingAmong octs.now oct.now end into.new.items) }
{
    'each: for j in first..end {
        if octs[j as usize].meets(oct) {
            into.push(j)?;
        }
    }
    Ok(())
}
