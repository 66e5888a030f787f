// Growing the tree from the cluster of anchor 0.
ghost use Rattle.std.specs.Prelude.{◌<◌, ◌^◌, length, IfOk};
ghost use Rattle.std.specs.List.{All};
ghost use Rattle.ratsnest.specs.Ratsnest.{IsNearby, IsTree};

use crate::key::anchor_at;
use crate::offers::{absorbed, first_offers, nearest};
use crate::{Anchor, Pair};
use grid_num::Memory;
use std::alloc::Global;

// The pairs in joining order.
pub(crate) fn grown(alloc: Global, anchors: &[Anchor]) -> Result<Vec<Pair>, Memory>
    requires near { All IsNearby anchors.now }
    requires count { length anchors.now < 2 ^ 32 }
    ensures { IfOk result (λ pairs. IsTree anchors.now pairs.items) }
{
    let mut pairs = Vec::new(alloc);
    if anchors.is_empty() {
        return Ok(pairs);
    }
    let start = first_offers(alloc, anchors)?;
    let mut left = absorbed(alloc, anchors, &start, anchors[0].cluster)?;
    'grow: while !left.is_empty() {
        let line = nearest(&left);
        pairs.push(line.best)?;
        let cluster = anchor_at(anchors, line.outside).cluster;
        left = absorbed(alloc, anchors, &left, cluster)?;
    }
    Ok(pairs)
}
