// What is said of the nets that have nodes, in the order of their numbers.
ghost use Rattle.std.specs.Prelude.{◌≡◌, ◌<◌, length, map, IfOk};
ghost use Rattle.std.specs.List.{All};
ghost use Rattle.std.specs.Arc.{arc_value};
ghost use Rattle.ratsnest.specs.Ratsnest.{IsTree};
ghost use Rattle.fills.specs.Fills.{AreBoardFills};
ghost use Rattle.clusters.specs.Labelling.{IsLabelling, IsEndInRange};
ghost use Rattle.output_rules.specs.Report.{IsLineInRange};
ghost use Rattle.output_rules.specs.Reported.{nets_of, line_of_pair, AreNetLines};
ghost use Rattle.output_rules.specs.Shown.{net_shown, IsNetInRange};
ghost use Rattle.fill_text.specs.Inner.Alike.{IsNextNumber};
ghost use Rattle.fill_text.specs.Inner.Nets.{AreEachOnce, AreLinesOfNet};

use crate::members::{clusters_of, next_alike};
use board_model::Board;
use clusters::{Anchor, Labelling, net_anchors};
use copper_shape::dist_sq;
use fills::Fill;
use grid_num::Memory;
use output_rules::{NetLines, RatsnestLine, nets_law};
use ratsnest::{Pair, tree};
use std::alloc::Global;
use std::sync::Arc;

/// The lines of all nets.
pub fn net_lines(
    alloc: Global,
    board: &Board,
    fills: &[Arc<Fill>],
    labelling: &Labelling,
) -> Result<Vec<NetLines>, Memory>
    requires fills { AreBoardFills board.now.board (map arc_value fills.now) }
    requires labelling { IsLabelling board.now.board (map arc_value fills.now) labelling.now }
    ensures lines { IfOk result (λ v. AreNetLines board.now.board (map arc_value fills.now) labelling.now.label.items
        (nets_of board.now.board (map arc_value fills.now)) (map net_shown v.items)) }
    ensures range { IfOk result (λ v. All IsNetInRange v.items) }
{
    nets_law();
    let next = next_alike(alloc, &labelling.label)?;
    let nets = each_once(alloc, &labelling.nets)?;
    let mut lines = Vec::new(alloc);
    'each: for k in 0..nets.len() {
        let line = lines_of_net(alloc, board, fills, labelling, &next, nets[k])?;
        lines.push(line)?;
    }
    Ok(lines)
}

// The numbers upward, each once.
fn each_once(alloc: Global, numbers: &[u32]) -> Result<Vec<u32>, Memory>
    ensures { IfOk result (λ v. AreEachOnce numbers.now v.items) }
{
    let mut once = Vec::from_slice(alloc, numbers)?;
    once.sort_unstable();
    once.dedup();
    Ok(once)
}

// The clusters of a net, and the lines of its ratsnest.
fn lines_of_net(
    alloc: Global,
    board: &Board,
    fills: &[Arc<Fill>],
    labelling: &Labelling,
    next: &[u32],
    net: u32,
) -> Result<NetLines, Memory>
    requires fills { AreBoardFills board.now.board (map arc_value fills.now) }
    requires labelling { IsLabelling board.now.board (map arc_value fills.now) labelling.now }
    requires next { IsNextNumber labelling.now.label.items next.now }
    ensures lines { IfOk result (λ n. AreLinesOfNet board.now.board (map arc_value fills.now) labelling.now.label.items net (net_shown n)) }
    ensures range { IfOk result (λ n. IsNetInRange n) }
{
    let clusters = clusters_of(alloc, &labelling.label, &labelling.nets, next, net)?;
    let anchors = net_anchors(alloc, board, fills, labelling, net)?;
    let _count = count_of(&anchors)?;
    let pairs = tree(alloc, &anchors)?;
    let lines = lines_of(alloc, &anchors, &pairs)?;
    Ok(NetLines {
        net,
        clusters,
        lines,
    })
}

// How many anchors there are, where a pair can tell them.
fn count_of(anchors: &[Anchor]) -> Result<u32, Memory>
    ensures { IfOk result (λ count. count ≡ length anchors.now) }
{
    u32::try_from(anchors.len()).map_err(|_| Memory)
}

// The lines between the anchors of the pairs.
fn lines_of(alloc: Global, anchors: &[Anchor], pairs: &[Pair]) -> Result<Vec<RatsnestLine>, Memory>
    requires tree { IsTree anchors.now pairs.now }
    requires range { All IsEndInRange anchors.now }
    ensures lines { IfOk result (λ v. v.items ≡ map (line_of_pair anchors.now) pairs.now) }
    ensures range { IfOk result (λ v. All IsLineInRange v.items) }
{
    ratsnest::tree_law();
    let mut lines = Vec::new(alloc);
    'each: for pair in pairs {
        lines.push(line_of(anchors, *pair))?;
    }
    Ok(lines)
}

// The line between the two anchors.
fn line_of(anchors: &[Anchor], pair: Pair) -> RatsnestLine
    requires first { pair.first < length anchors.now }
    requires second { pair.second < length anchors.now }
    requires range { All IsEndInRange anchors.now }
    ensures line { result ≡ line_of_pair anchors.now pair }
    ensures range { IsLineInRange result }
{
    let from = anchors[pair.first as usize].at;
    let to = anchors[pair.second as usize].at;
    RatsnestLine {
        from,
        to,
        square: dist_sq(from, to),
    }
}
