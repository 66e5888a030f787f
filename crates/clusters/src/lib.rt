//! What hangs together on a filled board: its nodes (pads, tracks, vias and parts of fills), their clusters, and where ratsnest
//! lines of a net may end. The layer above uses exact answers: those of the rules, over a board that is read and its fills.
//! Places on the board are nanometres, hulls are units of the grid (2 nm), copper is in halves of a nanometre.
#![tactic(auto)]

ghost use Rattle.std.specs.Prelude.{◌≡◌, length, map, IfOk};
ghost use Rattle.std.specs.List.{All};
ghost use Rattle.std.specs.Arc.{arc_value};
ghost use Rattle.ratsnest.specs.Ratsnest.{IsNearby};
ghost use Rattle.fill_rules.specs.Nodes.{nodes_of};
ghost use Rattle.fill_rules.specs.Clusters.{net_anchors};
ghost use Rattle.fills.specs.Fills.{AreBoardFills};
ghost use Rattle.clusters.specs.Labelling.{node_of, IsLabelling, IsEndInRange};

mod anchors;
mod copper;
mod filed;
mod fill_stacks;
mod list;
mod node_links;
mod patch;
mod patches;
mod reading;

use crate::anchors::anchors_of;
use crate::list::list_of;
use crate::node_links::labels;
use crate::patches::patches_of;
use crate::reading::nets_of;
use board_model::Board;
pub use filed::{filed_ranks, fill_at, parts_of, pieces_of, task_of};
use fills::Fill;
use grid_num::Memory;
pub use ratsnest::Anchor;
use std::alloc::Global;
use std::sync::Arc;

/// A piece of copper of a net.
#[derive(Clone, Copy, PartialEq, Eq, Debug, Drop)]
pub enum Node {
    /// By its place among the board's pads, tracks or vias.
    Pad(u32),
    Track(u32),
    Via(u32),
    /// The part of the fill of this rank that begins with this piece.
    Part { fill: u32, first: u32 },
}

/// What hangs together: nodes in their order, the net of each, and for each the least number of its cluster.
#[derive(Debug, Drop)]
pub struct Labelling {
    pub nodes: Vec<Node>,
    pub nets: Vec<u32>,
    pub label: Vec<u32>,
}

/// The nodes of a filled board: pads, tracks and vias in the order of the file, and then parts of fills by the order of their
/// zones, by layer, and by their first pieces. Copper without a net and bare holes are none. The fills are those of the board, in
/// rank order.
///
/// # Errors
///
/// Want of memory.
pub fn nodes(alloc: Global, board: &Board, fills: &[Arc<Fill>]) -> Result<Vec<Node>, Memory>
    requires { AreBoardFills board.now.board (map arc_value fills.now) }
    ensures { IfOk result (λ v. map (node_of board.now.board) v.items ≡ nodes_of board.now.board (map arc_value fills.now)) }
{
    list_of(alloc, board, fills)
}

/// Which nodes hang together: two of one net do that share a layer and touch, and so on from one to the next.
///
/// # Errors
///
/// Want of memory, which 2^32 nodes or more, or 2^32 hulls of their copper, are taken for.
pub fn clusters(alloc: Global, board: &Board, fills: &[Arc<Fill>]) -> Result<Labelling, Memory>
    requires { AreBoardFills board.now.board (map arc_value fills.now) }
    ensures { IfOk result (λ l. IsLabelling board.now.board (map arc_value fills.now) l) }
{
    touching::copper_law();
    let nodes = nodes(alloc, board, fills)?;
    let count = count_of(&nodes)?;
    let nets = nets_of(alloc, board, fills, &nodes)?;
    let patches = patches_of(alloc, board, fills, &nodes, &nets)?;
    let label = labels(alloc, patches, count)?;
    Ok(Labelling { nodes, nets, label })
}

/// Where ratsnest lines of a net may end, in the order of its nodes, each place with its cluster's label: the centre of a pad or a
/// via, the start and the end of a track, and the least corner of a part, by y and then by x. All lie within 500 mm.
///
/// # Errors
///
/// Want of memory.
pub fn net_anchors(
    alloc: Global,
    board: &Board,
    fills: &[Arc<Fill>],
    labelling: &Labelling,
    net: u32,
) -> Result<Vec<Anchor>, Memory>
    requires fills { AreBoardFills board.now.board (map arc_value fills.now) }
    requires labelling { IsLabelling board.now.board (map arc_value fills.now) labelling.now }
    ensures anchors { IfOk result (λ v. v.items ≡ net_anchors board.now.board (map arc_value fills.now) labelling.now.label.items net) }
    ensures near { IfOk result (λ v. All IsNearby v.items) }
    ensures range { IfOk result (λ v. All IsEndInRange v.items) }
{
    board.sound();
    let anchors = anchors_of(alloc, board, fills, labelling, net)?;
    Ok(anchors)
}

// How many nodes there are, where a label can tell their numbers.
fn count_of(nodes: &[Node]) -> Result<u32, Memory>
    ensures { IfOk result (λ count. count ≡ length nodes.now) }
{
    u32::try_from(nodes.len()).map_err(|_| Memory)
}
