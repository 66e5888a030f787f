// The list of nodes.
ghost use Rattle.std.specs.Prelude.{◌≡◌, ◌++◌, ◌∷◌, [], ◌<◌, cond, length, map, flat_map, IfOk, OnOk};
ghost use Rattle.std.specs.Arc.{arc_value};
ghost use Rattle.board_language.specs.declared.board.Track.{Track};
ghost use Rattle.board_language.specs.declared.board.Via.{Via};
ghost use Rattle.fill_rules.specs.Tasks.{ranked, task_at, task_zone, tasks_from};
ghost use Rattle.fill_rules.specs.Nodes.{pad, track, via, part, is_pad_node, has_net, passing_places, firsts_from, part_nodes, nodes_of};
ghost use Rattle.fills.specs.Fills.{AreBoardFills};
ghost use Rattle.clusters.specs.Labelling.{node_of};

use crate::Node;
use crate::filed::{filed_ranks, fill_at, parts_of, task_of};
use board_model::{Board, Pad, PadKind};
use fills::Fill;
use grid_num::Memory;
use knockouts::zone_of;
use std::alloc::Global;
use std::sync::Arc;

/// All nodes: pads, tracks, vias, and parts of fills.
#[tactic(auto, unfolding(fill_rules::specs::Nodes::nodes_of))]
pub fn list_of(alloc: Global, board: &Board, fills: &[Arc<Fill>]) -> Result<Vec<Node>, Memory>
    requires { AreBoardFills board.now.board (map arc_value fills.now) }
    ensures { IfOk result (λ v. map (node_of board.now.board) v.items ≡ nodes_of board.now.board (map arc_value fills.now)) }
{
    let mut nodes = Vec::new(alloc);
    add_pads(&mut nodes, board)?;
    add_tracks(&mut nodes, board)?;
    add_vias(&mut nodes, board)?;
    add_parts(alloc, &mut nodes, board, fills)?;
    Ok(nodes)
}

// Adds the node where it is one.
fn add_if(nodes: &mut Vec<Node>, node: Node, wanted: bool) -> Result<(), Memory>
    ensures { OnOk result (nodes.new.items ≡ nodes.old.items ++ cond wanted (node ∷ []) []) }
{
    if wanted {
        nodes.push(node)?;
    }
    Ok(())
}

// Whether the pad is copper of a net: a bare hole isn't copper.
fn is_pad_node(pad: &Pad) -> bool
    ensures { result ≡ is_pad_node pad.now }
{
    match pad.kind {
        PadKind::Plated => pad.net != 0,
        PadKind::Surface => pad.net != 0,
        PadKind::Hole => false,
    }
}

fn add_pads(nodes: &mut Vec<Node>, board: &Board) -> Result<(), Memory>
    ensures { OnOk result (map (node_of board.now.board) nodes.new.items ≡ map (node_of board.now.board) nodes.old.items
        ++ map pad (passing_places is_pad_node 0 board.now.board.pads)) }
{
    board.sound();
    let pads = board.pads();
    'each: for k in 0..pads.len() {
        add_if(nodes, Node::Pad(k as u32), is_pad_node(&pads[k]))?;
    }
    Ok(())
}

fn add_tracks(nodes: &mut Vec<Node>, board: &Board) -> Result<(), Memory>
    ensures { OnOk result (map (node_of board.now.board) nodes.new.items ≡ map (node_of board.now.board) nodes.old.items
        ++ map track (passing_places (λ (t : Track). has_net t.net) 0 board.now.board.tracks)) }
{
    board.sound();
    let tracks = board.tracks();
    'each: for k in 0..tracks.len() {
        add_if(nodes, Node::Track(k as u32), tracks[k].net != 0)?;
    }
    Ok(())
}

fn add_vias(nodes: &mut Vec<Node>, board: &Board) -> Result<(), Memory>
    ensures { OnOk result (map (node_of board.now.board) nodes.new.items ≡ map (node_of board.now.board) nodes.old.items
        ++ map via (passing_places (λ (v : Via). has_net v.net) 0 board.now.board.vias)) }
{
    board.sound();
    let vias = board.vias();
    'each: for k in 0..vias.len() {
        add_if(nodes, Node::Via(k as u32), vias[k].net != 0)?;
    }
    Ok(())
}

// The parts of all fills, by the file order of their tasks.
fn add_parts(
    alloc: Global,
    nodes: &mut Vec<Node>,
    board: &Board,
    fills: &[Arc<Fill>],
) -> Result<(), Memory>
    requires { AreBoardFills board.now.board (map arc_value fills.now) }
    ensures { OnOk result (map (node_of board.now.board) nodes.new.items ≡ map (node_of board.now.board) nodes.old.items
        ++ flat_map (part_nodes board.now.board (map arc_value fills.now)) (tasks_from (length board.now.board.layers) 0 board.now.board.zones)) }
{
    let ranks = filed_ranks(alloc, board, fills)?;
    'each: for k in 0..ranks.len() {
        let rank = ranks[k];
        add_fill(nodes, board, rank, fill_at(fills, rank as usize))?;
    }
    Ok(())
}

// The parts of a fill, where its zone has a net.
fn add_fill(nodes: &mut Vec<Node>, board: &Board, rank: u32, fill: &Fill) -> Result<(), Memory>
    requires rank { rank < length (ranked board.now.board) }
    requires task { fill.now.task ≡ task_at board.now.board rank }
    ensures { OnOk result (map (node_of board.now.board) nodes.new.items ≡ map (node_of board.now.board) nodes.old.items
        ++ cond (has_net (task_zone board.now.board (task_at board.now.board rank)).net) (map (part (task_at board.now.board rank)) (firsts_from 0 fill.now.parts)) []) }
{
    if zone_of(board, task_of(fill)).net == 0 {
        return Ok(());
    }
    add_firsts(nodes, board, rank, parts_of(fill))
}

// One node for each piece that begins a part: it is the first of its own.
fn add_firsts(nodes: &mut Vec<Node>, board: &Board, rank: u32, parts: &[u32]) -> Result<(), Memory>
    ensures { OnOk result (map (node_of board.now.board) nodes.new.items ≡ map (node_of board.now.board) nodes.old.items
        ++ map (part (task_at board.now.board rank)) (firsts_from 0 parts.now)) }
{
    'each: for k in 0..parts.len() {
        let first = parts[k];
        add_if(nodes, Node::Part { fill: rank, first }, first as usize == k)?;
    }
    Ok(())
}
