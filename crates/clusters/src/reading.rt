// What is read of a node: its net, its layers and its copper.
ghost use Rattle.std.specs.Prelude.{◌≡◌, ◌<◌, ◌^◌, ◌∷◌, [], length, map, slice_get, IfOk};
ghost use Rattle.std.specs.List.{All};
ghost use Rattle.std.specs.Arc.{arc_value};
ghost use Rattle.octagon.specs.Room.{IsAround};
ghost use Rattle.islands.specs.Held.{IsAnchorInRoom};
ghost use Rattle.board_language.specs.declared.board.Pad.{Pad};
ghost use Rattle.board_language.specs.declared.board.Track.{Track};
ghost use Rattle.board_language.specs.declared.board.Via.{Via};
ghost use Rattle.fill_rules.specs.Tasks.{task_at};
ghost use Rattle.fill_rules.specs.Nodes as rules;
ghost use Rattle.fill_rules.specs.Needs.{track_copper, via_copper};
ghost use Rattle.fill_rules.specs.Clusters.{option_list, node_net, node_layers, labelled, octagon_copper};
ghost use Rattle.fills.specs.Fills.{AreBoardFills};
ghost use Rattle.clusters.specs.Labelling.{node_of};
ghost use Rattle.clusters.specs.declared.fill_stacks.FillStacks.{FillStacks};
ghost use Rattle.clusters.specs.Inner.Stacks.{AreNearStacks};
ghost use Rattle.clusters.specs.Inner.Copper.{node_shapes};

use crate::Node;
use crate::copper::{track_copper, via_copper};
use crate::filed::{fill_at, task_of};
use crate::fill_stacks::FillStacks;
use board_model::Board;
use copper_shape::Shape;
use fills::Fill;
use grid_num::Memory;
use knockouts::zone_of;
use octagon::Oct;
use std::alloc::Global;
use std::sync::Arc;

/// The net of each node.
pub fn nets_of(
    alloc: Global,
    board: &Board,
    fills: &[Arc<Fill>],
    nodes: &[Node],
) -> Result<Vec<u32>, Memory>
    requires { AreBoardFills board.now.board (map arc_value fills.now) }
    ensures { IfOk result (λ v. v.items ≡ map (node_net board.now.board) (map (node_of board.now.board) nodes.now)) }
{
    let mut nets = Vec::new(alloc);
    'each: for k in 0..nodes.len() {
        nets.push(net_of(board, fills, nodes[k]))?;
    }
    Ok(nets)
}

fn net_of(board: &Board, fills: &[Arc<Fill>], node: Node) -> u32
    requires { AreBoardFills board.now.board (map arc_value fills.now) }
    ensures { result ≡ node_net board.now.board (node_of board.now.board node) }
{
    match node {
        Node::Pad(k) => pad_net(board, k),
        Node::Track(k) => track_net(board, k),
        Node::Via(k) => via_net(board, k),
        Node::Part { fill, first } => part_net(board, fills, fill, first),
    }
}

#[tactic(auto, unfolding(fill_rules::specs::Clusters::node_net))]
fn pad_net(board: &Board, k: u32) -> u32
    ensures { result ≡ node_net board.now.board (rules.pad k) }
{
    match board.pads().get(k as usize) {
        Some(pad) => pad.net,
        None => 0,
    }
}

#[tactic(auto, unfolding(fill_rules::specs::Clusters::node_net))]
fn track_net(board: &Board, k: u32) -> u32
    ensures { result ≡ node_net board.now.board (rules.track k) }
{
    match board.tracks().get(k as usize) {
        Some(track) => track.net,
        None => 0,
    }
}

#[tactic(auto, unfolding(fill_rules::specs::Clusters::node_net))]
fn via_net(board: &Board, k: u32) -> u32
    ensures { result ≡ node_net board.now.board (rules.via k) }
{
    match board.vias().get(k as usize) {
        Some(via) => via.net,
        None => 0,
    }
}

// The net of the fill's zone.
fn part_net(board: &Board, fills: &[Arc<Fill>], fill: u32, first: u32) -> u32
    requires { AreBoardFills board.now.board (map arc_value fills.now) }
    ensures { result ≡ node_net board.now.board (rules.part (task_at board.now.board fill) first) }
{
    if fill as usize >= fills.len() {
        return 0;
    }
    zone_of(board, task_of(fill_at(fills, fill as usize))).net
}

/// The set of layers that the node has copper on; the lowest bit is the first layer.
pub fn layers_of(board: &Board, fills: &[Arc<Fill>], node: Node) -> u32
    requires { AreBoardFills board.now.board (map arc_value fills.now) }
    ensures { result ≡ node_layers board.now.board (node_of board.now.board node) }
{
    match node {
        Node::Pad(k) => pad_layers(board, k),
        Node::Track(k) => track_layers(board, k),
        Node::Via(k) => via_layers(board, k),
        Node::Part { fill, first } => part_layers(board, fills, fill, first),
    }
}

#[tactic(auto, unfolding(fill_rules::specs::Clusters::node_layers))]
fn pad_layers(board: &Board, k: u32) -> u32
    ensures { result ≡ node_layers board.now.board (rules.pad k) }
{
    match board.pads().get(k as usize) {
        Some(pad) => pad.layers,
        None => 0,
    }
}

#[tactic(auto, unfolding(fill_rules::specs::Clusters::node_layers))]
fn via_layers(board: &Board, k: u32) -> u32
    ensures { result ≡ node_layers board.now.board (rules.via k) }
{
    match board.vias().get(k as usize) {
        Some(via) => via.layers,
        None => 0,
    }
}

// The track's layer alone.
fn track_layers(board: &Board, k: u32) -> u32
    ensures { result ≡ node_layers board.now.board (rules.track k) }
{
    board.sound();
    let tracks = board.tracks();
    if k as usize >= tracks.len() {
        return 0;
    }
    only(tracks[k as usize].layer)
}

// The layer of the fill alone; past the last fill, which no node is of, the first layer.
fn part_layers(board: &Board, fills: &[Arc<Fill>], fill: u32, first: u32) -> u32
    requires { AreBoardFills board.now.board (map arc_value fills.now) }
    ensures { result ≡ node_layers board.now.board (rules.part (task_at board.now.board fill) first) }
{
    board.sound();
    if fill as usize >= fills.len() {
        return 1;
    }
    only(task_of(fill_at(fills, fill as usize)).layer)
}

// The set of one layer.
fn only(layer: u8) -> u32
    requires { layer < 32 }
    ensures { result ≡ 2 ^ layer }
{
    1 << layer
}

/// The shapes of the node's copper: of a part one for each of its stacks.
pub fn shapes_of(
    alloc: Global,
    board: &Board,
    stacks: &[FillStacks],
    node: Node,
) -> Result<Vec<Shape>, Memory>
    requires { All AreNearStacks stacks.now }
    ensures shapes { IfOk result (λ v. v.items ≡ node_shapes board.now.board stacks.now node) }
    ensures room { IfOk result (λ v. All IsAnchorInRoom v.items) }
{
    board.sound();
    let shapes = copper_of(alloc, board, stacks, node)?;
    Ok(shapes)
}

#[tactic(auto, unfolding(crate::specs::Inner::Copper::node_shapes))]
fn copper_of(
    alloc: Global,
    board: &Board,
    stacks: &[FillStacks],
    node: Node,
) -> Result<Vec<Shape>, Memory>
    requires { All AreNearStacks stacks.now }
    ensures { IfOk result (λ v. v.items ≡ node_shapes board.now.board stacks.now node) }
{
    match node {
        Node::Pad(k) => pad_shape(alloc, board, k),
        Node::Track(k) => track_shape(alloc, board, k),
        Node::Via(k) => via_shape(alloc, board, k),
        Node::Part { fill, first } => part_shapes(alloc, stacks, fill, first),
    }
}

fn alone(alloc: Global, copper: Shape) -> Result<Vec<Shape>, Memory>
    ensures { IfOk result (λ v. v.items ≡ copper ∷ []) }
{
    let mut shapes = Vec::new(alloc);
    shapes.push(copper)?;
    Ok(shapes)
}

fn pad_shape(alloc: Global, board: &Board, k: u32) -> Result<Vec<Shape>, Memory>
    ensures { IfOk result (λ v. v.items ≡ option_list (λ (p : Pad). p.shape ∷ []) (slice_get board.now.board.pads k)) }
{
    match board.pads().get(k as usize) {
        Some(pad) => alone(alloc, pad.shape),
        None => Ok(Vec::new(alloc)),
    }
}

fn track_shape(alloc: Global, board: &Board, k: u32) -> Result<Vec<Shape>, Memory>
    ensures { IfOk result (λ v. v.items ≡ option_list (λ (t : Track). track_copper t ∷ []) (slice_get board.now.board.tracks k)) }
{
    board.sound();
    let tracks = board.tracks();
    if k as usize >= tracks.len() {
        return Ok(Vec::new(alloc));
    }
    alone(alloc, track_copper(&tracks[k as usize]))
}

fn via_shape(alloc: Global, board: &Board, k: u32) -> Result<Vec<Shape>, Memory>
    ensures { IfOk result (λ v. v.items ≡ option_list (λ (v : Via). via_copper v ∷ []) (slice_get board.now.board.vias k)) }
{
    board.sound();
    let vias = board.vias();
    if k as usize >= vias.len() {
        return Ok(Vec::new(alloc));
    }
    alone(alloc, via_copper(&vias[k as usize]))
}

// The stacks of the part; none past the last fill, of which no part is.
fn part_shapes(
    alloc: Global,
    stacks: &[FillStacks],
    fill: u32,
    first: u32,
) -> Result<Vec<Shape>, Memory>
    requires { All AreNearStacks stacks.now }
    ensures { IfOk result (λ v. v.items ≡ option_list
        (λ (s : FillStacks). map octagon_copper (labelled first s.stacks.items s.parts.items)) (slice_get stacks.now fill)) }
{
    if fill as usize >= stacks.len() {
        return Ok(Vec::new(alloc));
    }
    shapes_of_stacks(alloc, &stacks[fill as usize], first)
}

fn shapes_of_stacks(alloc: Global, all: &FillStacks, first: u32) -> Result<Vec<Shape>, Memory>
    requires { AreNearStacks all.now }
    ensures { IfOk result (λ v. v.items
        ≡ map octagon_copper (labelled first all.now.stacks.items all.now.parts.items)) }
{
    octagon_shapes(alloc, &all.stacks, &all.parts, first)
}

// The octagons with this label, as copper.
fn octagon_shapes(
    alloc: Global,
    octs: &[Oct],
    labels: &[u32],
    first: u32,
) -> Result<Vec<Shape>, Memory>
    requires count { length labels.now ≡ length octs.now }
    requires near { All (IsAround 250000000) octs.now }
    ensures { IfOk result (λ v. v.items ≡ map octagon_copper (labelled first octs.now labels.now)) }
{
    let mut shapes = Vec::new(alloc);
    'each: for k in 0..octs.len() {
        if labels[k] == first {
            shapes.push(Shape::of_oct(&octs[k]))?;
        }
    }
    Ok(shapes)
}
