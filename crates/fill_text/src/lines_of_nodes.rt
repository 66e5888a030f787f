// What is said of the nodes, in their order.
ghost use Rattle.std.specs.Prelude.{◌≡◌, map, slice_get, IfOk, OnOk};
ghost use Rattle.std.specs.Arc.{arc_value};
ghost use Rattle.board_language.specs.declared.board.Pad.{Pad};
ghost use Rattle.board_language.specs.declared.board.Track.{Track};
ghost use Rattle.board_language.specs.declared.board.Via.{Via};
ghost use Rattle.fill_rules.specs.Tasks.{task_at};
ghost use Rattle.fill_rules.specs.Nodes as rules;
ghost use Rattle.fill_rules.specs.Nodes.{nodes_of};
ghost use Rattle.fill_rules.specs.Clusters.{option_or_zero};
ghost use Rattle.fills.specs.Fills.{task_of, AreBoardFills};
ghost use Rattle.clusters.specs.Labelling.{node_of, IsLabelling};
ghost use Rattle.output_rules.specs.Reported.{node_line, copper_of};
ghost use Rattle.output_rules.specs.declared.report.Copper.TheVariants as said;
ghost use Rattle.fill_text.specs.Inner.Numbers.{IsNumbered};

use crate::lines_of_tasks::name_of;
use crate::numbered::{Numbered, one_more_if};
use board_model::Board;
use clusters::{Labelling, Node, fill_at, task_of};
use fills::{Fill, Task};
use grid_num::Memory;
use output_rules::{Copper, NodeLine};
use std::alloc::Global;
use std::sync::Arc;

/// The lines of all nodes.
pub fn node_lines(
    alloc: Global,
    board: &Board,
    fills: &[Arc<Fill>],
    labelling: &Labelling,
) -> Result<Vec<NodeLine>, Memory>
    requires fills { AreBoardFills board.now.board (map arc_value fills.now) }
    requires labelling { IsLabelling board.now.board (map arc_value fills.now) labelling.now }
    ensures { IfOk result (λ v. v.items ≡ map (node_line board.now.board (map arc_value fills.now)) (nodes_of board.now.board (map arc_value fills.now))) }
{
    let mut numbered = Numbered::of(alloc, fills, 0)?;
    let mut lines = Vec::new(alloc);
    'each: for k in 0..labelling.nodes.len() {
        let copper = copper_of(alloc, board, fills, &mut numbered, labelling.nodes[k])?;
        let net = labelling.nets[k];
        lines.push(NodeLine { copper, net })?;
    }
    Ok(lines)
}

// What is said of a node's copper.
fn copper_of(
    alloc: Global,
    board: &Board,
    fills: &[Arc<Fill>],
    numbered: &mut Numbered,
    node: Node,
) -> Result<Copper, Memory>
    requires fills { AreBoardFills board.now.board (map arc_value fills.now) }
    requires numbered { IsNumbered (map arc_value fills.now) numbered.old.fill numbered.old.numbers.items }
    ensures copper { IfOk result (λ c. c ≡ copper_of board.now.board (map arc_value fills.now) (node_of board.now.board node)) }
    ensures kept { OnOk result (IsNumbered (map arc_value fills.now) numbered.new.fill numbered.new.numbers.items) }
{
    match node {
        Node::Pad(k) => Ok(pad_copper(board, k)),
        Node::Track(k) => Ok(track_copper(board, k)),
        Node::Via(k) => Ok(via_copper(board, k)),
        Node::Part { fill, first } => part_copper(alloc, board, fills, numbered, fill, first),
    }
}

fn pad_copper(board: &Board, k: u32) -> Copper
    ensures { result ≡ said.Pad (option_or_zero (λ (p : Pad). p.line) (slice_get board.now.board.pads k)) }
{
    match board.pads().get(k as usize) {
        Some(pad) => Copper::Pad { line: pad.line },
        None => Copper::Pad { line: 0 },
    }
}

fn track_copper(board: &Board, k: u32) -> Copper
    ensures { result ≡ said.Track (option_or_zero (λ (t : Track). t.line) (slice_get board.now.board.tracks k)) }
{
    match board.tracks().get(k as usize) {
        Some(track) => Copper::Track { line: track.line },
        None => Copper::Track { line: 0 },
    }
}

fn via_copper(board: &Board, k: u32) -> Copper
    ensures { result ≡ said.Via (option_or_zero (λ (v : Via). v.line) (slice_get board.now.board.vias k)) }
{
    match board.vias().get(k as usize) {
        Some(via) => Copper::Via { line: via.line },
        None => Copper::Via { line: 0 },
    }
}

// A part, by its zone, its layer and its number within the fill.
fn part_copper(
    alloc: Global,
    board: &Board,
    fills: &[Arc<Fill>],
    numbered: &mut Numbered,
    fill: u32,
    first: u32,
) -> Result<Copper, Memory>
    requires fills { AreBoardFills board.now.board (map arc_value fills.now) }
    requires numbered { IsNumbered (map arc_value fills.now) numbered.old.fill numbered.old.numbers.items }
    ensures copper { IfOk result (λ c. c ≡ copper_of board.now.board (map arc_value fills.now) (rules.part (task_at board.now.board fill) first)) }
    ensures kept { OnOk result (IsNumbered (map arc_value fills.now) numbered.new.fill numbered.new.numbers.items) }
{
    let task = task_at(board, fills, fill);
    let zone = one_more_if(task.zone, true)?;
    let layer = name_of(alloc, board, task.layer)?;
    let part = numbered.number(alloc, fills, fill, first)?;
    Ok(Copper::Part { zone, layer, part })
}

// The task of this rank; past the last rank that of no zone.
fn task_at(board: &Board, fills: &[Arc<Fill>], rank: u32) -> Task
    requires { AreBoardFills board.now.board (map arc_value fills.now) }
    ensures { task_of result ≡ task_at board.now.board rank }
{
    board.sound();
    if rank as usize >= fills.len() {
        return Task {
            zone: board.zones().len() as u32,
            layer: 0,
        };
    }
    task_of(fill_at(fills, rank as usize))
}
