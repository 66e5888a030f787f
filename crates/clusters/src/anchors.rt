// Where ratsnest lines of a net may end.
ghost use Rattle.std.specs.Prelude.{◌≡◌, ◌⊎◌, ◌++◌, ◌∷◌, [], length, map, flat_map, slice_get, IfOk, IfSome, OnOk};
ghost use Rattle.std.specs.List.{All};
ghost use Rattle.std.specs.Arc.{arc_value};
ghost use Rattle.octagon.specs.Room.{IsAround};
ghost use Rattle.plane.specs.Corners.{corners_of};
ghost use Rattle.grid_num.specs.declared.Point.{Point};
ghost use Rattle.cores.specs.Room.{IsInRoom};
ghost use Rattle.board_language.specs.declared.board.Pad.{Pad};
ghost use Rattle.board_language.specs.declared.board.Track.{Track};
ghost use Rattle.board_language.specs.declared.board.Via.{Via};
ghost use Rattle.fill_rules.specs.Tasks.{task_at};
ghost use Rattle.fill_rules.specs.Clusters.{option_list, part_pieces, labelled, least_of, in_nm, node_ends, net_anchors};
ghost use Rattle.fills.specs.Fills.{AreBoardFills};
ghost use Rattle.clusters.specs.Labelling.{node_of, IsLabelling};
ghost use Rattle.clusters.specs.Inner.Corners.{IsNotBehind, IsLesserOf, IsLeastPoint, IsLeastCorner};

use crate::filed::{fill_at, parts_of, pieces_of};
use crate::{Labelling, Node};
use board_model::Board;
use fills::Fill;
use grid_num::{Memory, Point};
use octagon::Oct;
use ratsnest::Anchor;
use std::alloc::Global;
use std::sync::Arc;

/// The anchors of the net, in the order of its nodes.
pub fn anchors_of(
    alloc: Global,
    board: &Board,
    fills: &[Arc<Fill>],
    labelling: &Labelling,
    net: u32,
) -> Result<Vec<Anchor>, Memory>
    requires fills { AreBoardFills board.now.board (map arc_value fills.now) }
    requires labelling { IsLabelling board.now.board (map arc_value fills.now) labelling.now }
    ensures { IfOk result (λ v. v.items ≡ net_anchors board.now.board (map arc_value fills.now) labelling.now.label.items net) }
{
    let mut anchors = Vec::new(alloc);
    'each: for k in 0..labelling.nodes.len() {
        if labelling.nets[k] == net {
            let ends = ends_of(alloc, board, fills, labelling.nodes[k])?;
            add_ends(&mut anchors, &ends, labelling.label[k])?;
        }
    }
    Ok(anchors)
}

// Adds an anchor at each of the places.
fn add_ends(anchors: &mut Vec<Anchor>, ends: &[Point], cluster: u32) -> Result<(), Memory>
    ensures { OnOk result (anchors.new.items ≡ anchors.old.items ++ map (λ p. record { at = p; cluster = cluster }) ends.now) }
{
    'each: for end in ends {
        anchors.push(Anchor { at: *end, cluster })?;
    }
    Ok(())
}

// Where ratsnest lines may end at a node.
#[tactic(auto, unfolding(fill_rules::specs::Clusters::node_ends))]
fn ends_of(
    alloc: Global,
    board: &Board,
    fills: &[Arc<Fill>],
    node: Node,
) -> Result<Vec<Point>, Memory>
    requires { AreBoardFills board.now.board (map arc_value fills.now) }
    ensures { IfOk result (λ v. v.items ≡ node_ends board.now.board (map arc_value fills.now) (node_of board.now.board node)) }
{
    match node {
        Node::Pad(k) => pad_end(alloc, board, k),
        Node::Track(k) => track_ends(alloc, board, k),
        Node::Via(k) => via_end(alloc, board, k),
        Node::Part { fill, first } => part_end(alloc, board, fills, fill, first),
    }
}

fn alone(alloc: Global, end: Point) -> Result<Vec<Point>, Memory>
    ensures { IfOk result (λ v. v.items ≡ end ∷ []) }
{
    let mut ends = Vec::new(alloc);
    ends.push(end)?;
    Ok(ends)
}

fn two(alloc: Global, start: Point, end: Point) -> Result<Vec<Point>, Memory>
    ensures { IfOk result (λ v. v.items ≡ start ∷ end ∷ []) }
{
    let mut ends = Vec::new(alloc);
    ends.push(start)?;
    ends.push(end)?;
    Ok(ends)
}

fn pad_end(alloc: Global, board: &Board, k: u32) -> Result<Vec<Point>, Memory>
    ensures { IfOk result (λ v. v.items ≡ option_list (λ (p : Pad). p.at ∷ []) (slice_get board.now.board.pads k)) }
{
    match board.pads().get(k as usize) {
        Some(pad) => alone(alloc, pad.at),
        None => Ok(Vec::new(alloc)),
    }
}

fn track_ends(alloc: Global, board: &Board, k: u32) -> Result<Vec<Point>, Memory>
    ensures { IfOk result (λ v. v.items ≡ option_list (λ (t : Track). t.from ∷ t.to ∷ []) (slice_get board.now.board.tracks k)) }
{
    match board.tracks().get(k as usize) {
        Some(track) => two(alloc, track.from, track.to),
        None => Ok(Vec::new(alloc)),
    }
}

fn via_end(alloc: Global, board: &Board, k: u32) -> Result<Vec<Point>, Memory>
    ensures { IfOk result (λ v. v.items ≡ option_list (λ (v : Via). v.at ∷ []) (slice_get board.now.board.vias k)) }
{
    match board.vias().get(k as usize) {
        Some(via) => alone(alloc, via.at),
        None => Ok(Vec::new(alloc)),
    }
}

// The least corner of the part, in nanometres; nothing past the last fill, of which no part is.
fn part_end(
    alloc: Global,
    board: &Board,
    fills: &[Arc<Fill>],
    fill: u32,
    first: u32,
) -> Result<Vec<Point>, Memory>
    requires { AreBoardFills board.now.board (map arc_value fills.now) }
    ensures { IfOk result (λ v. v.items ≡ least_of (flat_map corners_of
        (part_pieces board.now.board (map arc_value fills.now) (task_at board.now.board fill) first))) }
{
    board.sound();
    if fill as usize >= fills.len() {
        return Ok(Vec::new(alloc));
    }
    let fill = fill_at(fills, fill as usize);
    let corner = least_corner(pieces_of(fill), parts_of(fill), first);
    let ends = end_at(alloc, corner)?;
    Ok(ends)
}

// The corner in nanometres, where there is one.
fn end_at(alloc: Global, corner: Option<Point>) -> Result<Vec<Point>, Memory>
    requires { IfSome corner (IsInRoom 250000000) }
    ensures { IfOk result (λ v. v.items ≡ option_list (λ (p : Point). in_nm p ∷ []) corner) }
{
    match corner {
        Some(corner) => alone(alloc, in_nm(corner)),
        None => Ok(Vec::new(alloc)),
    }
}

// Units as nanometres.
fn in_nm(p: Point) -> Point
    requires { IsInRoom 250000000 p }
    ensures { result ≡ in_nm p }
{
    Point {
        x: 2 * p.x,
        y: 2 * p.y,
    }
}

// The least corner of the pieces with this label.
fn least_corner(pieces: &[Oct], parts: &[u32], first: u32) -> Option<Point>
    requires count { length parts.now ≡ length pieces.now }
    requires near { All (IsAround 250000000) pieces.now }
    ensures { IsLeastCorner (labelled first pieces.now parts.now) result }
{
    let mut least = None;
    'each: for k in 0..pieces.len() {
        if parts[k] == first {
            least = Some(lesser(least, top_corner(&pieces[k])));
        }
    }
    least
}

// The lesser of the two, by y and then by x; the second where there is no first.
fn lesser(a: Option<Point>, b: Point) -> Point
    ensures { IsLesserOf a b result }
{
    match a {
        Some(p) => lesser_of(p, b),
        None => b,
    }
}

fn lesser_of(p: Point, q: Point) -> Point
    ensures first { IsNotBehind result p }
    ensures second { IsNotBehind result q }
    ensures one { (result ≡ p) ⊎ (result ≡ q) }
{
    if p.y < q.y {
        return p;
    }
    if q.y < p.y {
        return q;
    }
    if p.x < q.x {
        return p;
    }
    q
}

// The left end of the top edge.
fn top_corner(oct: &Oct) -> Point
    requires { IsAround 250000000 oct.now }
    ensures { IsLeastPoint result (corners_of oct.now) }
{
    let top = oct.y0();
    at(oct.s0() - top, top)
}

fn at(x: i64, y: i64) -> Point
    ensures { result ≡ record { x = x; y = y } }
{
    Point { x, y }
}
