// The patches of all nodes: one for each hull of each shape of their copper, where the stacks of a part are its shapes.
ghost use Rattle.std.specs.Prelude.{◌≡◌, ℕ, ◌<◌, ◌^◌, length, map, flat_map, IfOk};
ghost use Rattle.std.specs.List.{All};
ghost use Rattle.std.specs.Arc.{arc_value};
ghost use Rattle.islands.specs.Held.{IsAnchorInRoom};
ghost use Rattle.fill_rules.specs.Nodes.{nodes_of};
ghost use Rattle.fill_rules.specs.Clusters.{node_net};
ghost use Rattle.fills.specs.Fills.{AreBoardFills};
ghost use Rattle.clusters.specs.Labelling.{node_of};
ghost use Rattle.clusters.specs.Inner.Patches.{IsPatch};
ghost use Rattle.clusters.specs.Inner.Copper.{patch_of, shape_patches, AreNodePatches};

use crate::Node;
use crate::fill_stacks::stacks_of;
use crate::patch::Patch;
use crate::reading::{layers_of, shapes_of};
use board_model::Board;
use copper_shape::Shape;
use fills::Fill;
use grid_num::Memory;
use octagon::Oct;
use std::alloc::Global;
use std::sync::Arc;

// The node that copper belongs to: its number, its net, and the set of its layers.
#[derive(Clone, Copy)]
struct Owner {
    node: u32,
    net: u32,
    layers: u32,
}

/// The patches of all nodes, node by node and shape by shape.
pub fn patches_of(
    alloc: Global,
    board: &Board,
    fills: &[Arc<Fill>],
    nodes: &[Node],
    nets: &[u32],
) -> Result<Vec<Patch>, Memory>
    requires fills { AreBoardFills board.now.board (map arc_value fills.now) }
    requires nodes { map (node_of board.now.board) nodes.now ≡ nodes_of board.now.board (map arc_value fills.now) }
    requires nets { nets.now ≡ map (node_net board.now.board) (map (node_of board.now.board) nodes.now) }
    requires count { length nodes.now < 2 ^ 32 }
    ensures patches { IfOk result (λ v. AreNodePatches board.now.board (map arc_value fills.now)
        (nodes_of board.now.board (map arc_value fills.now)) (length nodes.now) v.items) }
    ensures each { IfOk result (λ v. All (IsPatch (length nodes.now)) v.items) }
{
    hulls::copper_law();
    let stacks = stacks_of(alloc, board, fills)?;
    let mut patches = Vec::new(alloc);
    'each: for k in 0..nodes.len() {
        let shapes = shapes_of(alloc, board, &stacks, nodes[k])?;
        let owner = Owner {
            node: k as u32,
            net: nets[k],
            layers: layers_of(board, fills, nodes[k]),
        };
        let mut more = patches_of_node(alloc, owner, &shapes)?;
        patches.append(&mut more)?;
    }
    Ok(patches)
}

fn patches_of_node(alloc: Global, owner: Owner, shapes: &[Shape]) -> Result<Vec<Patch>, Memory>
    requires { All IsAnchorInRoom shapes.now }
    ensures patches { IfOk result (λ v. v.items ≡ flat_map (shape_patches owner) shapes.now) }
    ensures each { IfOk result (λ v. (n : ℕ) → owner.node < n → All (IsPatch n) v.items) }
{
    let mut patches = Vec::new(alloc);
    'each: for shape in shapes {
        let mut more = patches_of_shape(alloc, owner, shape)?;
        patches.append(&mut more)?;
    }
    Ok(patches)
}

fn patches_of_shape(alloc: Global, owner: Owner, shape: &Shape) -> Result<Vec<Patch>, Memory>
    requires { IsAnchorInRoom shape.now }
    ensures patches { IfOk result (λ v. v.items ≡ shape_patches owner shape.now) }
    ensures each { IfOk result (λ v. (n : ℕ) → owner.node < n → All (IsPatch n) v.items) }
{
    let hulls = shape.hulls(alloc)?;
    let mut patches = Vec::new(alloc);
    'each: for hull in &hulls {
        patches.push(patch_of(owner, shape, hull))?;
    }
    Ok(patches)
}

fn patch_of(owner: Owner, shape: &Shape, hull: &Oct) -> Patch
    requires { IsAnchorInRoom shape.now }
    ensures value { result ≡ patch_of owner shape.now hull.now }
    ensures each { (n : ℕ) → owner.node < n → IsPatch n result }
{
    Patch {
        node: owner.node,
        net: owner.net,
        layers: owner.layers,
        shape: *shape,
        hull: *hull,
    }
}
