// How nodes are kept, while a text is read and after it.
ghost use Rattle.std.specs.Prelude.{◌≡◌, ◌<◌, ◌≤◌, ◌^◌, [], ◌∷◌, ◌++◌, length, take, drop, IfOk};

use crate::{NodeKind, Tree};
use grid_num::Memory;
use std::alloc::Global;
use std::marker::Model;

/// A node: what it is, where it stands, and its range of the common list of child numbers. It takes 20 bytes.
#[derive(Clone, Copy)]
pub struct Node {
    pub kind: NodeKind,
    pub from: u32,
    pub to: u32,
    pub first_child: u32,
    pub children_end: u32,
}

/// The nodes so far, and the numbers of those that stand in a list which is still open.
#[derive(Drop)]
pub struct Store {
    nodes: Vec<Node>,
    children: Vec<u32>,
    waiting: Vec<u32>,
}

impl Model for Store {
    ghost use Rattle.std.specs.Prelude.{◌<◌, length, All};
    ghost use Rattle.sexpr_text.specs.Inner.Built.{Built};

    ghost Value = { Built };

    ghost use Rattle.sexpr_text.specs.Inner.Storage.{all_shown, IsStored};

    ghost view = { λ s. record { nodes = all_shown s.children.items s.nodes.items; waiting = s.waiting.items } };

    ghost invariant = { λ s. IsStored s.nodes.items s.children.items s.waiting.items };
}

impl Store {
    pub fn new(alloc: Global) -> Store
        ensures nodes { result.nodes ≡ [] }
        ensures waiting { result.waiting ≡ [] }
    {
        Store {
            nodes: Vec::new(alloc),
            children: Vec::new(alloc),
            waiting: Vec::new(alloc),
        }
    }

    /// How many nodes stand in lists that are open.
    pub fn waiting(&self) -> usize
        ensures { result ≡ length self.now.waiting }
    {
        self.waiting.len()
    }

    /// Puts a word or a string behind the other nodes.
    pub fn leaf(&mut self, kind: NodeKind, from: usize, to: usize) -> Result<(), Memory>
        requires from { from < 2 ^ 32 }
        requires to { to < 2 ^ 32 }
        ensures nodes { IfOk result (λ _. self.new.nodes ≡ self.old.nodes ++ record { kind = kind; from = from; to = to; children = [] } ∷ []) }
        ensures waiting { IfOk result (λ _. self.new.waiting ≡ self.old.waiting ++ length self.old.nodes ∷ []) }
    {
        let Ok(id) = u32::try_from(self.nodes.len()) else {
            return Err(Memory);
        };
        self.nodes.push(Node {
            kind,
            from: from as u32,
            to: to as u32,
            first_child: 0,
            children_end: 0,
        })?;
        self.waiting.push(id)?;
        Ok(())
    }

    /// Puts a list behind the other nodes. Its children are the nodes that wait from `mark` on.
    pub fn list(&mut self, from: usize, to: usize, mark: usize) -> Result<(), Memory>
        requires from { from < 2 ^ 32 }
        requires to { to < 2 ^ 32 }
        requires mark { mark ≤ length self.old.waiting }
        ensures nodes { IfOk result (λ _. self.new.nodes ≡ self.old.nodes ++ record { kind = NodeKind.List; from = from; to = to; children = drop mark self.old.waiting } ∷ []) }
        ensures waiting { IfOk result (λ _. self.new.waiting ≡ take mark self.old.waiting ++ length self.old.nodes ∷ []) }
    {
        let Ok(id) = u32::try_from(self.nodes.len()) else {
            return Err(Memory);
        };
        let Ok(first_child) = u32::try_from(self.children.len()) else {
            return Err(Memory);
        };
        self.children.extend_from_slice(&self.waiting[mark..])?;
        let Ok(children_end) = u32::try_from(self.children.len()) else {
            return Err(Memory);
        };
        self.nodes.push(Node {
            kind: NodeKind::List,
            from: from as u32,
            to: to as u32,
            first_child,
            children_end,
        })?;
        self.waiting.truncate(mark);
        self.waiting.push(id)?;
        Ok(())
    }

    /// The tree of these nodes, the last of which is its root.
    pub fn into_tree(self) -> Tree
        requires { 0 < length self.nodes }
        ensures { result ≡ self.nodes }
    {
        Tree {
            nodes: self.nodes,
            children: self.children,
        }
    }
}
