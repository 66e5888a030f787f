// The tree of a text, and its readers.
ghost use Rattle.std.specs.Prelude.{List, ◌≤◌, ◌≡◌, ℕ, ◌<◌, ◌+◌, length, slice_get, slice_index, slice_range, EachIndex, IfSome, IfOk, find};
ghost use Rattle.sexpr_text.specs.Items.{Item, IsLeafKind, children_of, content_at, content_of, head_of, is_headed};
ghost use Rattle.sexpr_text.specs.Flat.{IsNode, AreNodes, IsNodeOrNone};
ghost use Rattle.sexpr_text.specs.Trees.{IsTreeAt, IsTreeOf};
ghost use Rattle.sexpr_text.specs.declared.Span.{Span};

use crate::content::unescape;
use crate::store::Node;
use crate::{NodeId, NodeKind, Span};
use grid_num::Memory;
use std::alloc::Global;
use std::marker::Model;

/// The tree of a text: a flat list of nodes, each list behind its items.
#[derive(Drop)]
pub struct Tree {
    pub(crate) nodes: Vec<Node>,
    pub(crate) children: Vec<u32>,
}

impl Model for Tree {
    ghost use Rattle.std.specs.Prelude.{◌<◌, List, [], length};
    ghost use Rattle.sexpr_text.specs.Flat.{Shown};

    ghost Value = { List Shown };

    ghost use Rattle.sexpr_text.specs.Inner.Storage.{all_shown, IsStored};

    ghost view = { λ t. all_shown t.children.items t.nodes.items };

    ghost invariant = { λ t. (0 < length t.nodes.items) × IsStored t.nodes.items t.children.items [] };
}

impl Tree {
    /// The root, a list.
    pub fn root(&self) -> NodeId
        ensures last { result + 1 ≡ length self.now }
        ensures below { result < length self.now }
        ensures item { (bytes : List ℕ) (root : Item) → IsTreeAt bytes self.now root → IsNode self.now result root }
    {
        (self.nodes.len() - 1) as u32
    }

    /// What a node is.
    pub fn kind(&self, id: NodeId) -> NodeKind
        requires { id < length self.now }
        ensures node { IfSome (slice_get self.now id) (λ n. result ≡ n.kind) }
        ensures item { (item : Item) → IsNode self.now id item → result ≡ item.kind }
    {
        self.nodes[id as usize].kind
    }

    /// Where a node stands in its text.
    pub fn span(&self, id: NodeId) -> Span
        requires { id < length self.now }
        ensures node { IfSome (slice_get self.now id) (λ n. (result.from ≡ n.from) × (result.to ≡ n.to)) }
        ensures item { (item : Item) → IsNode self.now id item → (result.from ≡ item.from) × (result.to ≡ item.to) }
    {
        let node = self.nodes[id as usize];
        Span {
            from: node.from as usize,
            to: node.to as usize,
        }
    }

    /// The items of a list, in order. A leaf has none.
    pub fn children(&self, id: NodeId) -> &[NodeId]
        requires { id < length self.now }
        ensures node { IfSome (slice_get self.now id) (λ n. result.now ≡ n.children) }
        ensures item { (item : Item) → IsNode self.now id item → AreNodes self.now result.now (children_of item) }
        ensures below { EachIndex result.now (λ k. slice_index result.now k < length self.now) }
    {
        let node = self.nodes[id as usize];
        &self.children[node.first_child as usize..node.children_end as usize]
    }

    /// The bytes of a node, as they stand in its text.
    pub fn bytes_of<'a>(&self, bytes: &'a [u8], id: NodeId) -> &'a [u8]
        requires below { id < length self.now }
        requires same { IsTreeOf bytes.now self.now }
        ensures node { IfSome (slice_get self.now id) (λ n. result.now ≡ slice_range bytes.now n.from n.to) }
        ensures item { (item : Item) → IsNode self.now id item → result.now ≡ slice_range bytes.now item.from item.to }
    {
        let span = self.span(id);
        &bytes[span.from..span.to]
    }

    /// The head of a list: where its first child stands, if that is a word.
    pub fn head(&self, bytes: &[u8], id: NodeId) -> Option<Span>
        requires below { id < length self.now }
        requires same { IsTreeOf bytes.now self.now }
        ensures item { (item : Item) → IsNode self.now id item → result ≡ head_of item }
        ensures within { IfSome result (λ s. (s.from < s.to) × (s.to ≤ length bytes.now)) }
    {
        let children = self.children(id);
        let Some(first) = children.first() else {
            return None;
        };
        match self.kind(*first) {
            NodeKind::Word => Some(self.span(*first)),
            NodeKind::List | NodeKind::Text => None,
        }
    }

    /// Whether a node is a list with this head.
    fn is_headed(&self, bytes: &[u8], id: NodeId, name: &[u8]) -> bool
        requires below { id < length self.now }
        requires same { IsTreeOf bytes.now self.now }
        ensures { (item : Item) → IsNode self.now id item → result ≡ is_headed bytes.now name.now item }
    {
        match self.head(bytes, id) {
            Some(head) => &bytes[head.from..head.to] == name,
            None => false,
        }
    }

    /// The first child that is a list with this head.
    pub fn find(&self, bytes: &[u8], id: NodeId, name: &[u8]) -> Option<NodeId>
        requires below { id < length self.now }
        requires same { IsTreeOf bytes.now self.now }
        ensures item { (item : Item) → IsNode self.now id item → IsNodeOrNone self.now result (find (is_headed bytes.now name.now) (children_of item)) }
        ensures below { IfSome result (λ found. found < length self.now) }
    {
        let children = self.children(id);
        'each: for child in children {
            if self.is_headed(bytes, *child, name) {
                return Some(*child);
            }
        }
        None
    }

    /// A leaf's bytes without quotes and escapes.
    pub fn content(&self, alloc: Global, bytes: &[u8], id: NodeId) -> Result<Vec<u8>, Memory>
        requires below { id < length self.now }
        requires same { IsTreeOf bytes.now self.now }
        requires leaf { IfSome (slice_get self.now id) (λ n. IsLeafKind n.kind) }
        ensures node { IfOk result (λ v. IfSome (slice_get self.now id) (λ n. v.items ≡ content_at n.kind bytes.now n.from n.to)) }
        ensures item { IfOk result (λ v. (item : Item) → IsNode self.now id item → v.items ≡ content_of bytes.now item) }
    {
        let span = self.span(id);
        match self.kind(id) {
            NodeKind::Text => unescape(alloc, &bytes[span.from + 1..span.to - 1]),
            NodeKind::Word => Ok(Vec::from_slice(alloc, &bytes[span.from..span.to])?),
            NodeKind::List => unreachable!(),
        }
    }
}
