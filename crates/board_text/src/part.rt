// An item of a text, and the lists in it.
ghost use Rattle.std.specs.Prelude.{◌≡◌, ◌<◌, ℕ, List, length, map, option_map, slice_index_or, slice_get, IfOk};
ghost use Rattle.sexpr_text.specs.Items.{Item, IsLeafKind, children_of, is_headed};
ghost use Rattle.sexpr_text.specs.Trees.{IsTreeOf, IsTreeAt};
ghost use Rattle.board_text.specs.Lists.{is_list, lists_of, behind_head};
ghost use Rattle.board_text.specs.Fields.{list_of, list_in, text_of, head_begins};
ghost use Rattle.board_text.specs.Items.{stamp_list};
ghost use Rattle.sexpr_text.specs.Parts.{part_of, item_at};

use grid_num::Memory;
use sexpr_text::{NodeId, NodeKind, Span, Tree};
use std::alloc::Global;
use std::marker::Model;

/// An item of a text: a list, a word or a string. Contracts see the item, and the bytes of the text.
#[derive(Drop)]
pub struct Part<'a> {
    tree: &'a Tree,
    bytes: &'a [u8],
    id: NodeId,
}

impl<'a> Model for Part<'a> {
    ghost use Rattle.sexpr_text.specs.Parts.{Part, IsPart, part_of, item_at};
    ghost use Rattle.board_text.specs.Codes.{part_code};

    ghost Value = { Part };

    ghost coded = { part_code };

    ghost view = { λ p. part_of p.bytes.now (item_at p.tree.now p.id) };

    ghost invariant = { λ p. IsPart p.bytes.now p.tree.now p.id };
}

impl<'a> Part<'a> {
    /// The root of a text: its one list.
    pub fn root(tree: &'a Tree, bytes: &'a [u8]) -> Part<'a>
        requires { IsTreeOf bytes.now tree.now }
        ensures bytes { result.bytes ≡ bytes.now }
        ensures root { (root : Item) → IsTreeAt bytes.now tree.now root → result.item ≡ root }
    {
        Part {
            tree,
            bytes,
            id: tree.root(),
        }
    }

    /// Whether it is a list, a word or a string.
    pub fn kind(&self) -> NodeKind
        ensures { result ≡ self.now.item.kind }
    {
        self.tree.kind(self.id)
    }

    /// The bytes of its text.
    pub fn bytes(&self) -> &'a [u8]
        ensures { result.now ≡ self.now.bytes }
    {
        self.bytes
    }

    /// Where it stands in its text.
    pub fn span(&self) -> Span
        ensures from { result.from ≡ self.now.item.from }
        ensures to { result.to ≡ self.now.item.to }
    {
        self.tree.span(self.id)
    }

    /// Whether it is a list.
    pub fn is_list(&self) -> bool
        ensures { result ≡ is_list self.now.item }
    {
        match self.kind() {
            NodeKind::List => true,
            NodeKind::Word | NodeKind::Text => false,
        }
    }

    /// How many items stand in it.
    pub fn len(&self) -> usize
        ensures { result ≡ length (children_of self.now.item) }
    {
        self.tree.children(self.id).len()
    }

    /// The item at a place in it, from 0.
    pub fn child(&self, place: usize) -> Part<'a>
        requires { place < length (children_of self.now.item) }
        ensures bytes { result.bytes ≡ self.now.bytes }
        ensures item { (d : Item) → result.item ≡ slice_index_or (children_of self.now.item) place d }
    {
        Part {
            tree: self.tree,
            bytes: self.bytes,
            id: self.tree.children(self.id)[place],
        }
    }

    /// The first child list with this head.
    pub fn list(&self, name: &[u8]) -> Option<Part<'a>>
        ensures { result ≡ option_map (part_of self.now.bytes) (list_of self.now.bytes name.now self.now.item) }
    {
        match self.tree.find(self.bytes, self.id, name) {
            Some(id) => Some(Part {
                tree: self.tree,
                bytes: self.bytes,
                id,
            }),
            None => None,
        }
    }

    /// The first child list that holds a stamp: a `tstamp` or a `uuid`, whichever stands first.
    pub fn stamp_list(&self) -> Option<Part<'a>>
        ensures { result ≡ option_map (part_of self.now.bytes) (stamp_list self.now.bytes self.now.item) }
    {
        'each: for place in 0..self.len() {
            let child = self.child(place);
            if child.is_headed(b"tstamp") || child.is_headed(b"uuid") {
                return Some(child);
            }
        }
        None
    }

    /// The first list with the second head in the first list with the first head.
    pub fn list_in(&self, outer: &[u8], name: &[u8]) -> Option<Part<'a>>
        ensures { result ≡ option_map (part_of self.now.bytes) (list_in self.now.bytes outer.now name.now self.now.item) }
    {
        match self.list(outer) {
            Some(list) => list.list(name),
            None => None,
        }
    }

    /// Whether it is a list with this head.
    pub fn is_headed(&self, name: &[u8]) -> bool
        ensures { result ≡ is_headed self.now.bytes name.now self.now.item }
    {
        match self.tree.head(self.bytes, self.id) {
            Some(head) => &self.bytes[head.from..head.to] == name,
            None => false,
        }
    }

    /// Whether the head of the list begins with this.
    pub fn begins(&self, front: &[u8]) -> bool
        ensures { result ≡ head_begins self.now.bytes front.now self.now.item }
    {
        match self.tree.head(self.bytes, self.id) {
            Some(head) => self.bytes[head.from..head.to].starts_with(front),
            None => b"".starts_with(front),
        }
    }

    /// The item at a place behind the head, from 0.
    pub fn behind(&self, place: usize) -> Option<Part<'a>>
        ensures { result ≡ option_map (part_of self.now.bytes) (slice_get (behind_head self.now.item) place) }
    {
        let len = self.len();
        if len > 0 && place < len - 1 {
            Some(self.child(place + 1))
        } else {
            None
        }
    }

    /// The content of a word or a string; a list has none.
    ///
    /// # Errors
    ///
    /// Want of memory.
    pub fn text(&self, alloc: Global) -> Result<Option<Vec<u8>>, Memory>
        ensures { IfOk result (λ t. option_map (λ v. v.items) t ≡ text_of self.now.bytes self.now.item) }
    {
        match self.tree.kind(self.id) {
            NodeKind::List => Ok(None),
            NodeKind::Word | NodeKind::Text => {
                let text = self.tree.content(alloc, self.bytes, self.id)?;
                Ok(Some(text))
            }
        }
    }

    /// All child lists, in order.
    ///
    /// # Errors
    ///
    /// Want of memory.
    pub fn lists(&self, alloc: Global) -> Result<Vec<Part<'a>>, Memory>
        ensures { IfOk result (λ v. v.items ≡ map (part_of self.now.bytes) (lists_of self.now.item)) }
    {
        let mut lists = Vec::new(alloc);
        'each: for place in 0..self.len() {
            let child = self.child(place);
            if child.is_list() {
                lists.push(child)?;
            }
        }
        Ok(lists)
    }
}
