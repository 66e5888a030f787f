//! The text of a board, made of parentheses, words and strings, as a flat tree of its items.
//! The layer above uses the one tree that the bytes spell, item by item, or the one place and kind of the text's fault.
//! Places are numbers of bytes from the start of the text.
#![tactic(auto)]

mod content;
mod cut;
mod error;
mod laws;
mod reader;
mod scan;
mod stand;
mod store;
mod tree;
mod walk;

pub use error::{TextError, TextFault, TextKind};
pub use laws::{
    bad_utf8, children_in_order, each_node_is_an_item, item_law, items_of_nodes, node_is_below,
    one_fault, one_item, one_root, one_tree, root_is_last,
};
pub use reader::read;
pub use scan::is_space_byte;
pub use tree::Tree;

/// The number of a node: its place in the flat list of a tree's nodes.
pub type NodeId = u32;

/// What a node is. A `Text` is a string between quotes.
#[derive(Clone, Copy, Debug, PartialEq, Eq)]
pub enum NodeKind {
    List,
    Word,
    Text,
}

/// Where an item stands: the place of its first byte, and the place behind its last one.
#[derive(Clone, Copy, Debug, PartialEq, Eq)]
pub struct Span {
    pub from: usize,
    pub to: usize,
}
