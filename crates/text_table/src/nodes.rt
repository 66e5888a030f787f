// What the tree of a text says of its nodes.
ghost use Rattle.std.specs.Prelude.{◌<◌, length, IfSome};
ghost use Rattle.sexpr_text.specs.Trees.{IsTreeOf};

use crate::spelling::spelled;
use grid_num::Memory;
use sexpr_text::{NodeId, NodeKind, Tree};
use std::alloc::Global;

/// The node that a line `at` names: from the root on, in each list the first list with the next head.
fn node_at(tree: &Tree, bytes: &[u8], path: &str) -> Option<NodeId>
    requires { IsTreeOf bytes.now tree.now }
    ensures { IfSome result (λ id. id < length tree.now) }
{
    let mut id = tree.root();
    'heads: for head in path.split_whitespace() {
        match tree.find(bytes, id, head.as_bytes()) {
            Some(list) => id = list,
            None => return None,
        }
    }
    Some(id)
}

/// The content of a leaf, as it is spelled; of a list nothing.
fn content(alloc: Global, tree: &Tree, bytes: &[u8], id: NodeId) -> Result<String, Memory>
    requires below { id < length tree.now }
    requires same { IsTreeOf bytes.now tree.now }
{
    match tree.kind(id) {
        NodeKind::Word => spelled(alloc, &tree.content(alloc, bytes, id)?),
        NodeKind::Text => spelled(alloc, &tree.content(alloc, bytes, id)?),
        NodeKind::List => Ok(String::new(alloc)),
    }
}

/// The line of a node: what it is, where it stands, and the content of a leaf.
fn node_line(alloc: Global, tree: &Tree, bytes: &[u8], id: NodeId) -> Result<String, Memory>
    requires below { id < length tree.now }
    requires same { IsTreeOf bytes.now tree.now }
{
    let kind = tree.kind(id);
    let span = tree.span(id);
    let content = content(alloc, tree, bytes, id)?;
    Ok(format!(in alloc; "\n  {kind:?} {} to {}: {content}", span.from, span.to)?)
}

/// Says the items of a list, a line each.
fn items(alloc: Global, tree: &Tree, bytes: &[u8], id: NodeId) -> Result<String, Memory>
    requires below { id < length tree.now }
    requires same { IsTreeOf bytes.now tree.now }
{
    let mut lines = String::new(alloc);
    'items: for item in tree.children(id) {
        lines.push_str(node_line(alloc, tree, bytes, *item)?.as_str())?;
    }
    Ok(lines)
}

/// Says the head of a list, as it stands in the text.
fn head(alloc: Global, tree: &Tree, bytes: &[u8], id: NodeId) -> Result<String, Memory>
    requires below { id < length tree.now }
    requires same { IsTreeOf bytes.now tree.now }
{
    match tree.head(bytes, id) {
        Some(head) => spelled(alloc, &bytes[head.from..head.to]),
        None => Ok(format!(in alloc; "none")?),
    }
}

/// What the tree of a text answers of a node; None where the line asks no node.
pub fn answer(
    alloc: Global,
    tree: &Tree,
    bytes: &[u8],
    path: &str,
    command: &str,
) -> Result<Option<String>, Memory>
    requires { IsTreeOf bytes.now tree.now }
{
    let Some(id) = node_at(tree, bytes, path) else {
        return Ok(None);
    };
    match command {
        "items" => Ok(Some(items(alloc, tree, bytes, id)?)),
        "head" => Ok(Some(head(alloc, tree, bytes, id)?)),
        "bytes" => Ok(Some(spelled(alloc, tree.bytes_of(bytes, id))?)),
        _ => Ok(None),
    }
}
