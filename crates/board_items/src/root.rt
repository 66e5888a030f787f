// What holds for the whole board: its copper layers and its nets.
ghost use Rattle.std.specs.Prelude.{◌≡◌, cond, filter_map, option_map, codes, None, IfOk};
ghost use Rattle.board_text.specs.Items.{context_of, declared_net, declared_nets, is_unknown_net, net_of, stamp_in, version_of};
ghost use Rattle.sexpr_text.specs.Items.{is_headed};
ghost use Rattle.board_items.specs.Known.{context};

use crate::stack::copper_names;
use crate::{Known, Numbers};
use board_text::{Part, whole_number};
use grid_num::Memory;
use std::alloc::Global;

/// The number that a net declares.
///
/// # Errors
///
/// Want of memory.
pub fn declared_net(alloc: Global, net: &Part<'_>) -> Result<Option<u32>, Memory>
    ensures { IfOk result (λ n. n ≡ declared_net net.now.bytes net.now.item) }
{
    match net.text_at(alloc, 0)? {
        Some(text) => Ok(Some(whole_number(&text))),
        None => Ok(None),
    }
}

/// The version of a board: the whole number in its `version`, or 0 where there is none.
///
/// # Errors
///
/// Want of memory.
pub fn version_of(alloc: Global, board: &Part<'_>) -> Result<u32, Memory>
    ensures { IfOk result (λ version. version ≡ version_of board.now.bytes board.now.item) }
{
    board.whole_in(alloc, b"version")
}

/// The stamp of a track, via or zone, where it has one.
///
/// # Errors
///
/// Want of memory.
pub fn stamp_in(alloc: Global, item: &Part<'_>) -> Result<Option<Vec<u8>>, Memory>
    ensures { IfOk result (λ s. option_map (λ v. v.items) s ≡ stamp_in item.now.bytes item.now.item) }
{
    match item.stamp_list() {
        Some(list) => list.text_at(alloc, 0),
        None => Ok(None),
    }
}

/// The number that an item declares, where it is a net.
fn net_at(alloc: Global, item: &Part<'_>) -> Result<Option<u32>, Memory>
    ensures { IfOk result (λ n. n ≡ cond (is_headed item.now.bytes (codes "net") item.now.item) (declared_net item.now.bytes item.now.item) None) }
{
    if item.is_headed(b"net") {
        declared_net(alloc, item)
    } else {
        Ok(None)
    }
}

/// The numbers of all nets that a board declares, in order.
///
/// # Errors
///
/// Want of memory.
pub fn declared_nets(alloc: Global, board: &Part<'_>) -> Result<Numbers, Memory>
    ensures { IfOk result (λ n. n ≡ declared_nets board.now.bytes board.now.item) }
{
    let mut nets = Numbers::new(alloc);
    'each: for place in 0..board.len() {
        let item = board.child(place);
        if let Some(number) = net_at(alloc, &item)? {
            nets.push(number)?;
        }
    }
    Ok(nets)
}

/// What holds for the whole board: its copper layers and its nets.
///
/// # Errors
///
/// Want of memory.
#[tactic(auto, unfolding(board_text::specs::Items::context_of))]
pub fn known_of(alloc: Global, board: &Part<'_>) -> Result<Known, Memory>
    ensures { IfOk result (λ known. context board.now.bytes known ≡ context_of board.now.bytes board.now.item) }
{
    Ok(Known {
        copper: copper_names(alloc, board)?,
        nets: declared_nets(alloc, board)?,
    })
}

/// Whether a net other than 0 isn't declared.
///
/// # Errors
///
/// Want of memory.
pub fn is_unknown_net(alloc: Global, known: &Known, item: &Part<'_>) -> Result<bool, Memory>
    ensures { IfOk result (λ yes. yes ≡ is_unknown_net (context item.now.bytes known.now) (net_of item.now.bytes item.now.item)) }
{
    let net = item.whole_in(alloc, b"net")?;
    Ok(net != 0 && !known.nets.has(net))
}
