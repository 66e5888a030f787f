// Lists of layers, as pads, zones and rule areas have them.
ghost use Rattle.std.specs.Prelude.{◌≡◌, ℕ, ◌≤◌, ◌∷◌, [], ◌||◌, List, cond, not, filter, flat_map, length, map, None, Some, IfOk};
ghost use Rattle.std.specs.List.{list_any};
ghost use Rattle.board_text.specs.Layers.{bits, has_copper, has_unknown, is_among, is_outer, layer_set, meant_by, meant_in};

use crate::layers::is_copper;
use crate::{Known, LayerNames};
use board_text::{Part, has_text};
use grid_num::Memory;
use std::alloc::Global;

fn is_outer(name: &[u8]) -> bool
    ensures { result ≡ is_outer name.now }
{
    name == b"F.Cu".as_slice() || name == b"B.Cu".as_slice()
}

fn copies(alloc: Global, names: &[Vec<u8>]) -> Result<Vec<Vec<u8>>, Memory>
    ensures { IfOk result (λ v. map (λ t. t.items) v.items ≡ map (λ t. t.items) names.now) }
{
    let mut copies = Vec::new(alloc);
    'each: for name in names {
        copies.push(name.as_slice().to_vec(alloc)?)?;
    }
    Ok(copies)
}

/// Copies of those names that are of the outer layers.
fn outer_copies(alloc: Global, names: &[Vec<u8>]) -> Result<Vec<Vec<u8>>, Memory>
    ensures { IfOk result (λ v. map (λ t. t.items) v.items ≡ filter is_outer (map (λ t. t.items) names.now)) }
{
    let mut copies = Vec::new(alloc);
    'each: for name in names {
        if is_outer(name.as_slice()) {
            copies.push(name.as_slice().to_vec(alloc)?)?;
        }
    }
    Ok(copies)
}

fn alone(alloc: Global, name: &[u8]) -> Result<Vec<Vec<u8>>, Memory>
    ensures { IfOk result (λ v. map (λ t. t.items) v.items ≡ name.now ∷ []) }
{
    let mut names = Vec::new(alloc);
    names.push(name.to_vec(alloc)?)?;
    Ok(names)
}

/// The copper layers that a name in a list of layers means.
///
/// # Errors
///
/// Want of memory.
#[tactic(auto, unfolding(board_text::specs::Layers::meant_by))]
pub fn meant_by(alloc: Global, copper: &[Vec<u8>], name: &[u8]) -> Result<Vec<Vec<u8>>, Memory>
    ensures { IfOk result (λ v. map (λ t. t.items) v.items ≡ meant_by (map (λ t. t.items) copper.now) name.now) }
{
    if name == b"*.Cu".as_slice() {
        return copies(alloc, copper);
    }
    if name == b"F&B.Cu".as_slice() {
        return outer_copies(alloc, copper);
    }
    if is_copper(name) {
        alone(alloc, name)
    } else {
        Ok(Vec::new(alloc))
    }
}

/// Those that all of the names mean, in order.
fn meant_by_all(
    alloc: Global,
    copper: &[Vec<u8>],
    names: &[Vec<u8>],
) -> Result<Vec<Vec<u8>>, Memory>
    ensures { IfOk result (λ v. map (λ t. t.items) v.items ≡ flat_map (meant_by (map (λ t. t.items) copper.now)) (map (λ t. t.items) names.now)) }
{
    let mut meant = Vec::new(alloc);
    'each: for name in names {
        let mut more = meant_by(alloc, copper, name.as_slice())?;
        meant.append(&mut more)?;
    }
    Ok(meant)
}

/// The copper layers that a list of layers means.
///
/// # Errors
///
/// Want of memory.
pub fn meant_in(alloc: Global, known: &Known, list: &Part<'_>) -> Result<Vec<Vec<u8>>, Memory>
    ensures { IfOk result (λ v. map (λ t. t.items) v.items ≡ meant_in list.now.bytes known.now.copper (Some list.now.item)) }
{
    let names = list.texts(alloc)?;
    meant_by_all(alloc, known.copper.names(), &names)
}

/// Whether a list of layers has a copper layer.
///
/// # Errors
///
/// Want of memory.
pub fn has_copper(alloc: Global, known: &Known, list: &Part<'_>) -> Result<bool, Memory>
    ensures { IfOk result (λ yes. yes ≡ has_copper list.now.bytes known.now.copper (Some list.now.item)) }
{
    let meant = meant_in(alloc, known, list)?;
    Ok(meant.len() != 0)
}

fn has_other(copper: &LayerNames, meant: &[Vec<u8>]) -> bool
    ensures { result ≡ list_any (λ name. not (is_among copper.now name)) (map (λ t. t.items) meant.now) }
{
    'each: for name in meant {
        if !copper.has(name.as_slice()) {
            return true;
        }
    }
    false
}

/// Whether a list of layers names a copper layer that isn't declared.
///
/// # Errors
///
/// Want of memory.
pub fn has_unknown(alloc: Global, known: &Known, list: &Part<'_>) -> Result<bool, Memory>
    ensures { IfOk result (λ yes. yes ≡ has_unknown list.now.bytes known.now.copper (Some list.now.item)) }
{
    let meant = meant_in(alloc, known, list)?;
    Ok(has_other(&known.copper, &meant))
}

pub(crate) fn bit(test: bool) -> u32
    ensures value { result ≡ cond test 1 0 }
    ensures most { result ≤ 1 }
{
    if test { 1 } else { 0 }
}

/// Which of the copper layers are among some names, the first layer as the lowest bit.
fn set_of(copper: &[Vec<u8>], meant: &[Vec<u8>]) -> u32
    requires few { length copper.now ≤ 32 }
    ensures { result ≡ bits (map (is_among (map (λ t. t.items) meant.now)) (map (λ t. t.items) copper.now)) }
{
    let mut set = 0;
    'each: for step in 0..copper.len() {
        let name = &copper[copper.len() - 1 - step];
        set = 2 * set + bit(has_text(meant, name.as_slice()));
    }
    set
}

/// The set of copper layers that a list of layers means, of a board with at most 32 of them. Where there is no such
/// list, the set is 0.
///
/// # Errors
///
/// Want of memory.
#[tactic(auto, unfolding(board_text::specs::Layers::layer_set))]
pub fn layer_set(alloc: Global, known: &Known, list: &Part<'_>) -> Result<u32, Memory>
    requires few { length known.now.copper ≤ 32 }
    ensures { IfOk result (λ set. set ≡ layer_set list.now.bytes known.now.copper (Some list.now.item)) }
{
    let meant = meant_in(alloc, known, list)?;
    Ok(set_of(known.copper.names(), &meant))
}

/// Where there is no list of layers, the set is empty.
pub fn no_layers_law()
    ensures { (bytes : List ℕ) (copper : List (List ℕ)) → layer_set bytes copper None ≡ 0 }
{}
