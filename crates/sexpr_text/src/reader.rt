// Reads a text, list within list.
ghost use Rattle.std.specs.Prelude.{◌≡◌, ◌≢◌, ℕ, List, true, false, ◌+◌, ◌<◌, ◌≤◌, ◌^◌, length, slice_index, IfOk, IfErr, IsErrOf};
ghost use Rattle.std.specs.Str.{IsUtf8};
ghost use Rattle.sexpr_text.specs.Grammar.{Forest, Spelt, is_space, is_word};
ghost use Rattle.sexpr_text.specs.Trees.{IsTreeOf};
ghost use Rattle.sexpr_text.specs.Faults.{IsRefused};
ghost use Rattle.sexpr_text.specs.Inner.Run.{Takes, TakesList, Stops, Through, NoItems};
ghost use Rattle.sexpr_text.specs.declared.reader.Failure.TheVariants.{Memory as no_memory};

use crate::scan::{is_end, space_end, string_end, word_end};
use crate::store::Store;
use crate::walk::fault_of;
use crate::{NodeKind, TextError, Tree};
use grid_num::Memory;
use std::alloc::Global;

/// Why no items were read.
#[derive(Clone, Copy)]
enum Failure {
    Memory,
    NoTree,
}

impl From<Memory> for Failure {
    ghost from_gives = { λ _ e. e ≡ no_memory };

    fn from(_: Memory) -> Self {
        Failure::Memory
    }
}

/// Reads the items from a place up to a closing parenthesis or the end, and answers where they end.
#[cycle(items)]
fn items(bytes: &[u8], room: u8, start: usize, store: &mut Store) -> Result<usize, Failure>
    requires small { length bytes.now < 2 ^ 32 }
    requires within { start ≤ length bytes.now }
    ensures found { IfOk result (λ end. Takes bytes.now room start end store.old store.new) }
    ensures stops { IfOk result (λ end. Stops bytes.now end) }
    ensures forward { IfOk result (λ end. start ≤ end) }
    ensures within { IfOk result (λ end. end ≤ length bytes.now) }
    ensures none { IsErrOf result Failure.NoTree → NoItems bytes.now room start }
{
    let mut at = start;
    'each: loop {
        let from = space_end(bytes, at);
        if is_end(bytes, from) {
            return Ok(from);
        }
        let to = item(bytes, room, from, store)?;
        at = to;
    }
}

/// Reads the item at a place, and answers where it ends.
#[cycle(items)]
fn item(bytes: &[u8], room: u8, at: usize, store: &mut Store) -> Result<usize, Failure>
    requires small { length bytes.now < 2 ^ 32 }
    requires within { at < length bytes.now }
    requires solid { is_space (slice_index bytes.now at) ≡ false }
    requires inside { slice_index bytes.now at ≢ 41 }
    ensures found { IfOk result (λ to. Takes bytes.now room at to store.old store.new) }
    ensures through { IfOk result (λ to. Through bytes.now room at to) }
    ensures forward { IfOk result (λ to. at < to) }
    ensures within { IfOk result (λ to. to ≤ length bytes.now) }
    ensures none { IsErrOf result Failure.NoTree → NoItems bytes.now room at }
{
    match bytes[at] {
        b'(' => list(bytes, room, at, store),
        b'"' => string(bytes, at, store),
        _ => word(bytes, at, store),
    }
}

/// Reads the list at a place. At most `room` lists may lie in one another there.
#[cycle(items)]
fn list(bytes: &[u8], room: u8, at: usize, store: &mut Store) -> Result<usize, Failure>
    requires small { length bytes.now < 2 ^ 32 }
    requires within { at < length bytes.now }
    requires opening { slice_index bytes.now at ≡ 40 }
    ensures shape { IfOk result (λ to. TakesList bytes.now room at to store.old store.new) }
    ensures found { IfOk result (λ to. Takes bytes.now room at to store.old store.new) }
    ensures through { IfOk result (λ to. Through bytes.now room at to) }
    ensures forward { IfOk result (λ to. at < to) }
    ensures within { IfOk result (λ to. to ≤ length bytes.now) }
    ensures none { IsErrOf result Failure.NoTree → NoItems bytes.now room at }
{
    if room == 0 {
        return Err(Failure::NoTree);
    }
    let mark = store.waiting();
    let end = items(bytes, room - 1, at + 1, store)?;
    if end == bytes.len() {
        return Err(Failure::NoTree);
    }
    let to = end + 1;
    store.list(at, to, mark)?;
    Ok(to)
}

/// Reads the string at a place, at any depth.
fn string(bytes: &[u8], at: usize, store: &mut Store) -> Result<usize, Failure>
    requires small { length bytes.now < 2 ^ 32 }
    requires within { at < length bytes.now }
    requires opening { slice_index bytes.now at ≡ 34 }
    ensures found { IfOk result (λ to. (room : ℕ) → Takes bytes.now room at to store.old store.new) }
    ensures through { IfOk result (λ to. (room : ℕ) → Through bytes.now room at to) }
    ensures forward { IfOk result (λ to. at < to) }
    ensures within { IfOk result (λ to. to ≤ length bytes.now) }
    ensures none { IsErrOf result Failure.NoTree → (room : ℕ) → NoItems bytes.now room at }
{
    let Some(to) = string_end(bytes, at) else {
        return Err(Failure::NoTree);
    };
    store.leaf(NodeKind::Text, at, to)?;
    Ok(to)
}

/// Reads the word at a place, at any depth.
fn word(bytes: &[u8], at: usize, store: &mut Store) -> Result<usize, Failure>
    requires small { length bytes.now < 2 ^ 32 }
    requires within { at < length bytes.now }
    requires word { is_word (slice_index bytes.now at) ≡ true }
    ensures found { IfOk result (λ to. (room : ℕ) → Takes bytes.now room at to store.old store.new) }
    ensures through { IfOk result (λ to. (room : ℕ) → Through bytes.now room at to) }
    ensures forward { IfOk result (λ to. at < to) }
    ensures within { IfOk result (λ to. to ≤ length bytes.now) }
    ensures none { IsErrOf result Failure.NoTree → ⊥ }
{
    let to = word_end(bytes, at);
    store.leaf(NodeKind::Word, at, to)?;
    Ok(to)
}

fn is_utf8(bytes: &[u8]) -> bool
    ensures yes { result ≡ true → IsUtf8 bytes.now }
    ensures no { result ≡ false → IsUtf8 bytes.now → ⊥ }
{
    str::from_utf8(bytes).is_ok()
}

/// Reads the one list of a text.
fn whole(alloc: Global, bytes: &[u8]) -> Result<Tree, Failure>
    requires { length bytes.now < 2 ^ 32 }
    ensures found { IfOk result (IsTreeOf bytes.now) }
    ensures none { IsErrOf result Failure.NoTree → (tree : Forest) → Spelt bytes.now tree → ⊥ }
{
    if !is_utf8(bytes) {
        return Err(Failure::NoTree);
    }
    let at = space_end(bytes, 0);
    if at == bytes.len() || bytes[at] != b'(' {
        return Err(Failure::NoTree);
    }
    let mut store = Store::new(alloc);
    let to = list(bytes, 64, at, &mut store)?;
    if space_end(bytes, to) < bytes.len() {
        return Err(Failure::NoTree);
    }
    Ok(store.into_tree())
}

/// Reads the tree of a text. A text of 4 GiB or more is `Memory`.
pub fn read(alloc: Global, bytes: &[u8]) -> Result<Tree, TextError>
    ensures found { IfOk result (IsTreeOf bytes.now) }
    ensures fault { IfErr result (IsRefused bytes.now) }
    ensures long { 2 ^ 32 ≤ length bytes.now → IsErrOf result TextError.Memory }
{
    if u32::try_from(bytes.len()).is_err() {
        return Err(TextError::Memory);
    }
    match whole(alloc, bytes) {
        Ok(tree) => Ok(tree),
        Err(Failure::Memory) => Err(TextError::Memory),
        Err(Failure::NoTree) => Err(TextError::Bad(fault_of(bytes))),
    }
}
