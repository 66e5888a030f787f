// The drill of a pad: the first two items of its list that are no lists, where a first word `oval` is passed over.
ghost use Rattle.std.specs.Prelude.{◌≡◌, ℕ, ℤ, ◌+◌, ◌≤◌, ◌∷◌, [], cond, filter, map, not, codes, slice_get, Some, IfOk};
ghost use Rattle.grid_num.specs.Length.{IsInRange};
ghost use Rattle.board_text.specs.Lists.{is_list, behind_head};
ghost use Rattle.sexpr_text.specs.Parts.{part_of};
ghost use Rattle.board_text.specs.Fields.{is_text, list_of};
ghost use Rattle.board_text.specs.Numbers.{first_of, item_fault, length_fault};
ghost use Rattle.board_language.specs.Pads.{drill_fault, drill_height, drill_of, drill_width, is_hole, length_from};
ghost use Rattle.board_text.specs.Items.{is_no_length};
ghost use Rattle.board_language.specs.Offences.{has_bad_drill};
ghost use Rattle.board_pads.specs.Drills.{fault_shown, first_text, leaves_of, leaves_in, length_shown, shown_or};

use crate::read::is_hole;
use board_items::is_no_length;
use board_text::{Part, first_of, is_text, length_of};
use grid_num::{Memory, NumFault};
use std::alloc::Global;

fn leaves_in<'a>(alloc: Global, list: &Part<'a>) -> Result<Vec<Part<'a>>, Memory>
    ensures { IfOk result (λ v. v.items ≡ map (part_of list.now.bytes) (leaves_in list.now.item)) }
{
    let mut leaves = Vec::new(alloc);
    'each: for place in 1..list.len() {
        let child = list.child(place);
        if !child.is_list() {
            leaves.push(child)?;
        }
    }
    Ok(leaves)
}

/// The words and strings of a pad's drill.
fn leaves_of<'a>(alloc: Global, pad: &Part<'a>) -> Result<Vec<Part<'a>>, Memory>
    ensures { IfOk result (λ v. v.items ≡ map (part_of pad.now.bytes) (leaves_of (list_of pad.now.bytes (codes "drill") pad.now.item))) }
{
    match pad.list(b"drill") {
        Some(list) => leaves_in(alloc, &list),
        None => Ok(Vec::new(alloc)),
    }
}

fn starts_oval(alloc: Global, leaves: &[Part<'_>]) -> Result<bool, Memory>
    ensures { IfOk result (λ yes. yes ≡ is_text (codes "oval") (first_text leaves.now)) }
{
    match leaves.get(0) {
        Some(leaf) => {
            let text = leaf.text(alloc)?;
            Ok(is_text(&text, b"oval"))
        }
        None => Ok(false),
    }
}

/// The place of the drill's width.
fn first_place(alloc: Global, leaves: &[Part<'_>]) -> Result<usize, Memory>
    ensures value { IfOk result (λ n. n ≡ cond (is_text (codes "oval") (first_text leaves.now)) 1 0) }
    ensures most { IfOk result (λ n. n ≤ 1) }
{
    let oval = starts_oval(alloc, leaves)?;
    Ok(if oval { 1 } else { 0 })
}

fn length_from(alloc: Global, item: &Part<'_>) -> Result<i64, Memory>
    ensures value { IfOk result (λ nm. nm ≡ length_from item.now.bytes item.now.item) }
    ensures range { IfOk result IsInRange }
{
    match item.text(alloc)? {
        Some(text) => Ok(length_of(&text)),
        None => Ok(0),
    }
}

fn length_in(alloc: Global, leaves: &[Part<'_>], place: usize) -> Result<i64, Memory>
    ensures value { IfOk result (λ nm. nm ≡ length_shown (slice_get leaves.now place)) }
    ensures range { IfOk result IsInRange }
{
    match leaves.get(place) {
        Some(leaf) => length_from(alloc, leaf),
        None => Ok(0),
    }
}

/// The length behind a place; the one at the place where none stands behind it.
fn height_in(alloc: Global, leaves: &[Part<'_>], place: usize) -> Result<i64, Memory>
    requires { place ≤ 1 }
    ensures value { IfOk result (λ nm. nm ≡ shown_or (length_shown (slice_get leaves.now place)) (slice_get leaves.now (place + 1))) }
    ensures range { IfOk result IsInRange }
{
    match leaves.get(place + 1) {
        Some(leaf) => length_from(alloc, leaf),
        None => length_in(alloc, leaves, place),
    }
}

fn fault_in(alloc: Global, leaves: &[Part<'_>], place: usize) -> Result<Option<NumFault>, Memory>
    ensures { IfOk result (λ f. f ≡ fault_shown (slice_get leaves.now place)) }
{
    match leaves.get(place) {
        Some(leaf) => leaf.length_fault(alloc),
        None => Ok(None),
    }
}

/// The width of a pad's drill, in nanometres; 0 where none is given.
///
/// # Errors
///
/// Want of memory.
#[tactic(auto, using(crate::proofs::Drills::width_is))]
pub fn drill_width(alloc: Global, pad: &Part<'_>) -> Result<i64, Memory>
    ensures value { IfOk result (λ nm. nm ≡ drill_width pad.now.bytes (drill_of pad.now.bytes pad.now.item)) }
    ensures range { IfOk result IsInRange }
{
    let leaves = leaves_of(alloc, pad)?;
    let first = first_place(alloc, &leaves)?;
    let width = length_in(alloc, &leaves, first)?;
    Ok(width)
}

/// The height of a pad's drill, in nanometres; its width where one number is given.
///
/// # Errors
///
/// Want of memory.
#[tactic(auto, using(crate::proofs::Drills::height_is))]
pub fn drill_height(alloc: Global, pad: &Part<'_>) -> Result<i64, Memory>
    ensures value { IfOk result (λ nm. nm ≡ drill_height pad.now.bytes (drill_of pad.now.bytes pad.now.item)) }
    ensures range { IfOk result IsInRange }
{
    let leaves = leaves_of(alloc, pad)?;
    let first = first_place(alloc, &leaves)?;
    let height = height_in(alloc, &leaves, first)?;
    Ok(height)
}

#[tactic(auto, using(crate::proofs::Drills::fault_is))]
fn numbers_fault(alloc: Global, pad: &Part<'_>) -> Result<Option<NumFault>, Memory>
    ensures { IfOk result (λ f. f ≡ first_of (map (item_fault length_fault pad.now.bytes) (drill_of pad.now.bytes pad.now.item))) }
{
    let leaves = leaves_of(alloc, pad)?;
    let first = first_place(alloc, &leaves)?;
    let width = fault_in(alloc, &leaves, first)?;
    let height = fault_in(alloc, &leaves, first + 1)?;
    Ok(first_of(&[width, height]))
}

/// What is wrong with the numbers of a drill, which are read of a bare hole alone.
///
/// # Errors
///
/// Want of memory.
pub fn drill_fault(alloc: Global, pad: &Part<'_>) -> Result<Option<NumFault>, Memory>
    ensures { IfOk result (λ f. f ≡ drill_fault pad.now.bytes pad.now.item) }
{
    if is_hole(alloc, pad)? {
        numbers_fault(alloc, pad)
    } else {
        Ok(None)
    }
}

/// Whether the drill of a bare hole is negative, or above 100 mm.
///
/// # Errors
///
/// Want of memory.
pub fn has_bad_drill(alloc: Global, pad: &Part<'_>) -> Result<bool, Memory>
    ensures { IfOk result (λ yes. yes ≡ has_bad_drill pad.now.bytes pad.now.item) }
{
    let hole = is_hole(alloc, pad)?;
    let width = drill_width(alloc, pad)?;
    let height = drill_height(alloc, pad)?;
    Ok(hole && (is_no_length(width) || is_no_length(height)))
}
