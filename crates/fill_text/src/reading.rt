// The fills that stand in a text.
ghost use Rattle.std.specs.Prelude.{◌≡◌, ◌<◌, [], length, map, IfOk, IfErr};
ghost use Rattle.std.specs.List.{All};
ghost use Rattle.sexpr_text.specs.Items.{Item};
ghost use Rattle.sexpr_text.specs.Trees.{IsRoot, IsTreeOf};
ghost use Rattle.board_language.specs.declared.board.Rules.{Rules};
ghost use Rattle.edit_language.specs.Edited.{IsBoardOf};
ghost use Rattle.fill_rules.specs.Ranking.{IsTask};
ghost use Rattle.fills.specs.Fills.{task_of};
ghost use Rattle.rings.specs.Rings.{IsRingInRange};
ghost use Rattle.fill_text.specs.FillLists.{bad_fills, rings_in, AreRingsRead};
ghost use Rattle.fill_text.specs.Inner.Reading.{IsBoardAt, AreZonesAt, bad_at, rings_at};
ghost use Rattle.fill_text.specs.Refused.{IsRefusedFor};
ghost use Rattle.fill_text.specs.ReadLaws.{ZoneListsLaw, OneReadingLaw, LeastPlaceLaw};

use crate::error::FillsError;
use crate::fill_lists::{rings_on, try_zone};
use crate::zone_lists::copper_zones;
use board_model::Board;
use board_text::Part;
use fills::Task;
use grid_num::Memory;
use knockouts::tasks;
use rings::Ring;
use sexpr_text::Tree;
use std::alloc::Global;

// Tries the fills of a zone of the board, whose zones are these lists.
fn try_zone_at(
    alloc: Global,
    board: &Board,
    root: &Part<'_>,
    zones: &[Part<'_>],
    k: usize,
) -> Result<(), FillsError>
    requires board { IsBoardAt root.now board.now.board }
    requires zones { AreZonesAt root.now zones.now }
    requires there { k < length zones.now }
    ensures read { IfOk result (λ _. bad_at root.now k ≡ []) }
    ensures refused { IfErr result (IsRefusedFor (bad_at root.now k)) }
{
    board.sound();
    let _ = root;
    let zone = &board.zones()[k];
    try_zone(alloc, board.layers(), zone.layers, &zones[k])
}

// Tries the fills of all zones of the board, which are these lists.
#[tactic(auto, unfolding(crate::specs::FillLists::bad_fills))]
fn try_zones(
    alloc: Global,
    board: &Board,
    root: &Part<'_>,
    zones: &[Part<'_>],
) -> Result<(), FillsError>
    requires board { IsBoardAt root.now board.now.board }
    requires zones { AreZonesAt root.now zones.now }
    ensures read { IfOk result (λ _. bad_fills root.now.bytes root.now.item ≡ []) }
    ensures refused { IfErr result (IsRefusedFor (bad_fills root.now.bytes root.now.item)) }
{
    'each: for k in 0..zones.len() {
        try_zone_at(alloc, board, root, zones, k)?;
    }
    Ok(())
}

// The rings of a task of the board, whose zones are these lists.
fn rings_of_task(
    alloc: Global,
    board: &Board,
    root: &Part<'_>,
    zones: &[Part<'_>],
    task: Task,
) -> Result<Vec<Ring>, Memory>
    requires board { IsBoardAt root.now board.now.board }
    requires zones { AreZonesAt root.now zones.now }
    requires task { IsTask board.now.board (task_of task) }
    ensures value { IfOk result (λ v. v.items ≡ rings_at root.now board.now.board (task_of task)) }
    ensures range { IfOk result (λ v. All IsRingInRange v.items) }
{
    let _ = root;
    let name = &board.layers()[usize::from(task.layer)];
    rings_on(alloc, name.bytes(), &zones[task.zone as usize])
}

// The rings of all tasks of the board, whose zones are these lists.
#[tactic(auto, unfolding(crate::specs::FillLists::rings_in))]
fn rings_of_tasks(
    alloc: Global,
    board: &Board,
    root: &Part<'_>,
    zones: &[Part<'_>],
) -> Result<Vec<Vec<Ring>>, Memory>
    requires board { IsBoardAt root.now board.now.board }
    requires zones { AreZonesAt root.now zones.now }
    ensures value { IfOk result
        (λ v. map (λ rings. rings.items) v.items ≡ rings_in root.now.bytes root.now.item board.now.board) }
    ensures range { IfOk result (λ v. All (λ rings. All IsRingInRange rings.items) v.items) }
{
    let tasks = tasks(alloc, board)?;
    let mut all = Vec::new(alloc);
    'each: for k in 0..tasks.len() {
        let rings = rings_of_task(alloc, board, root, zones, tasks[k])?;
        all.push(rings)?;
    }
    Ok(all)
}

// The rings that stand in the board's text, whose root this is.
fn read_all(alloc: Global, board: &Board, root: &Part<'_>) -> Result<Vec<Vec<Ring>>, FillsError>
    requires board { IsBoardAt root.now board.now.board }
    ensures read { IfOk result
        (λ v. AreRingsRead root.now.bytes root.now.item board.now.board (map (λ rings. rings.items) v.items)) }
    ensures refused { IfErr result (IsRefusedFor (bad_fills root.now.bytes root.now.item)) }
    ensures range { IfOk result (λ v. All (λ rings. All IsRingInRange rings.items) v.items) }
{
    let zones = copper_zones(alloc, root)?;
    try_zones(alloc, board, root, &zones)?;
    let rings = rings_of_tasks(alloc, board, root, &zones)?;
    Ok(rings)
}

/// The rings that stand in the text of a board, for each of its tasks in rank order: the corners of the `filled_polygon` lists of the
/// task's zone on the task's layer, in the order of the file, in nanometres.
///
/// # Errors
///
/// Want of memory, or the place of the first `filled_polygon` of a copper zone that isn't on a layer of its zone, or has a corner that
/// isn't a readable `xy`.
pub fn read_fills(
    alloc: Global,
    text: &[u8],
    tree: &Tree,
    board: &Board,
) -> Result<Vec<Vec<Ring>>, FillsError>
    requires tree { IsTreeOf text.now tree.now }
    requires board { (rules : Rules) × IsBoardOf text.now rules board.now.board }
    ensures read { IfOk result (λ v. (root : Item) → IsRoot text.now root
        → AreRingsRead text.now root board.now.board (map (λ rings. rings.items) v.items)) }
    ensures refused { IfErr result (λ e. (root : Item) → IsRoot text.now root
        → IsRefusedFor (bad_fills text.now root) e) }
    ensures range { IfOk result (λ v. All (λ rings. All IsRingInRange rings.items) v.items) }
{
    let root = Part::root(tree, text);
    read_all(alloc, board, &root)
}

/// The lists whose fills are read are those of the board's zones. Either all of them can be read, and then their rings are told, or
/// one is the first that can't be, and no other such stands before it.
pub fn read_law()
    ensures zones { ZoneListsLaw }
    ensures one { OneReadingLaw }
    ensures least { LeastPlaceLaw }
{}
