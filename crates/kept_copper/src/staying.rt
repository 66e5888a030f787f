// Which cells stay: decided once a part, at the first of its cells.
ghost use Rattle.std.specs.Prelude.{◌≡◌, ◌↔◌, ◌⊎◌, ◌<◌, ◌≤◌, ◌^◌, ℕ, List, length, get_or, false, true, IsTrue, IfOk};
ghost use Rattle.std.specs.List.{All};
ghost use Rattle.plane.specs.Plane.{Bounds};
ghost use Rattle.octagon.specs.Room.{IsAround};
ghost use Rattle.cores.specs.Room.{IsInRoom};
ghost use Rattle.open_laws.specs.Open.{top_left};
ghost use Rattle.board_language.specs.declared.IslandMode.TheVariants.{Below};
ghost use Rattle.islands.specs.Held.{IsAnchorInRoom};
ghost use Rattle.islands.specs.Inside.{IsWithinEdges, IsEdgeInRoom};
ghost use Rattle.islands.specs.Parts.{AreParts};
ghost use Rattle.components.specs.Kept.{IsSparedPart, with_label};
ghost use Rattle.kept_copper.specs.Stays.{AreStaying, IsBegun, IsSparedAt};

use crate::labels::of_label;
use board_language::IslandMode;
use components::size_law;
use copper_shape::{Edge, Shape};
use grid_num::{Memory, Point};
use islands::{inside, kept, parts};
use octagon::Oct;
use scan_rows::Rows;
use std::alloc::Global;

/// For each cell whether it stays: whether the first cell of its part begins inside the board, by its edges, and the part is held by
/// a live spoke or an anchor, or spared by the mode. Parts are those of the pieces, each of which is a cell plus the
/// brush, and lies within 300,000,000 units of 0.
///
/// # Errors
///
/// Want of memory.
pub fn stays(
    alloc: Global,
    edges: &[Edge],
    anchors: &[Shape],
    live: &[Oct],
    islands: IslandMode,
    cells: &[Oct],
    pieces: &[Oct],
) -> Result<Vec<bool>, Memory>
    requires same { length pieces.now ≡ length cells.now }
    requires edges { All IsEdgeInRoom edges.now }
    requires anchors { All IsAnchorInRoom anchors.now }
    requires room { All (IsAround 300000000) pieces.now }
    ensures { IfOk result (λ v. AreStaying edges.now anchors.now live.now islands cells.now pieces.now v.items) }
{
    let found = parts(alloc, pieces)?;
    let labels = found.as_slice();
    let held = kept(alloc, pieces, labels, anchors, live)?;
    let begun = begun(alloc, edges, cells, labels)?;
    let spared = spared(alloc, islands, pieces, labels)?;
    flags(
        alloc,
        labels,
        held.as_slice(),
        begun.as_slice(),
        spared.as_slice(),
    )
}

// For the first cell of each part whether it begins inside the board; not, for all others.
fn begun(alloc: Global, edges: &[Edge], cells: &[Oct], labels: &[u32]) -> Result<Vec<bool>, Memory>
    requires same { length labels.now ≡ length cells.now }
    requires edges { All IsEdgeInRoom edges.now }
    ensures { IfOk result (λ v. (length v.items ≡ length cells.now)
        × ((m : ℕ) → m < length cells.now → (get_or v.items m false ≡ true) ↔ IsBegun edges.now cells.now labels.now m)) }
{
    let mut flags = Vec::new(alloc);
    'each: for m in 0..cells.len() {
        flags.push(is_begun(edges, cells, labels, m))?;
    }
    Ok(flags)
}

// The same of one cell.
fn is_begun(edges: &[Edge], cells: &[Oct], labels: &[u32], m: usize) -> bool
    requires same { length labels.now ≡ length cells.now }
    requires place { m < length cells.now }
    requires edges { All IsEdgeInRoom edges.now }
    ensures { IsTrue result ↔ IsBegun edges.now cells.now labels.now m }
{
    if labels[m] as usize != m {
        return false;
    }
    begins_inside(edges, &cells[m])
}

// Whether the cell's first point, the left end of its top side, is inside the board.
fn begins_inside(edges: &[Edge], cell: &Oct) -> bool
    requires { All IsEdgeInRoom edges.now }
    ensures { IsTrue result ↔ IsWithinEdges edges.now (top_left cell.now) }
{
    inside(edges, first_of(cell))
}

// The left end of the top side.
fn first_of(cell: &Oct) -> Point
    ensures value { result ≡ top_left cell.now }
    ensures room { IsInRoom (2 ^ 40) result }
{
    let _ = cell.x0();
    cell.corners()[0]
}

// For the first piece of each part whether the mode spares the part; not, for all others.
fn spared(
    alloc: Global,
    islands: IslandMode,
    pieces: &[Oct],
    labels: &[u32],
) -> Result<Vec<bool>, Memory>
    requires { length labels.now ≡ length pieces.now }
    ensures { IfOk result (λ v. (length v.items ≡ length pieces.now)
        × ((m : ℕ) → m < length pieces.now → (get_or v.items m false ≡ true) ↔ IsSparedAt islands pieces.now labels.now m)) }
{
    let mut flags = Vec::new(alloc);
    'each: for m in 0..pieces.len() {
        flags.push(is_spared_at(alloc, islands, pieces, labels, m)?)?;
    }
    Ok(flags)
}

// The same of one piece.
fn is_spared_at(
    alloc: Global,
    islands: IslandMode,
    pieces: &[Oct],
    labels: &[u32],
    m: usize,
) -> Result<bool, Memory>
    requires same { length labels.now ≡ length pieces.now }
    requires place { m < length pieces.now }
    ensures { IfOk result (λ flag. (flag ≡ true) ↔ IsSparedAt islands pieces.now labels.now m) }
{
    let label = labels[m];
    if label as usize != m {
        return Ok(false);
    }
    is_spared(alloc, islands, pieces, labels, label)
}

// Whether the mode spares the pieces with the label.
fn is_spared(
    alloc: Global,
    islands: IslandMode,
    pieces: &[Oct],
    labels: &[u32],
    label: u32,
) -> Result<bool, Memory>
    requires { length labels.now ≡ length pieces.now }
    ensures { IfOk result (λ flag. (flag ≡ true) ↔ IsSparedPart (with_label labels.now label pieces.now) islands) }
{
    match islands {
        IslandMode::Remove => Ok(false),
        IslandMode::Keep => Ok(true),
        IslandMode::Below(area) => is_large_part(alloc, area, pieces, labels, label),
    }
}

// Whether the pieces with the label are large enough for the area.
fn is_large_part(
    alloc: Global,
    area: u64,
    pieces: &[Oct],
    labels: &[u32],
    label: u32,
) -> Result<bool, Memory>
    requires { length labels.now ≡ length pieces.now }
    ensures { IfOk result (λ flag. (flag ≡ true) ↔ IsSparedPart (with_label labels.now label pieces.now) (Below area)) }
{
    let part = of_label(alloc, pieces, labels, label)?;
    is_large(alloc, area, part.as_slice())
}

// Whether the octagons have as many grid points as the area wants: each stands for 4 square nanometres, and the area is in
// millionths of a square millimetre, of a million square nanometres each.
fn is_large(alloc: Global, area: u64, octs: &[Oct]) -> Result<bool, Memory>
    ensures { IfOk result (λ flag. (flag ≡ true) ↔ IsSparedPart octs.now (Below area)) }
{
    size_law();
    let rows = Rows::of_octs(alloc, octs)?;
    Ok(is_up_to(250_000 * u128::from(area), rows.count()))
}

fn is_up_to(least: u128, count: u128) -> bool
    ensures { (result ≡ true) ↔ (least ≤ count) }
{
    least <= count
}

// For each place whether its part stays.
fn flags(
    alloc: Global,
    labels: &[u32],
    held: &[bool],
    begun: &[bool],
    spared: &[bool],
) -> Result<Vec<bool>, Memory>
    requires held { length held.now ≡ length labels.now }
    requires begun { length begun.now ≡ length labels.now }
    requires spared { length spared.now ≡ length labels.now }
    requires labels { All (λ label. label < length labels.now) labels.now }
    ensures { IfOk result (λ v. (length v.items ≡ length labels.now)
        × ((k : ℕ) → k < length labels.now → (get_or v.items k false ≡ true)
        ↔ ((get_or begun.now (get_or labels.now k 0) false ≡ true)
        × ((get_or held.now k false ≡ true) ⊎ (get_or spared.now (get_or labels.now k 0) false ≡ true))))) }
{
    let mut flags = Vec::new(alloc);
    'each: for k in 0..labels.len() {
        let label = labels[k] as usize;
        flags.push(both(begun[label], either(held[k], spared[label])))?;
    }
    Ok(flags)
}

fn both(first: bool, second: bool) -> bool
    ensures { (result ≡ true) ↔ ((first ≡ true) × (second ≡ true)) }
{
    first && second
}

fn either(first: bool, second: bool) -> bool
    ensures { (result ≡ true) ↔ ((first ≡ true) ⊎ (second ≡ true)) }
{
    first || second
}
