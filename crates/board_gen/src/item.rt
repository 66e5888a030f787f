// The vias and tracks of the cells.
ghost use Rattle.std.specs.Prelude.{◌≡◌, ◌+◌, ◌≤◌, ◌<◌, ◌++◌, OnOk, IfOk};
ghost use Rattle.board_gen.specs.Generated.{via_text, track_text, item_text, number_behind, row_text, state_after, number_after_cells};

use crate::add::{add, add_point, add_stamp};
use crate::draw::{drawn, next, place};
use grid_num::Memory;

fn add_via(out: &mut Vec<u8>, net: &[u8], x: u64, y: u64, number: u64) -> Result<(), Memory>
    requires x { x ≤ 500000000 }
    requires y { y ≤ 500000000 }
    ensures { OnOk result (out.new.items ≡ out.old.items ++ via_text net.now x y number) }
{
    add(out, b"  (via (at ")?;
    add_point(out, x, y)?;
    add(
        out,
        b") (size 0.6) (drill 0.3) (layers \"F.Cu\" \"B.Cu\") (net ",
    )?;
    add(out, net)?;
    add(out, b")")?;
    add_stamp(out, number)?;
    Ok(())
}

/// From half a millimetre left of the place to half a millimetre right and a quarter below.
fn add_track(out: &mut Vec<u8>, x: u64, y: u64, number: u64) -> Result<(), Memory>
    requires least { 500000 ≤ x }
    requires x { x ≤ 450000000 }
    requires y { y ≤ 450000000 }
    ensures { OnOk result (out.new.items ≡ out.old.items ++ track_text x y number) }
{
    add(out, b"  (segment (start ")?;
    add_point(out, x - 500_000, y)?;
    add(out, b") (end ")?;
    add_point(out, x + 500_000, y + 250_000)?;
    add(out, b") (width 0.25) (layer \"F.Cu\") (net 2)")?;
    add_stamp(out, number)?;
    Ok(())
}

/// Adds what a cell has, by the number that was drawn for it.
fn add_item(out: &mut Vec<u8>, drawn: u64, x: u64, y: u64, number: u64) -> Result<(), Memory>
    requires least { 500000 ≤ x }
    requires x { x ≤ 450000000 }
    requires y { y ≤ 450000000 }
    ensures { OnOk result (out.new.items ≡ out.old.items ++ item_text drawn x y number) }
{
    match drawn % 4 {
        0 => add_via(out, b"1", x, y, number),
        1 => add_via(out, b"2", x, y, number),
        2 => add_track(out, x, y, number),
        _ => Ok(()),
    }
}

/// The number of the next item, behind a cell for which this was drawn.
fn number_behind(drawn: u64, number: u64) -> u64
    requires { number ≤ 1000000 }
    ensures value { result ≡ number_behind drawn number }
    ensures most { result ≤ number + 1 }
{
    if drawn % 4 == 3 { number } else { number + 1 }
}

/// Where the walk over the cells stands.
#[derive(Clone, Copy, Drop)]
pub struct Walk {
    /// The state of the draws.
    pub state: u64,
    /// The number of the next item.
    pub number: u64,
}

/// Adds the things of the cells of a row, and answers where the walk then stands.
pub fn add_row(out: &mut Vec<u8>, size: u64, row: u64, walk: Walk) -> Result<Walk, Memory>
    requires size { size ≤ 200 }
    requires row { row < 200 }
    requires number { walk.number ≤ 100000 }
    ensures text { OnOk result (out.new.items ≡ out.old.items ++ row_text row 0 walk.state walk.number size) }
    ensures state { IfOk result (λ w. w.state ≡ state_after walk.state size) }
    ensures number { IfOk result (λ w. w.number ≡ number_after_cells walk.state walk.number size) }
    ensures most { IfOk result (λ w. w.number ≤ walk.number + size) }
{
    let mut state = walk.state;
    let mut number = walk.number;
    'cells: for column in 0..size {
        state = next(state);
        let r = drawn(state);
        add_item(out, r, place(column, r / 4), place(row, r / 404), number)?;
        number = number_behind(r, number);
    }
    Ok(Walk { state, number })
}
