// The rows that cut the plane: those of all corners and of all crossings.
ghost use Rattle.std.specs.Prelude.{◌≡◌, ◌++◌, ◌<◌, ◌+◌, IfOk, drop};
ghost use Rattle.std.specs.List.{All};
ghost use Rattle.plane.specs.Plane.{IsOct};
ghost use Rattle.strips.specs.Strips.{in_nanometres};
ghost use Rattle.strips.specs.Inner.Sweep.{AreCutRows};
ghost use Rattle.sheet_union.specs.Inner.Crossings.{later_rows, cut_rows_of, all_rows};
ghost use Rattle.sheet_union.specs.Inner.Rows.{AreFromTop};

use crate::crossing::{put_crossings, put_half};
use grid_num::Memory;
use octagon::Oct;
use std::alloc::Global;

// Adds the rows of the crossings with octagons that begin no higher, and are listed from the top.
fn put_later(rows: &mut Vec<i64>, oct: &Oct, later: &[Oct]) -> Result<(), Memory>
    ensures { IfOk result (λ _. rows.new.items ≡ rows.old.items ++ later_rows oct.now later.now) }
{
    'each: for other in later {
        if oct.y1() < other.y0() {
            return Ok(());
        }
        put_crossings(rows, oct, other)?;
    }
    Ok(())
}

// Adds the rows of the octagon's corners, and of its crossings with later ones.
#[tactic(auto, unfolding(crate::specs::Inner::Crossings::cut_rows_of))]
fn put_rows_of(rows: &mut Vec<i64>, oct: &Oct, later: &[Oct]) -> Result<(), Memory>
    ensures rows { IfOk result (λ _. rows.new.items ≡ rows.old.items ++ cut_rows_of oct.now later.now) }
    ensures oct { IfOk result (λ _. IsOct oct.now) }
{
    rows.push(2 * oct.y0())?;
    rows.push(2 * oct.y1())?;
    put_half(rows, oct, oct)?;
    put_later(rows, oct, later)?;
    Ok(())
}

// The rows of all, as they are found.
fn found_rows(alloc: Global, octs: &[Oct]) -> Result<Vec<i64>, Memory>
    ensures rows { IfOk result (λ v. v.items ≡ all_rows octs.now) }
    ensures octs { IfOk result (λ _. All IsOct octs.now) }
{
    let mut rows = Vec::new(alloc);
    'each: for i in 0..octs.len() {
        put_rows_of(&mut rows, &octs[i], &octs[i + 1..])?;
    }
    Ok(rows)
}

/// The rows that cut, each once, from the top. Refuses for want of memory alone.
pub fn cut_rows(alloc: Global, octs: &[Oct]) -> Result<Vec<i64>, Memory>
    requires { AreFromTop octs.now }
    ensures rows { IfOk result (λ v. AreCutRows (in_nanometres octs.now) v.items) }
    ensures octs { IfOk result (λ _. All IsOct octs.now) }
{
    let mut rows = found_rows(alloc, octs)?;
    rows.sort_unstable();
    rows.dedup();
    Ok(rows)
}
