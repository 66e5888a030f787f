// Octagons taken away from others slab by slab, from top to bottom, so that each is tried against what is near.
ghost use Rattle.std.specs.Prelude.{◌≡◌, ◌↔◌, ◌++◌, ◌∷◌, [], ◌<ℤ◌, cond, IsTrue, IfOk};
ghost use Rattle.grid_sets.specs.Points.{AreApart};
ghost use Rattle.scan_rows.specs.Sets.{IsWithoutAll};
ghost use Rattle.scan_rows.specs.Inner.Slabs.{IsPartAdded, ArePartsOf, AgreeWhere, IsLeftAdded};

use crate::apart::without_each;
use crate::cut::{Side, add, cut_off, eight_of, inside, limit_of};
use grid_num::Memory;
use octagon::Oct;
use std::alloc::Global;

// What is left of the octagons without all the others.
pub(crate) fn without_all(alloc: Global, octs: &[Oct], others: &[Oct]) -> Result<Vec<Oct>, Memory>
    requires { AreApart octs.now }
    ensures { IfOk result (λ rest. IsWithoutAll others.now octs.now rest.items) }
{
    let marks = limits(alloc, others)?;
    let mut done = Vec::new(alloc);
    let mut left = Vec::from_slice(alloc, octs)?;
    let mut later = Vec::from_slice(alloc, others)?;
    'marks: for mark in &marks {
        let slab = parts_above(alloc, &left, mark)?;
        let near = begun_above(alloc, &later, mark)?;
        add_left(alloc, &mut done, &slab, &near)?;
        left = parts_from(alloc, &left, mark)?;
        later = ended_from(alloc, &later, mark)?;
    }
    add_left(alloc, &mut done, &left, &later)?;
    Ok(done)
}

// Octagons at whose tops slabs end. Any would do; by every sixteenth from the top few are near in each slab.
fn limits(alloc: Global, octs: &[Oct]) -> Result<Vec<Oct>, Memory> {
    let mut sorted = Vec::from_slice(alloc, octs)?;
    sorted.sort_by_key(|oct| oct.y0())?;
    let mut marks = Vec::new(alloc);
    'marks: for (k, oct) in sorted.iter().enumerate() {
        if k % 16 == 15 {
            marks.push(*oct)?;
        }
    }
    Ok(marks)
}

// Adds what is left of the octagons without those that are near.
fn add_left(alloc: Global, done: &mut Vec<Oct>, octs: &[Oct], near: &[Oct]) -> Result<(), Memory>
    requires { AreApart octs.now }
    ensures { IfOk result (λ _. IsLeftAdded near.now octs.now done.old.items done.new.items) }
{
    let mut rest = without_each(alloc, octs, near)?;
    done.append(&mut rest)?;
    Ok(())
}

// The parts of the octagons above the top of the mark.
fn parts_above(alloc: Global, octs: &[Oct], mark: &Oct) -> Result<Vec<Oct>, Memory>
    requires { AreApart octs.now }
    ensures { IfOk result (λ v. ArePartsOf (λ y. y <ℤ mark.now.y0) octs.now v.items) }
{
    let mut parts = Vec::new(alloc);
    'each: for oct in octs {
        add_upper(&mut parts, oct, mark)?;
    }
    Ok(parts)
}

// The parts of the octagons from the top of the mark on.
fn parts_from(alloc: Global, octs: &[Oct], mark: &Oct) -> Result<Vec<Oct>, Memory>
    requires { AreApart octs.now }
    ensures { IfOk result (λ v. ArePartsOf (λ y. ¬ (y <ℤ mark.now.y0)) octs.now v.items) }
{
    let mut parts = Vec::new(alloc);
    'each: for oct in octs {
        add_lower(&mut parts, oct, mark)?;
    }
    Ok(parts)
}

fn add_upper(parts: &mut Vec<Oct>, oct: &Oct, mark: &Oct) -> Result<(), Memory>
    ensures { IfOk result (λ _. IsPartAdded (λ y. y <ℤ mark.now.y0) oct.now parts.old.items parts.new.items) }
{
    let _lower = cut_off(parts, &eight_of(oct), mark, Side::Top)?;
    Ok(())
}

fn add_lower(parts: &mut Vec<Oct>, oct: &Oct, mark: &Oct) -> Result<(), Memory>
    ensures { IfOk result (λ _. IsPartAdded (λ y. ¬ (y <ℤ mark.now.y0)) oct.now parts.old.items parts.new.items) }
{
    let whole = eight_of(oct);
    let lower = inside(&whole, Side::Top, limit_of(mark, Side::Top));
    add(parts, &lower)?;
    Ok(())
}

// Those that begin above the top of the mark: the others have no point there.
fn begun_above(alloc: Global, octs: &[Oct], mark: &Oct) -> Result<Vec<Oct>, Memory>
    ensures { IfOk result (λ v. AgreeWhere (λ y. y <ℤ mark.now.y0) octs.now v.items) }
{
    let mut begun = Vec::new(alloc);
    'each: for oct in octs {
        let wanted = is_less(oct.y0(), mark.y0());
        push_if(&mut begun, oct, wanted)?;
    }
    Ok(begun)
}

// Those that don't end above the top of the mark: the others have no point from there on.
fn ended_from(alloc: Global, octs: &[Oct], mark: &Oct) -> Result<Vec<Oct>, Memory>
    ensures { IfOk result (λ v. AgreeWhere (λ y. ¬ (y <ℤ mark.now.y0)) octs.now v.items) }
{
    let mut ended = Vec::new(alloc);
    'each: for oct in octs {
        let passed = is_less(oct.y1(), mark.y0());
        push_if(&mut ended, oct, !passed)?;
    }
    Ok(ended)
}

fn is_less(low: i64, high: i64) -> bool
    ensures { IsTrue result ↔ (low <ℤ high) }
{
    low < high
}

// Adds the octagon where it is wanted.
fn push_if(octs: &mut Vec<Oct>, oct: &Oct, wanted: bool) -> Result<(), Memory>
    ensures { IfOk result (λ _. octs.new.items ≡ cond wanted (octs.old.items ++ oct.now ∷ []) octs.old.items) }
{
    if wanted {
        octs.push(*oct)?;
    }
    Ok(())
}
