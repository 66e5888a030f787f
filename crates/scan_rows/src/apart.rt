// Lists of octagons that are apart: no grid point is in two of them.
ghost use Rattle.std.specs.Prelude.{IfOk};
ghost use Rattle.grid_sets.specs.Points.{AreApart};
ghost use Rattle.scan_rows.specs.Sets.{IsWithout, IsWithoutAll, IsJoined, IsRestAdded};

use crate::cut::add_beside;
use grid_num::Memory;
use octagon::Oct;
use std::alloc::Global;

// What is left of the octagons without the one.
pub(crate) fn without(alloc: Global, octs: &[Oct], oct: &Oct) -> Result<Vec<Oct>, Memory>
    requires { AreApart octs.now }
    ensures { IfOk result (λ rest. IsWithout oct.now octs.now rest.items) }
{
    let mut rest = Vec::new(alloc);
    'octs: for own in octs {
        add_rest(&mut rest, own, oct)?;
    }
    Ok(rest)
}

// What is left of the octagons without all the others, each tried against all.
pub(crate) fn without_each(alloc: Global, octs: &[Oct], others: &[Oct]) -> Result<Vec<Oct>, Memory>
    requires { AreApart octs.now }
    ensures { IfOk result (λ rest. IsWithoutAll others.now octs.now rest.items) }
{
    let mut rest = Vec::from_slice(alloc, octs)?;
    'others: for other in others {
        rest = without(alloc, &rest, other)?;
    }
    Ok(rest)
}

// The octagons with the others added, each after what is there of it is taken away.
pub(crate) fn joined(alloc: Global, octs: &[Oct], others: &[Oct]) -> Result<Vec<Oct>, Memory>
    requires { AreApart octs.now }
    ensures { IfOk result (λ all. IsJoined others.now octs.now all.items) }
{
    let mut all = Vec::from_slice(alloc, octs)?;
    'others: for other in others {
        all = without(alloc, &all, other)?;
        all.push(*other)?;
    }
    Ok(all)
}

// Adds what is left of an octagon without another. One that doesn't meet the other is kept whole.
fn add_rest(out: &mut Vec<Oct>, own: &Oct, other: &Oct) -> Result<(), Memory>
    ensures { IfOk result (λ _. IsRestAdded own.now other.now out.old.items out.new.items) }
{
    if own.meets(other) {
        add_beside(out, own, other)
    } else {
        out.push(*own)?;
        Ok(())
    }
}
