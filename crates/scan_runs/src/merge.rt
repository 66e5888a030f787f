// The runs of a stretch from its parts, from left to right: parts that touch are joined.
ghost use Rattle.std.specs.Prelude.{◌≡◌, ℕ, ◌^◌, ◌≤◌, ℤ, ◌≤ℤ◌, All, IfOk, IfSome, IsNone};
ghost use Rattle.std.specs.List.Sorted.{IsPermutation};
ghost use Rattle.scan_runs.specs.Inner.Parts.{IsSmallSlant, IsPart};
ghost use Rattle.scan_runs.specs.Inner.Walk.{begin_key, AreFromLeft, AreMerged, IsPut};

use crate::relation::{Relation, related};
use grid_num::Memory;
use grid_sets::{Move, Slant};
use std::alloc::Global;

// The maximal runs of the parts; None where two of the parts cross.
pub(crate) fn merged(
    alloc: Global,
    parts: Vec<Slant>,
    more: u64,
) -> Result<Option<Vec<Slant>>, Memory>
    requires parts { All (λ s. IsPart more s) parts.items }
    requires more { more ≤ 2 ^ 42 }
    ensures some { IfOk result (λ r. IfSome r (λ runs. AreMerged more parts.items runs.items)) }
    ensures none { IfOk result (λ r. IsNone r → 1 ≤ more) }
{
    walked(alloc, &from_left(parts), more)
}

// The parts by where they begin on the first row.
fn from_left(mut parts: Vec<Slant>) -> Vec<Slant>
    ensures order { IsPermutation parts.items result.items }
    ensures sorted { AreFromLeft result.items }
{
    parts.sort_unstable_by_key(|part| key_of(part));
    parts
}

// What the parts are sorted by: where they begin on the first row, and of those that begin alike how they move on, so that
// the first one begins before the others on each row.
fn key_of(part: &Slant) -> i128
    ensures { result ≡ begin_key part.now }
{
    let place = i128::from(part.from.place);
    match part.from.go {
        Move::Left => 3 * place - 1,
        Move::Still => 3 * place,
        Move::Right => 3 * place + 1,
    }
}

// The maximal runs of parts that are in order. The last run is held back, since the next part may touch it.
fn walked(alloc: Global, parts: &[Slant], more: u64) -> Result<Option<Vec<Slant>>, Memory>
    requires parts { All (λ s. IsPart more s) parts.now }
    requires order { AreFromLeft parts.now }
    requires more { more ≤ 2 ^ 42 }
    ensures some { IfOk result (λ r. IfSome r (λ runs. AreMerged more parts.now runs.items)) }
    ensures none { IfOk result (λ r. IsNone r → 1 ≤ more) }
{
    let mut runs = Vec::new(alloc);
    if parts.is_empty() {
        return Ok(Some(runs));
    }
    let mut held = parts[0];
    'parts: for i in 1..parts.len() {
        match put_next(&mut runs, held, parts[i], more)? {
            None => return Ok(None),
            Some(next) => held = next,
        }
    }
    runs.push(held)?;
    Ok(Some(runs))
}

// One part further: the run that is held back from now on. None where the part crosses the one held back so far.
fn put_next(
    out: &mut Vec<Slant>,
    held: Slant,
    part: Slant,
    more: u64,
) -> Result<Option<Slant>, Memory>
    requires held { IsSmallSlant held }
    requires part { IsSmallSlant part }
    requires left { held.from.place ≤ℤ part.from.place }
    requires more { more ≤ 2 ^ 42 }
    ensures some { IfOk result (λ r. IfSome r (IsPut more held part out.old.items out.new.items)) }
    ensures none { IfOk result (λ r. IsNone r → 1 ≤ more) }
{
    match related(held, part, more) {
        Relation::Before => {
            out.push(held)?;
            Ok(Some(part))
        }
        Relation::Joint(both) => Ok(Some(both)),
        Relation::Crossing => Ok(None),
    }
}
