// How a run lies to one that begins no further left on a stretch of rows.
ghost use Rattle.std.specs.Prelude.{ℕ, ◌^◌, ◌≤◌, ◌≤ℤ◌};
ghost use Rattle.scan_runs.specs.Inner.Parts.{IsSmallSlant, IsRelation};

use crate::ends::{greater_end, is_apart};
use grid_sets::Slant;

// How a run lies to the next one on each row of a stretch.
#[derive(Clone, Copy)]
pub(crate) enum Relation {
    Before,
    Joint(Slant),
    Crossing,
}

// How the one run lies to the other, which begins no further left on the first row.
pub(crate) fn related(a: Slant, b: Slant, more: u64) -> Relation
    requires a { IsSmallSlant a }
    requires b { IsSmallSlant b }
    requires left { a.from.place ≤ℤ b.from.place }
    requires more { more ≤ 2 ^ 42 }
    ensures { IsRelation more a b result }
{
    if is_apart(a.to, b.from, 2, more) {
        return Relation::Before;
    }
    if !is_apart(a.from, b.from, 0, more) {
        return Relation::Crossing;
    }
    if !is_apart(b.from, a.to, -1, more) {
        return Relation::Crossing;
    }
    match greater_end(a.to, b.to, more) {
        None => Relation::Crossing,
        Some(to) => Relation::Joint(Slant { from: a.from, to }),
    }
}
