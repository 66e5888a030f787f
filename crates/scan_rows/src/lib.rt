//! Finite sets of grid points with exact set operations, kept as octagons of which no two share a grid point.
//! The layer above sees a set through `HasPoint` alone: each call says which grid points it has, how many, or in what cells.
//! A coordinate is a unit of the grid (2 nm). x grows to the right and y downward.
#![tactic(auto)]

ghost use Rattle.std.specs.Prelude.{◌≡◌, ◌⊎◌, ◌↔◌, List, [], ℤ, IsTrue, IfOk, OnOk, OnErr};
ghost use Rattle.plane.specs.Plane.{Bounds, Within};
ghost use Rattle.grid_sets.specs.Points.{HasPoint, AreApart, IsCount};
ghost use Rattle.scan_runs.specs.Cells.{AreCellsOf, HasNoPoint};
ghost use Rattle.scan_rows.specs.Sets.{IsInSomeSet, LosesOct, LosesAll, GainsSets};

mod apart;
mod count;
mod cut;
mod slabs;

use crate::apart::{joined, without};
use crate::count::{count_of, has_point};
use crate::slabs::without_all;
use grid_num::{Memory, Point};
use octagon::Oct;
pub use scan_runs::Cell;
use scan_runs::cells_of;
use std::alloc::Global;
use std::marker::Model;

/// A finite set of grid points. Contracts see it as a list of octagons, and the set is what `HasPoint` says of that
/// list: the grid points that are in one of them.
#[derive(Drop)]
pub struct Rows {
    octs: Vec<Oct>,
    alloc: Global,
}

impl Model for Rows {
    ghost use Rattle.std.specs.Prelude.{List};
    ghost use Rattle.plane.specs.Plane.{Bounds};
    ghost use Rattle.grid_sets.specs.Points.{AreApart};

    ghost Value = { List Bounds };

    ghost view = { λ a. a.octs.items };

    ghost invariant = { λ a. AreApart a.octs.items };
}

impl Rows {
    /// The set without points.
    pub fn empty(alloc: Global) -> Rows
        ensures { (x y : ℤ) → ¬ (HasPoint result x y) }
    {
        Rows {
            octs: Vec::new(alloc),
            alloc,
        }
    }

    /// The grid points of the octagon. Refuses for want of memory alone.
    pub fn of_oct(alloc: Global, oct: &Oct) -> Result<Rows, Memory>
        ensures { IfOk result (λ rows. (x y : ℤ) → HasPoint rows x y ↔ Within oct.now x y) }
    {
        let mut octs = Vec::new(alloc);
        octs.push(*oct)?;
        Ok(Rows { octs, alloc })
    }

    /// The grid points that are in at least one of the octagons. Refuses for want of memory alone.
    pub fn of_octs(alloc: Global, octs: &[Oct]) -> Result<Rows, Memory>
        ensures { IfOk result (λ rows. (x y : ℤ) → HasPoint rows x y ↔ HasPoint octs.now x y) }
    {
        let octs = joined(alloc, &[], octs)?;
        Ok(Rows { octs, alloc })
    }

    /// The grid points of octagons of which no two have a common one, as cells have none. It costs a copy of the list. Refuses
    /// for want of memory alone.
    pub fn of_apart(alloc: Global, octs: &[Oct]) -> Result<Rows, Memory>
        requires { AreApart octs.now }
        ensures { IfOk result (λ rows. (x y : ℤ) → HasPoint rows x y ↔ HasPoint octs.now x y) }
    {
        let octs = Vec::from_slice(alloc, octs)?;
        Ok(Rows { octs, alloc })
    }

    /// Takes the octagon's grid points out of the set. A refusal is want of memory, and leaves the set as it was.
    pub fn minus(&mut self, oct: &Oct) -> Result<(), Memory>
        ensures ok { OnOk result (LosesOct oct.now self.old self.new) }
        ensures err { OnErr result (self.new ≡ self.old) }
    {
        let rest = without(self.alloc, self.kept(), oct)?;
        self.octs = rest;
        Ok(())
    }

    /// Takes the grid points of all the octagons out of the set. A refusal is want of memory, and leaves the set as it
    /// was.
    pub fn minus_all(&mut self, octs: &[Oct]) -> Result<(), Memory>
        ensures ok { OnOk result (LosesAll octs.now self.old self.new) }
        ensures err { OnErr result (self.new ≡ self.old) }
    {
        let rest = without_all(self.alloc, self.kept(), octs)?;
        self.octs = rest;
        Ok(())
    }

    /// Adds the points of all the sets. A refusal is want of memory, and leaves the set as it was.
    pub fn union_all(&mut self, others: &[Rows]) -> Result<(), Memory>
        ensures ok { OnOk result (GainsSets others.now self.old self.new) }
        ensures err { OnErr result (self.new ≡ self.old) }
    {
        let all = self.with_all(others)?;
        self.octs = all;
        Ok(())
    }

    /// Whether the set has the point. A point out of reach, beyond 2^40, is in no set.
    pub fn has(&self, p: Point) -> bool
        ensures { IsTrue result ↔ HasPoint self.now p.x p.y }
    {
        has_point(self.kept(), p)
    }

    /// How many points the set has.
    pub fn count(&self) -> u128
        ensures { IsCount (HasPoint self.now) result }
    {
        count_of(self.kept())
    }

    /// The cells of the set: the runs through the greedy bands of its rows, band by band from the top and in each band from
    /// left to right, with both numbers from 0. A set has one list of them, whatever was done to make it (`cells_law` of
    /// the crate below), and the set without points has none. Refuses for want of memory, or where there are 2^32
    /// bands or runs of a band.
    pub fn bands(&self) -> Result<Vec<Cell>, Memory>
        ensures cells { IfOk result (λ cells. AreCellsOf (HasPoint self.now) cells.items) }
        ensures none { IfOk result (λ cells. HasNoPoint self.now → cells.items ≡ []) }
    {
        cells_of(self.alloc, self.kept())
    }

    // The octagons that are kept: no two have a common grid point.
    fn kept(&self) -> &[Oct]
        ensures value { result.now ≡ self.now }
        ensures apart { AreApart result.now }
    {
        &self.octs
    }

    // The octagons of this set and of the others, made apart.
    fn with_all(&self, others: &[Rows]) -> Result<Vec<Oct>, Memory>
        ensures points { IfOk result (λ all. GainsSets others.now self.now all.items) }
        ensures apart { IfOk result (λ all. AreApart all.items) }
    {
        let mut all = Vec::from_slice(self.alloc, self.kept())?;
        'sets: for other in others {
            all = joined(self.alloc, &all, other.kept())?;
        }
        Ok(all)
    }
}
