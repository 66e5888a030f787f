//! The union of octagons, cut into strips at the rows of their corners and crossings.
//! The layer above uses `Sheet`: its strips, which cover exactly the union, and its area.
//! Octagons are in units of 2 nm, strips in nanometres. x grows to the right and y downward.
#![tactic(auto)]

ghost use Rattle.std.specs.Prelude.{◌≡◌, ◌↔◌, pos, IfOk, IsTrue};
ghost use Rattle.std.specs.List.{All};
ghost use Rattle.strips.specs.Area.{area2_of};
ghost use Rattle.sheet_union.specs.Laws.{StripsCoverLaw};
ghost use Rattle.sheet_union.specs.Near.{IsSheet};
ghost use Rattle.strips.specs.Strips.{HasInside, AreStrips, AreCovering, in_nanometres};

mod area;
mod crossing;
mod merge;
mod rows;
mod run;
mod sweep;

use crate::area::area2_of;
use crate::crossing::all;
use crate::rows::cut_rows;
use crate::sweep::{from_top, swept};
use grid_num::Memory;
use octagon::Oct;
use std::alloc::Global;
use std::marker::Model;
pub use strips::Strip;

/// Whether the octagon has points strictly inside: whether it is neither a point nor a line.
pub fn has_inside(oct: &Oct) -> bool
    ensures { IsTrue result ↔ HasInside oct.now }
{
    all(
        oct.x0() < oct.x1(),
        oct.y0() < oct.y1(),
        oct.s0() < oct.s1(),
        oct.d0() < oct.d1(),
    )
}

/// Whatever strips are those of octagons with points strictly inside, they cover exactly the union.
pub fn cover_law()
    ensures { StripsCoverLaw }
{}

/// The union of octagons. Contracts see it as the list of its strips.
#[derive(Drop)]
pub struct Sheet {
    strips: Vec<Strip>,
}

impl Model for Sheet {
    ghost use Rattle.std.specs.Prelude.{List};
    ghost use Rattle.strips.specs.declared.Strip.{Strip};
    ghost use Rattle.sheet_union.specs.Near.{IsSheet};

    ghost Value = { List Strip };

    ghost view = { λ a. a.strips.items };

    ghost invariant = { λ a. IsSheet a.strips.items };
}

impl Sheet {
    /// The union of the octagons, each of which has points strictly inside: neither a point nor a line. Octagons may overlap.
    ///
    /// # Errors
    ///
    /// Refuses for want of memory alone.
    pub fn of(alloc: Global, octs: &[Oct]) -> Result<Sheet, Memory>
        requires { All (λ b. HasInside b) octs.now }
        ensures strips { IfOk result (λ sheet. AreStrips (in_nanometres octs.now) sheet) }
        ensures cover { IfOk result (λ sheet. AreCovering (in_nanometres octs.now) sheet) }
    {
        let sorted = from_top(alloc, octs)?;
        let rows = cut_rows(alloc, &sorted)?;
        let strips = swept(alloc, &sorted, &rows)?;
        Ok(Sheet { strips })
    }

    /// The strips of the union, by top and then from left to right, in nanometres. It also hands out what every sheet is, so
    /// that a caller can prove ranges.
    pub fn strips(&self) -> &[Strip]
        ensures value { result.now ≡ self.now }
        ensures sheet { IsSheet self.now }
    {
        self.strips.as_slice()
    }

    /// Twice the area of the union, in square nanometres: the sum, over the strips, of their heights times both their widths.
    pub fn area2(&self) -> u128
        ensures { pos result ≡ area2_of self.now }
    {
        area2_of(self.strips.as_slice())
    }
}
