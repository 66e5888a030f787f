// Where the brush may stand.
ghost use Rattle.std.specs.Prelude.{◌≡◌, ◌↔◌, ◌≤◌, ◌^◌, ℤ, map, IfOk};
ghost use Rattle.std.specs.List.{All};
ghost use Rattle.plane.specs.Plane.{Within};
ghost use Rattle.grid_sets.specs.Points.{HasPoint};
ghost use Rattle.octagon.specs.Bounded.{bounds_of, AreInRange};
ghost use Rattle.octagon.specs.Room.{IsAround};
ghost use Rattle.knockouts.specs.Obstacles.{need_of, IsNeedInRange};
ghost use Rattle.centres.specs.Centres.{shrunk, IsBarredAt};

use crate::cuts::cuts;
use grid_num::Memory;
use knockouts::Need;
use octagon::Oct;
use scan_rows::Rows;
use std::alloc::Global;

/// The grid points at which the brush of the radius lies in the frame, and which neither a wall nor a need bars.
///
/// # Errors
///
/// Want of memory.
pub fn allowed_centres(
    alloc: Global,
    frame: &Oct,
    walls: &[Oct],
    needs: &[Need],
    radius: u32,
) -> Result<Rows, Memory>
    requires frame { IsAround (2 ^ 31) frame.now }
    requires walls { All (IsAround (2 ^ 31)) walls.now }
    requires needs { All IsNeedInRange (map need_of needs.now) }
    requires radius { radius ≤ 2 ^ 31 }
    ensures { IfOk result (λ rows. (x y : ℤ) → HasPoint rows x y
        ↔ (Within (shrunk frame.now radius) x y × (IsBarredAt radius walls.now (map need_of needs.now) x y → ⊥))) }
{
    let cuts = cuts(alloc, walls, needs, radius)?;
    let mut rows = shrunk(alloc, frame, radius)?;
    rows.minus_all(&cuts)?;
    Ok(rows)
}

// The grid points at which the brush lies in the frame.
fn shrunk(alloc: Global, frame: &Oct, radius: u32) -> Result<Rows, Memory>
    requires frame { IsAround (2 ^ 31) frame.now }
    requires radius { radius ≤ 2 ^ 31 }
    ensures { IfOk result (λ rows. (x y : ℤ) → HasPoint rows x y ↔ Within (shrunk frame.now radius) x y) }
{
    match Oct::of_bounds(shrunk_bounds(frame, radius)) {
        Some(rest) => {
            let rows = Rows::of_oct(alloc, &rest)?;
            Ok(rows)
        }
        None => Ok(Rows::empty(alloc)),
    }
}

// The bounds of the frame, each moved in by as far as the brush reaches.
fn shrunk_bounds(frame: &Oct, radius: u32) -> [i64; 8]
    requires frame { IsAround (2 ^ 31) frame.now }
    requires radius { radius ≤ 2 ^ 31 }
    ensures value { bounds_of result ≡ shrunk frame.now radius }
    ensures range { AreInRange (bounds_of result) }
{
    let brush = Oct::ball(radius);
    let straight = brush.x1();
    let slanted = brush.s1();
    [
        frame.x0() + straight,
        frame.x1() - straight,
        frame.y0() + straight,
        frame.y1() - straight,
        frame.s0() + slanted,
        frame.s1() - slanted,
        frame.d0() + slanted,
        frame.d1() - slanted,
    ]
}
