// What the brush covers: an octagon grown by it.
ghost use Rattle.std.specs.Prelude.{◌≡◌, ◌≤◌, ◌^◌, map, IfOk};
ghost use Rattle.std.specs.List.{All};
ghost use Rattle.plane.specs.Plane.{sum_of, ball_of};
ghost use Rattle.octagon.specs.Room.{IsAround};
ghost use Rattle.fills.specs.Fills.{brushed};

use grid_num::Memory;
use octagon::Oct;
use std::alloc::Global;

/// The octagon grown by the brush of the radius: what the brush covers at its grid points.
pub fn grown(oct: &Oct, radius: u32) -> Oct
    requires oct { IsAround (2 ^ 31) oct.now }
    requires radius { radius ≤ 2 ^ 31 }
    ensures { result ≡ sum_of oct.now (ball_of radius) }
{
    oct.sum(&Oct::ball(radius))
}

/// Each of the octagons grown by the brush.
///
/// # Errors
///
/// Want of memory.
pub fn all_grown(alloc: Global, octs: &[Oct], radius: u32) -> Result<Vec<Oct>, Memory>
    requires octs { All (IsAround (2 ^ 31)) octs.now }
    requires radius { radius ≤ 2 ^ 31 }
    ensures { IfOk result (λ blots. blots.items ≡ map (brushed radius) octs.now) }
{
    let mut blots = Vec::with_capacity(alloc, octs.len())?;
    'each: for oct in octs {
        blots.push(grown(oct, radius))?;
    }
    Ok(blots)
}
