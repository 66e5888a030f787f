// What the brush's centre is kept out of: the grid points strictly within a wall or a need, grown by the brush.
ghost use Rattle.std.specs.Prelude.{◌≡◌, ◌⊎◌, ◌↔◌, ◌≤◌, ◌^◌, ℤ, map, IfOk};
ghost use Rattle.std.specs.List.{All};
ghost use Rattle.plane.specs.Plane.{StrictlyWithin};
ghost use Rattle.grid_sets.specs.Points.{HasPoint};
ghost use Rattle.octagon.specs.Room.{IsAround};
ghost use Rattle.knockouts.specs.Obstacles.{need_of, IsNeedInRange};
ghost use Rattle.centres.specs.Centres.{grown_wall, grown_need, IsBarredAt};
ghost use Rattle.zone_fill.specs.Inner.Steps.{AreCutsFor};

use grid_num::Memory;
use kept_copper::grown;
use knockouts::Need;
use octagon::Oct;
use std::alloc::Global;

/// Octagons of just the grid points that a wall or a need bars as centres of the brush of the radius.
///
/// # Errors
///
/// Want of memory.
pub fn cuts(alloc: Global, walls: &[Oct], needs: &[Need], radius: u32) -> Result<Vec<Oct>, Memory>
    requires walls { All (IsAround (2 ^ 31)) walls.now }
    requires needs { All IsNeedInRange (map need_of needs.now) }
    requires radius { radius ≤ 2 ^ 31 }
    ensures { IfOk result
        (λ cuts. (x y : ℤ) → HasPoint cuts.items x y ↔ IsBarredAt radius walls.now (map need_of needs.now) x y) }
{
    let mut cuts = by_walls(alloc, walls, radius)?;
    let mut more = by_needs(alloc, needs, radius)?;
    cuts.append(&mut more)?;
    Ok(cuts)
}

fn by_walls(alloc: Global, walls: &[Oct], radius: u32) -> Result<Vec<Oct>, Memory>
    requires walls { All (IsAround (2 ^ 31)) walls.now }
    requires radius { radius ≤ 2 ^ 31 }
    ensures { IfOk result (λ cuts. AreCutsFor (λ w x y. StrictlyWithin (grown_wall radius w) x y) walls.now cuts.items) }
{
    let mut cuts = Vec::new(alloc);
    'each: for wall in walls {
        add_inside(&mut cuts, &grown(wall, radius))?;
    }
    Ok(cuts)
}

fn by_needs(alloc: Global, needs: &[Need], radius: u32) -> Result<Vec<Oct>, Memory>
    requires needs { All IsNeedInRange (map need_of needs.now) }
    requires radius { radius ≤ 2 ^ 31 }
    ensures { IfOk result
        (λ cuts. AreCutsFor (λ n x y. StrictlyWithin (grown_need radius (need_of n)) x y) needs.now cuts.items) }
{
    let mut cuts = Vec::new(alloc);
    'each: for need in needs {
        add_inside(&mut cuts, &grown_need(need, radius))?;
    }
    Ok(cuts)
}

// The octagon that is kept away from, grown by the need and by the brush.
fn grown_need(need: &Need, radius: u32) -> Oct
    requires need { IsNeedInRange (need_of need.now) }
    requires radius { radius ≤ 2 ^ 31 }
    ensures { result ≡ grown_need radius (need_of need.now) }
{
    need.oct.sum(&Oct::ball(need.need)).sum(&Oct::ball(radius))
}

// Adds the grid points strictly inside the octagon.
fn add_inside(cuts: &mut Vec<Oct>, oct: &Oct) -> Result<(), Memory>
    ensures { IfOk result (λ _. (x y : ℤ) → HasPoint cuts.new.items x y ↔ (HasPoint cuts.old.items x y ⊎ StrictlyWithin oct.now x y)) }
{
    if let Some(inside) = oct.opened() {
        cuts.push(inside)?;
    }
    Ok(())
}
