// What no copper may enter: octagons outside a zone's outline, and in rule areas. Flat ones bar nothing.
ghost use Rattle.std.specs.Prelude.{◌≡◌, ◌<◌, ◌^◌, ◌++◌, ◌&&◌, [], int_lt, IfOk};
ghost use Rattle.std.specs.List.{All};
ghost use Rattle.slabs.specs.Outside.{IsFrame};
ghost use Rattle.octagon.specs.Room.{IsAround};
ghost use Rattle.centres.specs.Walls.{AreWallsOf, is_stout, stout_of};
ghost use Rattle.zone_fill.specs.Inner.Steps.{AddsArea};

use board_language::Area;
use grid_num::Memory;
use knockouts::has_layer;
use octagon::Oct;
use outline_slab::Outline;
use std::alloc::Global;

/// The walls of a zone with the outline, on the layer, as far as the frame goes. As the frame, they lie within 2 ^ 31
/// units of 2 nm from 0.
///
/// # Errors
///
/// Want of memory.
pub fn walls_of(
    alloc: Global,
    outline: &Outline,
    layer: u8,
    areas: &[Area],
    frame: &Oct,
) -> Result<Vec<Oct>, Memory>
    requires layer { layer < 32 }
    requires frame { IsFrame outline.now frame.now }
    requires near { IsAround (2 ^ 31) frame.now }
    ensures walls { IfOk result (λ v. AreWallsOf outline.now layer areas.now frame.now v.items) }
    ensures room { IfOk result (λ v. All (IsAround (2 ^ 31)) v.items) }
{
    let mut walls = outside(alloc, outline, layer, frame)?;
    'each: for area in areas {
        walls = with_area(alloc, walls, layer, area)?;
    }
    Ok(walls)
}

// Those outside the outline.
fn outside(alloc: Global, outline: &Outline, layer: u8, frame: &Oct) -> Result<Vec<Oct>, Memory>
    requires frame { IsFrame outline.now frame.now }
    requires near { IsAround (2 ^ 31) frame.now }
    ensures walls { IfOk result (λ v. AreWallsOf outline.now layer [] frame.now v.items) }
    ensures room { IfOk result (λ v. All (IsAround (2 ^ 31)) v.items) }
{
    let octs = outline.outer(alloc, frame)?;
    let walls = with_stout(Vec::new(alloc), &octs)?;
    Ok(walls)
}

// With those in the rule area, if it is on the layer.
fn with_area(alloc: Global, walls: Vec<Oct>, layer: u8, area: &Area) -> Result<Vec<Oct>, Memory>
    requires layer { layer < 32 }
    requires room { All (IsAround (2 ^ 31)) walls.items }
    ensures walls { IfOk result (λ v. AddsArea layer area.now walls.items v.items) }
    ensures room { IfOk result (λ v. All (IsAround (2 ^ 31)) v.items) }
{
    if has_layer(area.layers, layer) {
        // These lie within half a metre of 0, and so do the octagons.
        let _ = area.outline.vertices();
        let octs = area.outline.inner(alloc)?;
        let more = with_stout(walls, &octs)?;
        return Ok(more);
    }
    Ok(walls)
}

// With those of the octagons that aren't flat.
fn with_stout(walls: Vec<Oct>, octs: &[Oct]) -> Result<Vec<Oct>, Memory>
    ensures { IfOk result (λ v. v.items ≡ walls.items ++ stout_of octs.now) }
{
    let mut all = walls;
    'each: for oct in octs {
        if is_stout(oct) {
            all.push(*oct)?;
        }
    }
    Ok(all)
}

// Whether no two opposite sides of the octagon lie on each other.
fn is_stout(oct: &Oct) -> bool
    ensures { result ≡ is_stout oct.now }
{
    let x = is_less(oct.x0(), oct.x1());
    let y = is_less(oct.y0(), oct.y1());
    let s = is_less(oct.s0(), oct.s1());
    let d = is_less(oct.d0(), oct.d1());
    are_all(x, y, s, d)
}

fn is_less(low: i64, high: i64) -> bool
    ensures { result ≡ int_lt low high }
{
    low < high
}

// One test for each direction, so that no join nests.
fn are_all(x: bool, y: bool, s: bool, d: bool) -> bool
    ensures { result ≡ (x && (y && (s && d))) }
{
    x && y && s && d
}
