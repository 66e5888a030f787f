// Which spokes the fill may have.
ghost use Rattle.std.specs.Prelude.{◌≡◌, ◌↔◌, ◌≤ℤ◌, [], ◌∷◌, ◌++◌, cond, map, IsTrue, IfOk, Any};
ghost use Rattle.std.specs.List.{All};
ghost use Rattle.plane.specs.Plane.{IsTight, AreNear, IsMeeting};
ghost use Rattle.knockouts.specs.Obstacles.{need_of, IsNeedInRange};
ghost use Rattle.fills.specs.Fills.{AreThose};
ghost use Rattle.components.specs.Kept.{IsMet};
ghost use Rattle.centres.specs.Walls.{EntersNone};
ghost use Rattle.centres.specs.Needs.{KeepsAll, LiesIn};
ghost use Rattle.centres.specs.Laws.{IsSpokeSized};
ghost use Rattle.zone_fill.specs.Inner.Live.{IsFree};

use grid_num::Memory;
use knockouts::Need;
use octagon::Oct;
use std::alloc::Global;

/// Those of the spokes, in their order, that lie in the frame, enter no wall, keep all needs and are met by one of the
/// blots. Spokes are rectangles at least 500 units wide and high.
///
/// # Errors
///
/// Want of memory.
pub fn live_spokes(
    alloc: Global,
    spokes: &[Oct],
    frame: &Oct,
    walls: &[Oct],
    bars: &[Need],
    blots: &[Oct],
) -> Result<Vec<Oct>, Memory>
    requires wide { All IsSpokeSized spokes.now }
    requires walls { All IsTight walls.now }
    requires bars { All IsNeedInRange (map need_of bars.now) }
    ensures { IfOk result (λ v. AreThose (λ o. IsFree frame.now walls.now (map need_of bars.now) o × IsMet blots.now o)
        spokes.now v.items) }
{
    let mut live = Vec::new(alloc);
    'each: for spoke in spokes {
        let wanted = is_live(spoke, frame, walls, bars, blots);
        push_if(&mut live, spoke, wanted)?;
    }
    Ok(live)
}

/// Those of the octagons, in their order, that are met by one of the blots.
///
/// # Errors
///
/// Want of memory.
pub fn met_octs(alloc: Global, octs: &[Oct], blots: &[Oct]) -> Result<Vec<Oct>, Memory>
    ensures { IfOk result (λ v. AreThose (IsMet blots.now) octs.now v.items) }
{
    let mut met = Vec::new(alloc);
    'each: for oct in octs {
        push_if(&mut met, oct, is_met(oct, blots))?;
    }
    Ok(met)
}

// Adds the octagon where it is wanted.
fn push_if(octs: &mut Vec<Oct>, oct: &Oct, wanted: bool) -> Result<(), Memory>
    ensures { IfOk result (λ _. octs.new.items ≡ cond wanted (octs.old.items ++ oct.now ∷ []) octs.old.items) }
{
    if wanted {
        octs.push(*oct)?;
    }
    Ok(())
}

// Whether the rectangle lies in the frame, enters no wall, keeps all needs and is met.
fn is_live(oct: &Oct, frame: &Oct, walls: &[Oct], bars: &[Need], blots: &[Oct]) -> bool
    requires wide { IsSpokeSized oct.now }
    requires walls { All IsTight walls.now }
    requires bars { All IsNeedInRange (map need_of bars.now) }
    ensures { IsTrue result ↔ (IsFree frame.now walls.now (map need_of bars.now) oct.now × IsMet blots.now oct.now) }
{
    let free = is_free(oct, frame, walls, bars);
    let met = is_met(oct, blots);
    free && met
}

// Whether the rectangle lies in the frame, enters no wall and keeps all needs.
fn is_free(oct: &Oct, frame: &Oct, walls: &[Oct], bars: &[Need]) -> bool
    requires wide { IsSpokeSized oct.now }
    requires walls { All IsTight walls.now }
    requires bars { All IsNeedInRange (map need_of bars.now) }
    ensures { IsTrue result ↔ IsFree frame.now walls.now (map need_of bars.now) oct.now }
{
    let inside = lies_in(oct, frame);
    let beside = enters_none(oct, walls);
    let clear = keeps_all(oct, bars);
    inside && beside && clear
}

// Whether all points of the octagon are in the frame.
fn lies_in(oct: &Oct, frame: &Oct) -> bool
    ensures { IsTrue result ↔ LiesIn oct.now frame.now }
{
    let x = is_inner(oct.x0(), oct.x1(), frame.x0(), frame.x1());
    let y = is_inner(oct.y0(), oct.y1(), frame.y0(), frame.y1());
    let s = is_inner(oct.s0(), oct.s1(), frame.s0(), frame.s1());
    let d = is_inner(oct.d0(), oct.d1(), frame.d0(), frame.d1());
    all_four(x, y, s, d)
}

// Whether the one range lies in the other.
fn is_inner(low: i64, high: i64, least: i64, most: i64) -> bool
    ensures { IsTrue result ↔ ((least ≤ℤ low) × (high ≤ℤ most)) }
{
    least <= low && high <= most
}

// One test for each direction, so that no join nests.
fn all_four(x: bool, y: bool, s: bool, d: bool) -> bool
    ensures { IsTrue result ↔ (IsTrue x × IsTrue y × IsTrue s × IsTrue d) }
{
    x && y && s && d
}

// Whether no wall has a point strictly inside the rectangle.
fn enters_none(oct: &Oct, walls: &[Oct]) -> bool
    requires wide { IsSpokeSized oct.now }
    requires walls { All IsTight walls.now }
    ensures { IsTrue result ↔ EntersNone walls.now oct.now }
{
    match oct.opened() {
        Some(inner) => is_apart(&inner, walls),
        None => true,
    }
}

// Whether the octagon of inner points is near none of the walls.
fn is_apart(inner: &Oct, walls: &[Oct]) -> bool
    ensures { IsTrue result ↔ All (λ w. AreNear 1 inner.now w → ⊥) walls.now }
{
    walls.iter().all(|wall| inner.apart(wall, 1))
}

// Whether the octagon keeps each of the needs.
fn keeps_all(oct: &Oct, needs: &[Need]) -> bool
    requires { All IsNeedInRange (map need_of needs.now) }
    ensures { IsTrue result ↔ KeepsAll (map need_of needs.now) oct.now }
{
    keeps_each(oct, needs)
}

// The same, need by need.
fn keeps_each(oct: &Oct, needs: &[Need]) -> bool
    requires { All IsNeedInRange (map need_of needs.now) }
    ensures { IsTrue result ↔ All (λ n. AreNear n.need oct.now n.oct → ⊥) needs.now }
{
    'each: for need in needs {
        if !keeps(oct, need) {
            return false;
        }
    }
    true
}

// Whether the octagon keeps the need.
fn keeps(oct: &Oct, need: &Need) -> bool
    requires { IsNeedInRange (need_of need.now) }
    ensures { IsTrue result ↔ (AreNear need.now.need oct.now need.now.oct → ⊥) }
{
    oct.apart(&need.oct, need.need)
}

// Whether one of the blots meets the octagon.
fn is_met(oct: &Oct, blots: &[Oct]) -> bool
    ensures { IsTrue result ↔ IsMet blots.now oct.now }
{
    meets_some(oct, blots)
}

// The same, blot by blot.
fn meets_some(oct: &Oct, blots: &[Oct]) -> bool
    ensures { IsTrue result ↔ Any (λ l. IsMeeting l oct.now) blots.now }
{
    blots.iter().any(|blot| blot.meets(oct))
}
