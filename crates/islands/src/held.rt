// Which octagons are held in place, each together with all of its part.
ghost use Rattle.std.specs.Prelude.{◌≡◌, ◌↔◌, ◌⊎◌, ℕ, ◌<◌, true, false, length, get_or, set, IfOk, IsTrue, Any};
ghost use Rattle.std.specs.List.{All};
ghost use Rattle.plane.specs.Plane.{IsMeeting};
ghost use Rattle.octagon.specs.Room.{IsAround};
ghost use Rattle.islands.specs.Parts.{AreParts};
ghost use Rattle.islands.specs.Held.{IsTouching, IsHeldDirectly, IsHeld, IsAnchorInRoom};
ghost use Rattle.islands.specs.Inner.Marks.{AreMarks};

use crate::edges::either;
use copper_shape::Shape;
use grid_num::Memory;
use octagon::Oct;
use std::alloc::Global;

/// For each octagon whether its part is held in place: some octagon of it meets a live spoke, or is touched by an anchor's
/// copper. Labels are those that `parts` gives. Octagons lie within 300,000,000 units of 0.
///
/// # Errors
///
/// Want of memory.
pub fn kept(
    alloc: Global,
    octs: &[Oct],
    labels: &[u32],
    anchors: &[Shape],
    live: &[Oct],
) -> Result<Vec<bool>, Memory>
    requires parts { AreParts octs.now labels.now }
    requires room { All (IsAround 300000000) octs.now }
    requires anchors { All IsAnchorInRoom anchors.now }
    ensures count { IfOk result (λ kept. length kept.items ≡ length octs.now) }
    ensures held { IfOk result (λ kept. (k : ℕ) → k < length octs.now
        → (get_or kept.items k false ≡ true) ↔ IsHeld octs.now anchors.now live.now k) }
{
    let marks = marked(alloc, octs, labels, anchors, live)?;
    let mut kept = Vec::new(alloc);
    'each: for label in labels {
        kept.push(marks[*label as usize])?;
    }
    Ok(kept)
}

// The labels of the octagons that are held by themselves.
fn marked(
    alloc: Global,
    octs: &[Oct],
    labels: &[u32],
    anchors: &[Shape],
    live: &[Oct],
) -> Result<Vec<bool>, Memory>
    requires parts { AreParts octs.now labels.now }
    requires room { All (IsAround 300000000) octs.now }
    requires anchors { All IsAnchorInRoom anchors.now }
    ensures { IfOk result (λ marks. AreMarks octs.now labels.now anchors.now live.now (length octs.now) marks.items) }
{
    let mut marks = vec![in alloc; false; octs.len()]?;
    'each: for k in 0..octs.len() {
        if is_new(&marks, labels[k], &octs[k], anchors, live) {
            mark(&mut marks, labels[k]);
        }
    }
    Ok(marks)
}

// Whether the octagon is held by itself, and its label not marked yet.
fn is_new(marks: &[bool], label: u32, oct: &Oct, anchors: &[Shape], live: &[Oct]) -> bool
    requires label { label < length marks.now }
    requires room { IsAround 300000000 oct.now }
    requires anchors { All IsAnchorInRoom anchors.now }
    ensures new { IsTrue result → IsHeldDirectly anchors.now live.now oct.now }
    ensures old { IsTrue result ⊎ ((get_or marks.now label false ≡ true) ⊎ (IsHeldDirectly anchors.now live.now oct.now → ⊥)) }
{
    if marks[label as usize] {
        return false;
    }
    is_held(oct, anchors, live)
}

fn mark(marks: &mut Vec<bool>, label: u32)
    requires { label < length marks.old.items }
    ensures { marks.new.items ≡ set marks.old.items label true }
{
    marks[label as usize] = true;
}

// Whether a live spoke meets the octagon, or an anchor touches it.
fn is_held(oct: &Oct, anchors: &[Shape], live: &[Oct]) -> bool
    requires room { IsAround 300000000 oct.now }
    requires anchors { All IsAnchorInRoom anchors.now }
    ensures { IsTrue result ↔ IsHeldDirectly anchors.now live.now oct.now }
{
    let met = is_met(oct, live);
    let touched = is_touched(oct, anchors);
    either(met, touched)
}

// Whether one of the octagons meets it.
fn is_met(oct: &Oct, live: &[Oct]) -> bool
    ensures { IsTrue result ↔ Any (λ l. IsMeeting l oct.now) live.now }
{
    live.iter().any(|spoke| spoke.meets(oct))
}

// Whether the copper of one of the shapes touches it.
fn is_touched(oct: &Oct, anchors: &[Shape]) -> bool
    requires room { IsAround 300000000 oct.now }
    requires anchors { All IsAnchorInRoom anchors.now }
    ensures { IsTrue result ↔ Any (λ s. IsTouching s oct.now) anchors.now }
{
    'each: for shape in anchors {
        if touches(shape, oct) {
            return true;
        }
    }
    false
}

// Whether the copper touches the octagon.
fn touches(shape: &Shape, oct: &Oct) -> bool
    requires room { IsAround 300000000 oct.now }
    requires anchor { IsAnchorInRoom shape.now }
    ensures { IsTrue result ↔ IsTouching shape.now oct.now }
{
    shape.touches(&Shape::of_oct(oct))
}
