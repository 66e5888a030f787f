// The level parts of the boundary: between neighbouring corners of a row, where copper is on just one side.
ghost use Rattle.std.specs.Prelude.{◌≡◌, ◌++◌, IfOk};
ghost use Rattle.sheet_union.specs.Near.{IsSheet};
ghost use Rattle.sheet_trace.specs.Inner.Levels.{begins_by, begins_under, ends_by, ends_over, has_below, has_above, level_between, level_parts};

use crate::edge::BoundaryEdge;
use grid_num::{Memory, Point};
use strips::Strip;

// Whether the strip's first row is above the corner's, or is that row and begins at the corner or on its left.
#[tactic(auto, unfolding(crate::specs::Inner::Levels::begins_by))]
fn begins_by(strip: &Strip, corner: Point) -> bool
    ensures { result ≡ begins_by corner strip.now }
{
    strip.top < corner.y || strip.top == corner.y && strip.left <= corner.x
}

// The same of its last row.
#[tactic(auto, unfolding(crate::specs::Inner::Levels::ends_by))]
fn ends_by(strip: &Strip, corner: Point) -> bool
    ensures { result ≡ ends_by corner strip.now }
{
    strip.bottom < corner.y || strip.bottom == corner.y && strip.left_end <= corner.x
}

// Whether the strip's first row goes on to the right of the corner.
#[tactic(auto, unfolding(crate::specs::Inner::Levels::begins_under))]
fn begins_under(strip: &Strip, corner: Point) -> bool
    ensures { result ≡ begins_under corner strip.now }
{
    strip.top == corner.y && strip.left <= corner.x && corner.x < strip.right
}

// Whether its last row does.
#[tactic(auto, unfolding(crate::specs::Inner::Levels::ends_over))]
fn ends_over(strip: &Strip, corner: Point) -> bool
    ensures { result ≡ ends_over corner strip.now }
{
    strip.bottom == corner.y && strip.left_end <= corner.x && corner.x < strip.right_end
}

// Whether there is copper just below the row, right of the corner: the last strip that begins by there has it, if any has.
fn has_below(strips: &[Strip], corner: Point) -> bool
    requires { IsSheet strips.now }
    ensures { result ≡ has_below corner strips.now }
{
    let place = strips.partition_point(|strip| begins_by(strip, corner));
    0 < place && begins_under(&strips[place - 1], corner)
}

// Whether there is copper just above the row, right of the corner.
fn has_above(strips: &[Strip], corner: Point) -> bool
    requires { IsSheet strips.now }
    ensures { result ≡ has_above corner strips.now }
{
    let place = strips.partition_point(|strip| ends_by(strip, corner));
    0 < place && ends_over(&strips[place - 1], corner)
}

// Adds the level part between two corners that follow one another, if there is one: to the right with copper below it, or to the left with
// copper above it.
#[tactic(auto, unfolding(crate::specs::Inner::Levels::level_between))]
fn put_level_part(
    edges: &mut Vec<BoundaryEdge>,
    strips: &[Strip],
    first: Point,
    second: Point,
) -> Result<(), Memory>
    requires { IsSheet strips.now }
    ensures { IfOk result (λ _. edges.new.items ≡ edges.old.items ++ level_between strips.now first second) }
{
    if first.y < second.y || second.x <= first.x {
        return Ok(());
    }
    let below = has_below(strips, first);
    let above = has_above(strips, first);
    if below && !above {
        edges.push(BoundaryEdge {
            start: first,
            finish: second,
        })?;
        return Ok(());
    }
    if above && !below {
        edges.push(BoundaryEdge {
            start: second,
            finish: first,
        })?;
    }
    Ok(())
}

/// Adds the level parts. The corners are listed from the top and in each row from the left. Refuses for want of memory alone.
pub fn put_level_parts(
    edges: &mut Vec<BoundaryEdge>,
    strips: &[Strip],
    corners: &[Point],
) -> Result<(), Memory>
    requires { IsSheet strips.now }
    ensures { IfOk result (λ _. edges.new.items ≡ edges.old.items ++ level_parts strips.now corners.now) }
{
    'each: for i in 1..corners.len() {
        put_level_part(edges, strips, corners[i - 1], corners[i])?;
    }
    Ok(())
}
