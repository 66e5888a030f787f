// The rows in which the sides of two octagons cross.
ghost use Rattle.std.specs.Prelude.{◌≡◌, ◌^◌, ◌&&◌, ◌++◌, IfOk};
ghost use Rattle.plane.specs.Narrow.{IsNearZero};
ghost use Rattle.sheet_union.specs.Inner.Crossings.{is_within_twice, is_on_oct, met, on_rising, on_falling, on_slants, upright_rows, rising_rows, half_rows, crossing_rows};

use grid_num::Memory;
use octagon::Oct;

// Whether the value in nanometres is between two bounds in units.
fn is_between(low: i64, value: i64, high: i64) -> bool
    requires low { IsNearZero (2 ^ 42) low }
    requires high { IsNearZero (2 ^ 42) high }
    ensures { result ≡ is_within_twice low value high }
{
    2 * low <= value && value <= 2 * high
}

/// Whether all four are true.
pub fn all(x: bool, y: bool, s: bool, d: bool) -> bool
    ensures { result ≡ (x && (y && (s && d))) }
{
    x && y && s && d
}

// Whether the place is on the octagon.
fn is_on(oct: &Oct, x: i64, y: i64) -> bool
    requires x { IsNearZero (2 ^ 44) x }
    requires y { IsNearZero (2 ^ 44) y }
    ensures { result ≡ is_on_oct oct.now x y }
{
    all(
        is_between(oct.x0(), x, oct.x1()),
        is_between(oct.y0(), y, oct.y1()),
        is_between(oct.s0(), x + y, oct.s1()),
        is_between(oct.d0(), x - y, oct.d1()),
    )
}

// Adds the row of the place, if it is on both octagons.
#[tactic(auto, unfolding(crate::specs::Inner::Crossings::met))]
fn put_met(rows: &mut Vec<i64>, a: &Oct, b: &Oct, x: i64, y: i64) -> Result<(), Memory>
    requires x { IsNearZero (2 ^ 44) x }
    requires y { IsNearZero (2 ^ 44) y }
    ensures { IfOk result (λ _. rows.new.items ≡ rows.old.items ++ met a.now b.now x y) }
{
    if is_on(a, x, y) {
        if is_on(b, x, y) {
            rows.push(y)?;
        }
    }
    Ok(())
}

// Adds the row where an upright side at x meets a rising one at d.
fn put_on_rising(rows: &mut Vec<i64>, a: &Oct, b: &Oct, x: i64, d: i64) -> Result<(), Memory>
    requires x { IsNearZero (2 ^ 42) x }
    requires d { IsNearZero (2 ^ 42) d }
    ensures { IfOk result (λ _. rows.new.items ≡ rows.old.items ++ on_rising a.now b.now x d) }
{
    put_met(rows, a, b, 2 * x, 2 * x - 2 * d)?;
    Ok(())
}

// Adds the row where an upright side at x meets a falling one at s.
fn put_on_falling(rows: &mut Vec<i64>, a: &Oct, b: &Oct, x: i64, s: i64) -> Result<(), Memory>
    requires x { IsNearZero (2 ^ 42) x }
    requires s { IsNearZero (2 ^ 42) s }
    ensures { IfOk result (λ _. rows.new.items ≡ rows.old.items ++ on_falling a.now b.now x s) }
{
    put_met(rows, a, b, 2 * x, 2 * s - 2 * x)?;
    Ok(())
}

// Adds the row where a rising side at d meets a falling one at s: at x = (s + d) / 2 units, which are s + d nanometres.
fn put_on_slants(rows: &mut Vec<i64>, a: &Oct, b: &Oct, d: i64, s: i64) -> Result<(), Memory>
    requires d { IsNearZero (2 ^ 42) d }
    requires s { IsNearZero (2 ^ 42) s }
    ensures { IfOk result (λ _. rows.new.items ≡ rows.old.items ++ on_slants a.now b.now d s) }
{
    put_met(rows, a, b, s + d, s - d)?;
    Ok(())
}

// Adds the rows where an upright side of a, at x, crosses slanting sides of b.
#[tactic(auto, unfolding(crate::specs::Inner::Crossings::upright_rows))]
fn put_upright(rows: &mut Vec<i64>, a: &Oct, b: &Oct, x: i64) -> Result<(), Memory>
    requires { IsNearZero (2 ^ 42) x }
    ensures { IfOk result (λ _. rows.new.items ≡ rows.old.items ++ upright_rows a.now b.now x) }
{
    put_on_rising(rows, a, b, x, b.d0())?;
    put_on_rising(rows, a, b, x, b.d1())?;
    put_on_falling(rows, a, b, x, b.s0())?;
    put_on_falling(rows, a, b, x, b.s1())?;
    Ok(())
}

// Adds the rows where a rising side of a, at d, crosses falling sides of b.
#[tactic(auto, unfolding(crate::specs::Inner::Crossings::rising_rows))]
fn put_rising(rows: &mut Vec<i64>, a: &Oct, b: &Oct, d: i64) -> Result<(), Memory>
    requires { IsNearZero (2 ^ 42) d }
    ensures { IfOk result (λ _. rows.new.items ≡ rows.old.items ++ rising_rows a.now b.now d) }
{
    put_on_slants(rows, a, b, d, b.s0())?;
    put_on_slants(rows, a, b, d, b.s1())?;
    Ok(())
}

/// Adds the rows where upright and rising sides of a cross sides of b of the directions after theirs.
#[tactic(auto, unfolding(crate::specs::Inner::Crossings::half_rows))]
pub fn put_half(rows: &mut Vec<i64>, a: &Oct, b: &Oct) -> Result<(), Memory>
    ensures { IfOk result (λ _. rows.new.items ≡ rows.old.items ++ half_rows a.now b.now) }
{
    put_upright(rows, a, b, a.x0())?;
    put_upright(rows, a, b, a.x1())?;
    put_rising(rows, a, b, a.d0())?;
    put_rising(rows, a, b, a.d1())?;
    Ok(())
}

/// Adds the rows of all crossings of two octagons.
#[tactic(auto, unfolding(crate::specs::Inner::Crossings::crossing_rows))]
pub fn put_crossings(rows: &mut Vec<i64>, a: &Oct, b: &Oct) -> Result<(), Memory>
    ensures { IfOk result (λ _. rows.new.items ≡ rows.old.items ++ crossing_rows a.now b.now) }
{
    if a.x1() < b.x0() {
        return Ok(());
    }
    if b.x1() < a.x0() {
        return Ok(());
    }
    put_half(rows, a, b)?;
    put_half(rows, b, a)?;
    Ok(())
}
