// A random union, whose rings are compared with its octagons point by point, and sheets of 20,000 octagons. Octagons are in units of 2 nm, corners in nanometres.
use crate::shapes::{grid, is_send_and_sync, octagons, shape, sheet};
use grid_num::Point;
use octagon::Oct;
use sheet_trace::{Ring, Traced, loops, polygons, trace};
use sheet_union::Sheet;
use std::alloc::{AllocError, Global};
use std::test::Fail;

// The next of a sequence of numbers, by the constants of a well-known linear congruence.
fn next(state: u64) -> u64 {
    state
        .wrapping_mul(6_364_136_223_846_793_005)
        .wrapping_add(1_442_695_040_888_963_407)
}

// A number below 64 from it.
fn below_64(state: u64) -> i32 {
    i32::try_from((state >> 40) % 64).unwrap_or(0)
}

// A number below 16 from it.
fn below_16(state: u64) -> i32 {
    i32::try_from((state >> 50) % 16).unwrap_or(0)
}

// The bounds of an octagon within 81 units, 2 to 17 units wide and high, of which two corners are cut, and all four where there is room.
fn random_bounds(first: u64) -> [i32; 8] {
    let second = next(first);
    let third = next(second);
    let cut = below_16(next(third)) / 4;
    let x = below_64(first);
    let y = below_64(second);
    let end = x.wrapping_add(below_16(second)).wrapping_add(2);
    let low = y.wrapping_add(below_16(third)).wrapping_add(2);
    shape(
        [x, end],
        [y, low],
        [
            x.wrapping_add(y).wrapping_add(cut),
            end.wrapping_add(low).wrapping_sub(1),
        ],
        [
            x.wrapping_sub(low).wrapping_add(1),
            end.wrapping_sub(y).wrapping_sub(cut),
        ],
    )
}

fn random_octagons(alloc: Global, count: u32) -> Result<Vec<[i32; 8]>, AllocError> {
    let mut all = Vec::new(alloc);
    let mut state = 2026u64;
    'each: for _each in 0..count {
        state = next(state);
        all.push(random_bounds(state))?;
    }
    Ok(all)
}

// Whether a number, in quarters of a nanometre, is between two bounds. There are eight quarters in a unit.
fn is_from(low: i64, high: i64, at: i64) -> bool {
    low.wrapping_mul(8) <= at && at <= high.wrapping_mul(8)
}

// Whether a point, in quarters of a nanometre, is in the octagon.
fn is_in(oct: &Oct, x: i64, y: i64) -> bool {
    let upright = is_from(oct.x0(), oct.x1(), x) && is_from(oct.y0(), oct.y1(), y);
    let slanted = is_from(oct.s0(), oct.s1(), x.wrapping_add(y))
        && is_from(oct.d0(), oct.d1(), x.wrapping_sub(y));
    upright && slanted
}

fn is_in_some(octs: &[Oct], x: i64, y: i64) -> bool {
    'each: for oct in octs {
        if is_in(oct, x, y) {
            return true;
        }
    }
    false
}

// Whether the way from a to b crosses the row of a point on the point's left. It is level, upright or slanted by 45 degrees.
fn crosses(a: Point, b: Point, x: i64, y: i64) -> bool {
    let ay = a.y.wrapping_mul(4);
    let by = b.y.wrapping_mul(4);
    if (ay < y) == (by < y) {
        return false;
    }
    let down = y.wrapping_sub(ay);
    let ax = a.x.wrapping_mul(4);
    if a.x == b.x {
        return ax < x;
    }
    if (a.x < b.x) == (a.y < b.y) {
        return ax.wrapping_add(down) < x;
    }
    ax.wrapping_sub(down) < x
}

// Whether an odd number of the ring's sides cross the row of the point on its left.
fn is_odd(corners: &[Point], x: i64, y: i64) -> bool {
    let mut odd = false;
    let Some(last) = corners.last() else {
        return false;
    };
    let mut from = *last;
    'each: for corner in corners {
        odd = odd != crosses(from, *corner, x, y);
        from = *corner;
    }
    odd
}

fn is_covered(rings: &[Ring], x: i64, y: i64) -> bool {
    let mut odd = false;
    'each: for ring in rings {
        odd = odd != is_odd(&ring.corners, x, y);
    }
    odd
}

// How many points are in octagons, how many aren't, and for how many the rings say otherwise.
#[derive(Drop)]
struct Counts {
    within: u32,
    free: u32,
    wrong: u32,
}

fn count(counts: &mut Counts, within: bool, covered: bool) {
    if within {
        counts.within = counts.within.wrapping_add(1);
    } else {
        counts.free = counts.free.wrapping_add(1);
    }
    if within != covered {
        counts.wrong = counts.wrong.wrapping_add(1);
    }
}

fn count_row(counts: &mut Counts, octs: &[Oct], rings: &[Ring], y: i64) {
    'points: for column in 0..54i64 {
        let x = column.wrapping_mul(12).wrapping_add(1);
        count(counts, is_in_some(octs, x, y), is_covered(rings, x, y));
    }
}

// Over the points of a grid. They are on no side: bounds are whole units, corners whole nanometres.
fn compared(octs: &[Oct], rings: &[Ring]) -> Counts {
    let mut counts = Counts {
        within: 0,
        free: 0,
        wrong: 0,
    };
    'rows: for row in 0..54i64 {
        let y = row.wrapping_mul(12).wrapping_add(2);
        count_row(&mut counts, octs, rings, y);
    }
    counts
}

// 60 octagons within 80 units, from the sequence that begins with 2026. Each of the 2916 points of a grid, three nanometres apart, is covered by the rings
// where it is in an octagon.
#[test]
fn rings_of_a_random_union_cover_it(rt: HostRuntime) -> Result<(), Fail> {
    let a = rt.alloc();
    let octs = octagons(a, &random_octagons(a, 60)?)?;
    let union = Sheet::of(a, &octs).ok().ok_or("a sheet")?;
    let rings = polygons(a, &union).ok().ok_or("memory")?;
    let counts = compared(&octs, &rings);
    assert_eq!(rt; counts.wrong, 0);
    assert!(rt; counts.within > 500);
    assert!(rt; counts.free > 500);
    Ok(())
}

// How many corners the rings have together.
fn corners_in(rings: &[Ring]) -> usize {
    let mut count = 0usize;
    'each: for ring in rings {
        count = count.wrapping_add(ring.corners.len());
    }
    count
}

// Each octagon is a ring of eight corners.
#[test]
fn twenty_thousand_apart(rt: HostRuntime) -> Result<(), Fail> {
    let a = rt.alloc();
    let apart = sheet(a, &grid(a, 60)?)?.ok_or("a sheet")?;
    let rings = polygons(a, &apart).ok().ok_or("memory")?;
    assert_eq!(rt; rings.len(), 20_000);
    assert_eq!(rt; corners_in(&rings), 160_000);
    Ok(())
}

// Each touches its neighbours along a side, and where four corners meet there is a diamond without copper: 124 times 159 holes, and the loop around all.
#[test]
fn twenty_thousand_side_by_side(rt: HostRuntime) -> Result<(), Fail> {
    let a = rt.alloc();
    let plate = sheet(a, &grid(a, 100)?)?.ok_or("a sheet")?;
    assert_eq!(rt; loops(a, &plate).ok().ok_or("memory")?.len(), 124 * 159 + 1);
    assert_eq!(rt; polygons(a, &plate).ok().ok_or("memory")?.len(), 1);
    Ok(())
}

// What threads may do with them: two squares that meet in a corner.
#[test]
fn rings_may_be_shared_and_sent(rt: HostRuntime) -> Result<(), Fail> {
    let a = rt.alloc();
    let corner = [
        shape([0, 100], [0, 100], [0, 200], [-100, 100]),
        shape([100, 200], [100, 200], [200, 400], [-100, 100]),
    ];
    let both = sheet(a, &corner)?.ok_or("a sheet")?;
    let outlines: Traced = trace(a, &both).ok().ok_or("memory")?;
    is_send_and_sync(&outlines);
    is_send_and_sync(&loops(a, &both).ok().ok_or("memory")?);
    is_send_and_sync(&polygons(a, &both).ok().ok_or("memory")?);
    Ok(())
}
