// A fill's outline from its stacks against the outline of its pieces. Octagons are in units of 2 nm.
use crate::shapes::{generated, oct_of, octagons, sheet};
use octagon::Oct;
use scan_rows::Rows;
use sheet_trace::trace;
use stacks::{join, stacks};
use std::alloc::Global;
use std::test::Fail;

// The bounds of the octagon, moved outward: by one number along x and y, and by another along the diagonals.
fn grown(o: &Oct, straight: i64, slanted: i64) -> [i32; 8] {
    [
        number(o.x0(), straight.wrapping_neg()),
        number(o.x1(), straight),
        number(o.y0(), straight.wrapping_neg()),
        number(o.y1(), straight),
        number(o.s0(), slanted.wrapping_neg()),
        number(o.s1(), slanted),
        number(o.d0(), slanted.wrapping_neg()),
        number(o.d1(), slanted),
    ]
}

fn number(bound: i64, more: i64) -> i32 {
    i32::try_from(bound.wrapping_add(more)).unwrap_or(0)
}

// The bounds, moved by x and y.
fn moved(b: [i64; 8], x: i64, y: i64) -> [i64; 8] {
    let sum = x.wrapping_add(y);
    let difference = x.wrapping_sub(y);
    [
        b[0].wrapping_add(x),
        b[1].wrapping_add(x),
        b[2].wrapping_add(y),
        b[3].wrapping_add(y),
        b[4].wrapping_add(sum),
        b[5].wrapping_add(sum),
        b[6].wrapping_add(difference),
        b[7].wrapping_add(difference),
    ]
}

// A square of 400 units less 40 octagons at stated places: where the brush may stand. Its cells with the brush over them are pieces as those
// of a fill, band by band.
fn pieces(alloc: Global) -> Result<Vec<[i32; 8]>, Fail> {
    let square = oct_of([0, 400, 0, 400, 0, 800, -400, 400]).ok_or("a grid point")?;
    let mut rows = Rows::of_oct(alloc, &square).ok().ok_or("no memory")?;
    'obstacles: for i in 0..40u32 {
        let x = i64::from(i % 7).wrapping_mul(55);
        let y = i64::from(i / 7).wrapping_mul(62);
        if let Some(oct) = oct_of(moved(generated(i), x, y)) {
            rows.minus(&oct).ok().ok_or("no memory")?;
        }
    }
    let mut all = Vec::new(alloc);
    for cell in &rows.bands().ok().ok_or("no memory")? {
        all.push(grown(&cell.oct, 10, 15))?;
    }
    Ok(all)
}

// There are fewer stacks than pieces, and the rings and the area are the same.
#[test]
fn stacks_are_drawn_as_their_pieces(rt: HostRuntime) -> Result<(), Fail> {
    let a = rt.alloc();
    let all = pieces(a)?;
    let octs = octagons(a, &all)?;
    let joined = stacks(a, &octs).ok().ok_or("no memory")?;
    let mut fewer = Vec::new(a);
    'stacks: for stack in &joined {
        fewer.push(grown(stack, 0, 0))?;
    }
    assert!(rt; all.len() > 200);
    assert!(rt; fewer.len() < 180);
    let plain = sheet(a, &all)?.ok_or("a sheet")?;
    let drawn = sheet(a, &fewer)?.ok_or("a sheet")?;
    let wanted = trace(a, &plain).ok().ok_or("no memory")?;
    let found = trace(a, &drawn).ok().ok_or("no memory")?;
    assert_eq!(rt; found.area2, wanted.area2);
    assert_eq!(rt; found.rings.len(), wanted.rings.len());
    'rings: for (ring, same) in found.rings.iter().zip(&wanted.rings) {
        assert!(rt; ring.corners.as_slice() == same.corners.as_slice());
    }
    Ok(())
}

//    ####          ####
//    ####          ####   and not where the lower one is moved: the least octagon
//    ####   make   ####   round both has points that are in neither
//    ####   one    ####
//     two,
#[test]
fn upright_neighbours_make_one(rt: HostRuntime) -> Result<(), Fail> {
    let upper = oct_of([0, 10, 0, 10, 0, 20, -10, 10]).ok_or("a grid point")?;
    let lower = oct_of([0, 10, 8, 20, 8, 30, -20, 2]).ok_or("a grid point")?;
    let moved = oct_of([1, 11, 8, 20, 9, 31, -19, 3]).ok_or("a grid point")?;
    let both = oct_of([0, 10, 0, 20, 0, 30, -20, 10]).ok_or("a grid point")?;
    assert!(rt; join(&upper, &lower) == Some(both));
    assert!(rt; join(&upper, &moved).is_none());
    Ok(())
}
