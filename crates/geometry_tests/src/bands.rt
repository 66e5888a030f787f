// Cells worked out by hand or by an independent script, and cells against bands put together row by row from a plain
// list of points.
use crate::shapes::{generated, meets_all, oct_of, stated};
use scan_rows::{Cell, Rows};
use std::alloc::{AllocError, Global};
use std::test::Fail;

// A cell in numbers: its band, its run, and its eight bounds.
type Numbers = (u32, u32, [i64; 8]);

fn numbers(cell: &Cell) -> Numbers {
    let o = &cell.oct;
    (
        cell.band,
        cell.run,
        [
            o.x0(),
            o.x1(),
            o.y0(),
            o.y1(),
            o.s0(),
            o.s1(),
            o.d0(),
            o.d1(),
        ],
    )
}

fn all_numbers(alloc: Global, rows: &Rows) -> Result<Vec<Numbers>, Fail> {
    let cells = rows.bands().ok().ok_or("no memory")?;
    let mut all = Vec::new(alloc);
    for cell in &cells {
        all.push(numbers(cell))?;
    }
    Ok(all)
}

// A slanted stripe with a square beside its lower end, and a level stripe too far away to join.
//
//     y = 0   ###                      band 0: one run that moves to the right
//         1    ###
//         2     ###
//         3      ###  ##               band 1: two runs
//         4       ### ##
//         5                   ###      band 2
#[test]
fn a_slanted_union_has_three_bands(rt: HostRuntime) -> Result<(), Fail> {
    let a = rt.alloc();
    let slanted = oct_of([0, 6, 0, 4, 0, 10, 0, 2]).ok_or("a grid point")?;
    let square = oct_of([8, 9, 3, 4, 11, 13, 4, 6]).ok_or("a grid point")?;
    let level = oct_of([20, 22, 5, 5, 25, 27, 15, 17]).ok_or("a grid point")?;
    let rows = Rows::of_octs(a, &[level, slanted, square])
        .ok()
        .ok_or("no memory")?;
    let wanted = [
        (0, 0, [0, 4, 0, 2, 0, 6, 0, 2]),
        (1, 0, [3, 6, 3, 4, 6, 10, 0, 2]),
        (1, 1, [8, 9, 3, 4, 11, 13, 4, 6]),
        (2, 0, [20, 22, 5, 5, 25, 27, 15, 17]),
    ];
    assert!(rt; all_numbers(a, &rows)?.as_slice() == wanted.as_slice());
    assert!(rt; Rows::empty(a).bands().ok().ok_or("no memory")?.is_empty());
    Ok(())
}

// The second row of a band sets its moves, so a square without its corners has three bands, and not the middle as one.
//
//     y = 0    ###      band 0: the ends move outward
//         1   #####
//         2   #####     band 1: they are still
//         3   #####
//         4    ###      band 2
#[test]
fn a_band_takes_the_first_row_that_joins(rt: HostRuntime) -> Result<(), Fail> {
    let a = rt.alloc();
    let round = oct_of([0, 4, 0, 4, 1, 7, -3, 3]).ok_or("a grid point")?;
    let rows = Rows::of_oct(a, &round).ok().ok_or("no memory")?;
    let wanted = [
        (0, 0, [0, 4, 0, 1, 1, 5, -1, 3]),
        (1, 0, [0, 4, 2, 3, 2, 7, -3, 2]),
        (2, 0, [1, 3, 4, 4, 5, 7, -3, -1]),
    ];
    assert!(rt; all_numbers(a, &rows)?.as_slice() == wanted.as_slice());
    Ok(())
}

// The two ends of each run of the window's row, point by point.
fn plain_ends(alloc: Global, all: &[[i64; 8]], y: i64) -> Result<Vec<i64>, AllocError> {
    let mut ends = Vec::new(alloc);
    let mut inside = false;
    for x in 0..81i64 {
        let held = all.iter().any(|b| meets_all(b, x, y));
        if held && !inside {
            ends.push(x)?;
        }
        if inside && !held {
            ends.push(x.wrapping_sub(1))?;
        }
        inside = held;
    }
    Ok(ends)
}

// How far each end is from that above it; None where there are fewer or more.
fn steps(alloc: Global, above: &[i64], ends: &[i64]) -> Result<Option<Vec<i64>>, AllocError> {
    let mut all = Vec::new(alloc);
    if above.len() != ends.len() {
        return Ok(None);
    }
    for (a, b) in above.iter().zip(ends) {
        all.push(b.wrapping_sub(*a))?;
    }
    Ok(Some(all))
}

// Each row of the window that begins a band: its y, and the ends of its runs.
fn plain_bands(alloc: Global, all: &[[i64; 8]]) -> Result<Vec<(i64, i64)>, AllocError> {
    let mut begun = Vec::new(alloc);
    let mut above = Vec::new(alloc);
    let mut moves: Option<Vec<i64>> = None;
    for y in 0..81i64 {
        let ends = plain_ends(alloc, all, y)?;
        let next = steps(alloc, &above, &ends)?;
        let joins = match (&next, &moves) {
            (None, _) => false,
            (Some(step), None) => step.iter().all(|s| -1 <= *s && *s <= 1),
            (Some(step), Some(own)) => step.as_slice() == own.as_slice(),
        };
        if joins && !above.is_empty() {
            moves = next;
        } else {
            moves = None;
            for end in &ends {
                begun.push((y, *end))?;
            }
        }
        above = ends;
    }
    Ok(begun)
}

// The first row of each cell: its y, and both its ends.
fn first_rows(alloc: Global, cells: &[Cell]) -> Result<Vec<(i64, i64)>, AllocError> {
    let mut begun = Vec::new(alloc);
    for cell in cells {
        let y = cell.oct.y0();
        begun.push((y, cell.oct.s0().wrapping_sub(y)))?;
        begun.push((y, cell.oct.d1().wrapping_add(y)))?;
    }
    Ok(begun)
}

#[test]
fn bands_begin_where_plain_rows_begin_them(rt: HostRuntime) -> Result<(), Fail> {
    let a = rt.alloc();
    for seed in 0..24u32 {
        let mut all = Vec::new(a);
        let mut octs = Vec::new(a);
        for step in 0..7u32 {
            let bounds = generated(seed.wrapping_mul(1000).wrapping_add(step));
            if let Some(oct) = oct_of(bounds) {
                all.push(bounds)?;
                octs.push(oct)?;
            }
        }
        let rows = Rows::of_octs(a, &octs).ok().ok_or("no memory")?;
        let cells = rows.bands().ok().ok_or("no memory")?;
        assert!(rt;
            first_rows(a, &cells)?.as_slice() == plain_bands(a, &all)?.as_slice(),
            "at {seed}"
        );
    }
    Ok(())
}

// `bench/expected/cells.py` puts the bands of the same set together row by row.
#[test]
fn forty_octagons_leave_the_cells_of_a_script(rt: HostRuntime) -> Result<(), Fail> {
    let a = rt.alloc();
    let square = oct_of([
        0, 4_999_999, 0, 4_999_999, 0, 9_999_998, -4_999_999, 4_999_999,
    ])
    .ok_or("a grid point")?;
    let mut rows = Rows::of_oct(a, &square).ok().ok_or("no memory")?;
    let mut holes = Vec::new(a);
    for i in 0..40u32 {
        holes.push(stated(i).ok_or("a grid point")?)?;
    }
    rows.minus_all(&holes).ok().ok_or("no memory")?;
    let cells = rows.bands().ok().ok_or("no memory")?;
    let last = cells.last().ok_or("no cell")?;
    assert_eq!(rt; (last.band, cells.len()), (56, 227));
    Ok(())
}
