// What no clause says: that the calls succeed, rows worked out by hand or point by point, and what they cost.

use crate::shapes::{generated, is_send_and_sync, meets_all, oct_of, round};
use grid_sets::{End, Move};
use scan_runs::{RowStrip, strips_of};
use std::alloc::{AllocError, Global};
use std::test::Fail;

// Where the end is k rows further down.
fn place(end: End, k: i64) -> i64 {
    match end.go {
        Move::Left => end.place.wrapping_sub(k),
        Move::Still => end.place,
        Move::Right => end.place.wrapping_add(k),
    }
}

// The runs of all rows: y, the least x, the greatest x.
fn runs_of(alloc: Global, strips: &[RowStrip]) -> Result<Vec<(i64, i64, i64)>, AllocError> {
    let mut runs = Vec::new(alloc);
    for strip in strips {
        for k in 0..strip.more.saturating_add(1) {
            let k = (k % 1_000_000) as i64;
            for run in &strip.runs {
                runs.push((
                    strip.top.wrapping_add(k),
                    place(run.from, k),
                    place(run.to, k),
                ))?;
            }
        }
    }
    Ok(runs)
}

// An octagon with its corners cut off, and a square that touches it at the right.
//
//      y = -2      ###     ###
//          -1     #####    ###     the square is at x from 3 to 5 and y from 0 to 1
//           0     ########
//           1     ########
//           2      ###
#[test]
fn rows_have_maximal_runs(rt: HostRuntime) -> Result<(), Fail> {
    let round = oct_of([-2, 2, -2, 2, -3, 3, -3, 3]).ok_or("a grid point")?;
    let square = oct_of([3, 5, 0, 1, 3, 6, 2, 5]).ok_or("a grid point")?;
    let above = oct_of([7, 9, -2, -1, 5, 8, 8, 11]).ok_or("a grid point")?;
    let strips = strips_of(rt.alloc(), &[square, above, round])
        .ok()
        .ok_or("no memory")?;
    is_send_and_sync(&strips);
    let runs = runs_of(rt.alloc(), &strips)?;
    let wanted = [
        (-2, -1, 1),
        (-2, 7, 9),
        (-1, -2, 2),
        (-1, 7, 9),
        (0, -2, 5),
        (1, -2, 5),
        (2, -1, 1),
    ];
    assert!(rt; runs.as_slice() == wanted.as_slice());
    assert!(rt;
        strips_of(rt.alloc(), &[])
            .ok()
            .ok_or("no memory")?
            .is_empty()
    );
    Ok(())
}

// Whether the point meets all eight bounds of one of them.
fn on_some(all: &[[i64; 8]], x: i64, y: i64) -> bool {
    all.iter().any(|b| meets_all(b, x, y))
}

// The runs of a window, point by point.
fn plain_runs(alloc: Global, all: &[[i64; 8]]) -> Result<Vec<(i64, i64, i64)>, AllocError> {
    let mut runs = Vec::new(alloc);
    for y in 0..80i64 {
        let mut from = None;
        for x in 0..81i64 {
            match (from, on_some(all, x, y)) {
                (None, true) => from = Some(x),
                (Some(start), false) => {
                    runs.push((y, start, x.wrapping_sub(1)))?;
                    from = None;
                }
                _ => {}
            }
        }
    }
    Ok(runs)
}

#[test]
fn rows_agree_with_plain_points(rt: HostRuntime) -> Result<(), Fail> {
    let a = rt.alloc();
    for seed in 0..24u32 {
        let mut all = Vec::new(a);
        let mut octs = Vec::new(a);
        for step in 0..7u32 {
            let bounds = generated(seed.wrapping_mul(1000).wrapping_add(step));
            if let Some(oct) = oct_of(bounds) {
                all.push(bounds)?;
                octs.push(oct)?;
            }
        }
        let strips = strips_of(a, &octs).ok().ok_or("no memory")?;
        let runs = runs_of(a, &strips)?;
        assert!(rt;
            runs.as_slice() == plain_runs(a, &all)?.as_slice(),
            "at {seed}"
        );
    }
    Ok(())
}

// A thousand octagons on a grid of 40 by 25 places, 120,000 and 190,000 units apart: each row of places has three stretches of straight rows, and there is a gap between.
#[test]
fn a_thousand_octagons_have_few_strips(rt: HostRuntime) -> Result<(), Fail> {
    let a = rt.alloc();
    let mut octs = Vec::new(a);
    for i in 0..1000u32 {
        let oct = round(
            100_000 + i % 40 * 120_000,
            100_000 + i / 40 * 190_000,
            50_000,
        );
        octs.push(oct.ok_or("a grid point")?)?;
    }
    let strips = strips_of(a, &octs).ok().ok_or("no memory")?;
    assert_eq!(rt; strips.len(), 75);
    for strip in &strips {
        assert_eq!(rt; strip.runs.len(), 40);
    }
    Ok(())
}
